ghost use Rattle.std.specs.Prelude.{◌≡◌, IsTrue, string_bytes};
ghost use Rattle.aft_entries.specs.MemberOrder.{is_in_order};

use crate::key::Key;
use std::alloc::AllocError;
use std::marker::Model;
use vec_list::VecList;

/// A text, seen as its bytes.
#[derive(Drop)]
pub struct Name {
    text: String,
}

impl Model for Name {
    ghost use Rattle.std.specs.Prelude.{List, ℕ, string_bytes};

    ghost Value = { List ℕ };

    ghost view = { λ n. string_bytes n.text };
}

/// Labels, seen as a list.
pub type Labels = VecList<u32>;

/// A next hop of a group, and its weight.
#[derive(Clone, Copy, Debug, PartialEq, Eq)]
pub struct Member {
    pub hop: u64,
    pub weight: u16,
}

/// Members of a group in order of their index, seen as a list.
#[derive(Drop)]
pub struct Members {
    members: Vec<Member>,
}

impl Model for Members {
    ghost use Rattle.std.specs.Prelude.{List, IsTrue};
    ghost use Rattle.aft_entries.specs.declared.lists.Member.{Member};
    ghost use Rattle.aft_entries.specs.MemberOrder.{is_in_order};

    ghost Value = { List Member };

    ghost view = { λ m. m.members.items };

    ghost invariant = { λ m. IsTrue (is_in_order m.members.items) };
}

/// Keys, seen as a list.
pub type Keys = VecList<Key>;

impl Members {
    /// The members, which stand in order of their index.
    pub fn from_vec(members: Vec<Member>) -> Members
        requires { IsTrue (is_in_order members.items) }
        ensures { result ≡ members.items }
    {
        Members { members }
    }

    /// The members, as a vector.
    pub fn into_vec(self) -> Vec<Member>
        ensures { result.items ≡ self }
    {
        let Members { members } = self;
        members
    }

    /// The members in order of their index.
    pub fn as_slice(&self) -> &[Member]
        ensures items { result.now ≡ self.now }
        ensures order { IsTrue (is_in_order self.now) }
    {
        self.members.as_slice()
    }
}

impl Clone for Members {
    ghost is_clone = { λ x y. y ≡ x };

    fn clone(&self) -> Result<Members, AllocError> {
        let alloc = *self.members.allocator();
        Ok(Members {
            members: Vec::from_slice(alloc, self.members.as_slice())?,
        })
    }
}

impl Name {
    /// The text, which is moved.
    pub fn from_string(text: String) -> Name
        ensures { result ≡ string_bytes text }
    {
        Name { text }
    }

    /// The text.
    pub fn as_str(&self) -> &str
        ensures { result.now ≡ self.now }
    {
        self.text.as_str()
    }
}

impl Clone for Name {
    ghost is_clone = { λ x y. y ≡ x };

    fn clone(&self) -> Result<Name, AllocError> {
        let alloc = *self.text.allocator();
        Ok(Name {
            text: String::from_str(alloc, self.text.as_str())?,
        })
    }
}
