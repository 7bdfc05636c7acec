//! A list that contracts see: a field of a public type holds a [`VecList`] where Rust alone would hold a `Vec`.
//!
//! `VecList::from_vec` takes a `Vec` as it is, and `as_slice` lends its items.
#![tactic(auto)]

ghost use Rattle.std.specs.Prelude.{◌≡◌, [], ◌∷◌, ◌++◌, OnOk, OnErr};

use std::alloc::{AllocError, Global};
use std::marker::Model;

/// A `Vec` that contracts see as the list of its items.
#[derive(Debug, Drop)]
pub struct VecList<T> {
    items: Vec<T>,
}

impl<T> Model for VecList<T> {
    ghost use Rattle.std.specs.Prelude.{List};

    ghost Value = { List T };

    ghost view = { λ l. l.items.items };
}

impl<T> VecList<T> {
    /// No items. Takes no memory.
    pub fn new(alloc: Global) -> VecList<T>
        ensures { result ≡ [] }
    {
        VecList {
            items: Vec::new(alloc),
        }
    }

    /// The items of a vector, which is moved.
    pub fn from_vec(items: Vec<T>) -> VecList<T>
        ensures { result ≡ items.items }
    {
        VecList { items }
    }

    /// The items, as a vector.
    pub fn into_vec(self) -> Vec<T>
        ensures { result.items ≡ self }
    {
        let VecList { items } = self;
        items
    }

    /// The items.
    pub fn as_slice(&self) -> &[T]
        ensures { result.now ≡ self.now }
    {
        self.items.as_slice()
    }
}

impl<T: Drop> VecList<T> {
    /// Appends an item. Fails only for want of memory, and then nothing changes.
    pub fn push(&mut self, item: T) -> Result<(), AllocError>
        ensures ok { OnOk result (self.new ≡ self.old ++ item ∷ []) }
        ensures err { OnErr result (self.new ≡ self.old) }
    {
        self.items.push(item)?;
        Ok(())
    }
}

impl<T: Copy> Clone for VecList<T> {
    ghost is_clone = { λ x y. y ≡ x };

    fn clone(&self) -> Result<VecList<T>, AllocError> {
        let alloc = *self.items.allocator();
        Ok(VecList {
            items: Vec::from_slice(alloc, self.items.as_slice())?,
        })
    }
}
