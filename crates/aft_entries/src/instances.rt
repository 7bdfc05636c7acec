ghost use Rattle.std.specs.Prelude.{◌≡◌, ◌≤◌, ◌<◌, IfOk, map, length, string_bytes, slice_index_or, []};
ghost use Rattle.std.specs.List.{list_any, position};
ghost use Rattle.std.specs.Str.{bytes_eq};
ghost use Rattle.std.specs.Result.{result_err};
ghost use Rattle.aft_entries.specs.InstanceNames.{fault_of, fault_by, holds_twice, is_bad_name, number_of};

use std::marker::Model;

/// Why a list of names isn't taken, in the order in which the causes are tested.
#[derive(Clone, Copy, Debug, PartialEq, Eq)]
pub enum InstancesFault {
    /// There is no name.
    Empty,
    /// A name is empty or has more than 255 bytes.
    BadName,
    /// A name stands twice.
    Twice,
    /// There are more than 256 names.
    TooMany,
}

/// The names of the network instances, 1 to 256 of them, all different.
///
/// An instance's number is its place in the list.
#[derive(Drop)]
pub struct Instances {
    names: Vec<String>,
}

impl Model for Instances {
    ghost use Rattle.std.specs.Prelude.{List, ℕ, IsTrue, is_none, map, string_bytes};
    ghost use Rattle.aft_entries.specs.InstanceNames.{fault_by};

    ghost Value = { List (List ℕ) };

    ghost view = { λ i. map string_bytes i.names.items };

    ghost invariant = { λ i. IsTrue (is_none (fault_by string_bytes i.names.items)) };
}

impl Instances {
    /// The instances with these names, in this order, or the first fault of the list.
    #[tactic(auto, using(crate::proofs::Listing::fault_map))]
    pub fn new(names: Vec<String>) -> Result<Instances, InstancesFault>
        ensures instances { IfOk result (λ instances. instances ≡ map string_bytes names.items) }
        ensures fault { result_err result ≡ fault_of (map string_bytes names.items) }
    {
        if let Some(fault) = first_fault(names.as_slice()) {
            return Err(fault);
        }
        Ok(Instances { names })
    }

    /// The number of the instance with this name, which is its place in the list.
    #[tactic(auto, using(crate::proofs::Listing::few_names, crate::proofs::Listing::position_map, crate::proofs::Listing::position_within))]
    pub fn find(&self, name: &str) -> Option<u16>
        ensures { result ≡ number_of self.now name.now }
    {
        match place_of(self.names.as_slice(), name) {
            None => None,
            Some(place) => Some(place as u16),
        }
    }

    /// The name of the instance with this number.
    #[tactic(auto, using(crate::proofs::Listing::length_map))]
    pub fn name(&self, number: u16) -> &str
        requires { number < length self.now }
        ensures { result.now ≡ slice_index_or self.now number [] }
    {
        let name = &self.names.as_slice()[number as usize];
        name.as_str()
    }

    /// How many instances there are.
    #[tactic(auto, using(crate::proofs::Listing::some_names, crate::proofs::Listing::few_names, crate::proofs::Listing::length_map))]
    pub fn count(&self) -> u16
        ensures count { result ≡ length self.now }
        ensures some { 1 ≤ result }
        ensures few { result ≤ 256 }
    {
        self.names.as_slice().len() as u16
    }
}

fn place_of(names: &[String], name: &str) -> Option<usize>
    ensures { result ≡ position (λ other. bytes_eq (string_bytes other) name.now) names.now }
{
    names.iter().position(|other| other.as_str() == name)
}

fn first_fault(names: &[String]) -> Option<InstancesFault>
    ensures { result ≡ fault_by string_bytes names.now }
{
    if names.is_empty() {
        Some(InstancesFault::Empty)
    } else if has_bad(names) {
        Some(InstancesFault::BadName)
    } else if has_twice(names) {
        Some(InstancesFault::Twice)
    } else if names.len() > 256 {
        Some(InstancesFault::TooMany)
    } else {
        None
    }
}

fn has_bad(names: &[String]) -> bool
    ensures { result ≡ list_any (λ name. is_bad_name (string_bytes name)) names.now }
{
    names.iter().any(|name| is_bad(name.as_str()))
}

fn is_bad(name: &str) -> bool
    ensures { result ≡ is_bad_name name.now }
{
    name.is_empty() || name.len() > 255
}

#[tactic(auto, using(crate::proofs::Listing::twice_more, crate::proofs::Listing::twice_found, crate::proofs::Listing::twice_end))]
fn has_twice(names: &[String]) -> bool
    ensures { result ≡ holds_twice (λ other name. bytes_eq (string_bytes other) (string_bytes name)) names.now }
{
    'names: for place in 0..names.len() {
        let (_, others) = names.split_at(place + 1);
        let name = &names[place];
        if stands_in(others, name.as_str()) {
            return true;
        }
    }
    false
}

fn stands_in(names: &[String], name: &str) -> bool
    ensures { result ≡ list_any (λ other. bytes_eq (string_bytes other) name.now) names.now }
{
    names.iter().any(|other| other.as_str() == name)
}
