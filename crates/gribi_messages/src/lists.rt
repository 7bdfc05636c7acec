ghost use Rattle.std.specs.Prelude.{◌≡◌, [], ◌∷◌, ◌++◌, OnOk, OnErr};

use crate::response::AftResult;
use aft_entries::RawOperation;
use std::alloc::{AllocError, Global};
use std::marker::Model;
use vec_list::VecList;

/// Operations, in their order. Contracts see the list.
pub type RawOperations = VecList<RawOperation>;

/// Results, in their order. Contracts see the list.
pub type AftResults = VecList<AftResult>;
