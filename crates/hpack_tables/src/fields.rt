//! The fields of a header block.
ghost use Rattle.std.specs.Prelude.{◌≡◌, [], ◌∷◌, ◌++◌, OnOk, OnErr};

use crate::field::Field;
use std::alloc::{AllocError, Global};
use std::marker::Model;
use vec_list::VecList;

/// Header fields in the order of their block. A contract sees them as a list.
pub type Fields = VecList<Field>;
