ghost use Rattle.std.specs.Prelude.{◌≡◌};
ghost use Rattle.hpack_tables.specs.declared.fault.HpackFault.TheVariants.{NoMemory};

use std::alloc::{AllocError, AllocFailed};

/// Why a header block is refused: the fault of its first bad item (RFC 7541).
#[derive(Clone, Copy, Debug, PartialEq, Eq)]
pub enum HpackFault {
    /// Index 0, or one past the dynamic table.
    BadIndex,
    /// An integer that is cut, above 4,294,967,295, or longer than five bytes behind its prefix.
    BadInteger,
    /// A string that is cut or missing, or whose Huffman code is wrong.
    BadString,
    /// A size update behind a field of its block.
    LateSizeUpdate,
    /// A size update above the size that was announced.
    SizeTooLarge,
    /// Fields whose sizes sum above 65,536.
    ListTooLong,
    /// The allocator had no memory.
    NoMemory,
}

impl From<AllocError> for HpackFault {
    ghost from_gives = { λ _ e. e ≡ NoMemory };

    fn from(_e: AllocError) -> HpackFault {
        HpackFault::NoMemory
    }
}

impl<T: Drop> From<AllocFailed<T>> for HpackFault {
    ghost from_gives = { λ _ e. e ≡ NoMemory };

    fn from(_e: AllocFailed<T>) -> HpackFault {
        HpackFault::NoMemory
    }
}
