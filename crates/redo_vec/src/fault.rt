//! Why a record is not decoded: its first fault, or want of memory.
ghost use Rattle.std.specs.Prelude.{◌≡◌};
ghost use Rattle.redo_vec.specs.declared.fault.DecodeFault.TheVariants.{Memory};

use rl_value::{NoMemory, VecFault};
use std::alloc::{AllocError, AllocFailed};

/// Why a record is not decoded.
#[derive(Debug, Drop)]
pub enum DecodeFault {
    /// The first refused field. Its place is the offset of its first byte in the record, in bytes; for a field
    /// that is not whole it is the record's length.
    Vector { fault: VecFault, place: u32 },
    /// There is no memory.
    Memory,
}

impl From<AllocError> for DecodeFault {
    ghost from_gives = { λ _ e. e ≡ Memory };

    fn from(_e: AllocError) -> DecodeFault {
        DecodeFault::Memory
    }
}

impl<T: Drop> From<AllocFailed<T>> for DecodeFault {
    ghost from_gives = { λ _ e. e ≡ Memory };

    fn from(_e: AllocFailed<T>) -> DecodeFault {
        DecodeFault::Memory
    }
}
