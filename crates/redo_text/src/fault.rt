//! Why a text is not written: its first bad line, or want of memory.
ghost use Rattle.std.specs.Prelude.{◌≡◌};
ghost use Rattle.redo_text.specs.declared.fault.WriteFault.TheVariants as writes;

use redo_lines::LineFault;
use std::alloc::{AllocError, AllocFailed};

/// Why a text is not written as a log.
#[derive(Clone, Copy, Debug, PartialEq, Eq)]
pub enum WriteFault {
    /// The first bad line, counted from 1, and why it is bad.
    Line { line: u64, fault: LineFault },
    /// There is no memory.
    Memory,
}

impl From<AllocError> for WriteFault {
    ghost from_gives = { λ _ e. e ≡ writes.Memory };

    fn from(_e: AllocError) -> WriteFault {
        WriteFault::Memory
    }
}

impl<T: Drop> From<AllocFailed<T>> for WriteFault {
    ghost from_gives = { λ _ e. e ≡ writes.Memory };

    fn from(_e: AllocFailed<T>) -> WriteFault {
        WriteFault::Memory
    }
}
