//! Why words are not read: they are none of the grammar, or memory ran out.
ghost use Rattle.std.specs.Prelude.{◌≡◌};
ghost use Rattle.script_words.specs.declared.fault.WordsFault.TheVariants as faults;

use rl_value::NoMemory;
use std::alloc::{AllocError, AllocFailed};

/// Why words are not read.
#[derive(Clone, Copy, Debug, PartialEq, Eq)]
pub enum WordsFault {
    /// They are none of the grammar.
    Grammar,
    /// There is no memory.
    Memory,
}

impl From<NoMemory> for WordsFault {
    ghost from_gives = { λ _ e. e ≡ faults.Memory };

    fn from(_e: NoMemory) -> WordsFault {
        WordsFault::Memory
    }
}

impl From<AllocError> for WordsFault {
    ghost from_gives = { λ _ e. e ≡ faults.Memory };

    fn from(_e: AllocError) -> WordsFault {
        WordsFault::Memory
    }
}

impl<T: Drop> From<AllocFailed<T>> for WordsFault {
    ghost from_gives = { λ _ e. e ≡ faults.Memory };

    fn from(_e: AllocFailed<T>) -> WordsFault {
        WordsFault::Memory
    }
}
