//! Why nothing is kept beside rows.
use rl_value::NoMemory;

/// Why nothing is kept beside rows.
#[derive(Clone, Copy, Debug)]
pub enum KeepFault {
    /// The rows are no sound tables of the dictionary.
    Unsound,
    /// Want of memory.
    Memory,
}

impl From<NoMemory> for KeepFault {
    ghost use Rattle.std.specs.Prelude.{◌≡◌};
    ghost use Rattle.plain_store.specs.declared.fault.KeepFault.TheVariants.{Memory};

    ghost from_gives = { λ _ e. e ≡ Memory };

    fn from(_: NoMemory) -> KeepFault {
        KeepFault::Memory
    }
}
