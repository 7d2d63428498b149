//! Why a fold takes no further record.
use rl_value::NoMemory;

/// Why a record is not taken.
#[derive(Clone, Copy, Debug)]
pub enum TakeFault {
    /// The dictionary ends with the record, and the rows that waited for it are no sound tables.
    Unsound,
    /// Want of memory.
    Memory,
}

impl From<NoMemory> for TakeFault {
    ghost use Rattle.std.specs.Prelude.{◌≡◌};
    ghost use Rattle.primary.specs.declared.fault.TakeFault.TheVariants.{Memory};

    ghost from_gives = { λ _ e. e ≡ Memory };

    fn from(_: NoMemory) -> TakeFault {
        TakeFault::Memory
    }
}
