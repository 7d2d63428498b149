//! Why a store is not loaded.
ghost use Rattle.std.specs.Prelude.{◌≡◌, IfOk};

use rl_value::{Bytes, NoMemory};

/// Why a store is not loaded.
#[derive(Debug, Drop)]
pub enum LoadFault {
    /// The first key that is not in the layout. Areas count from 1 to 7. In area 6 the key of no bytes stands for the count of
    /// applied commits, where it is not there.
    BadKeeper { area: u8, key: Bytes },
    /// A call of the keeper failed.
    KeeperFault,
    /// There is no memory.
    Memory,
}

impl LoadFault {
    /// An equal one, which owns memory of its own.
    pub fn copy(&self) -> Result<LoadFault, NoMemory>
        ensures equal { IfOk result (λ fault. fault ≡ self.now) }
    {
        match self {
            LoadFault::BadKeeper { area, key } => Ok(LoadFault::BadKeeper {
                area: *area,
                key: key.copy()?,
            }),
            LoadFault::KeeperFault => Ok(LoadFault::KeeperFault),
            LoadFault::Memory => Ok(LoadFault::Memory),
        }
    }
}

impl From<NoMemory> for LoadFault {
    ghost use Rattle.std.specs.Prelude.{◌≡◌};
    ghost use Rattle.checkpoint.specs.declared.fault.LoadFault.TheVariants as faults;

    ghost from_gives = { λ _ e. e ≡ faults.Memory };

    fn from(_: NoMemory) -> LoadFault {
        LoadFault::Memory
    }
}
