//! Why a record is not admitted.
ghost use Rattle.std.specs.Prelude.{◌≡◌, IfOk};

use rl_value::{LawFault, NoMemory};

/// Why a record is not admitted.
#[derive(Debug, Drop)]
pub enum AdmitFault {
    /// It may not follow those before it: the first reason.
    Law(LawFault),
    /// Want of memory.
    Memory,
}

impl AdmitFault {
    /// An equal one, which owns memory of its own.
    pub fn copy(&self) -> Result<AdmitFault, NoMemory>
        ensures equal { IfOk result (λ fault. fault ≡ self.now) }
    {
        match self {
            AdmitFault::Law(fault) => Ok(AdmitFault::Law(fault.copy()?)),
            AdmitFault::Memory => Ok(AdmitFault::Memory),
        }
    }
}
