//! Why a change has no effect.

ghost use Rattle.std.specs.Prelude.{◌≡◌, IfOk};

use rl_value::{Miss, NoMemory};

/// Why a change has no effect. The rows written so far stay as they were.
#[derive(Debug, Drop)]
pub enum EffectFault {
    /// An apply conflict: the rows are not those that the change was made on.
    Miss(Miss),
    /// There is no memory.
    Memory,
}

impl EffectFault {
    /// An equal one, which owns memory of its own.
    pub fn copy(&self) -> Result<EffectFault, NoMemory>
        ensures equal { IfOk result (λ fault. fault ≡ self.now) }
    {
        match self {
            EffectFault::Miss(miss) => Ok(EffectFault::Miss(miss.copy()?)),
            EffectFault::Memory => Ok(EffectFault::Memory),
        }
    }
}
