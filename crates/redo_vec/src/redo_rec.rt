//! Decoded redo records.
ghost use Rattle.std.specs.Prelude.{◌≡◌, IfOk};

use crate::vector::Vectors;
use rl_value::NoMemory;

/// A redo record: the system change number at which its vectors were done, and the vectors.
#[derive(Debug, Drop)]
pub struct RedoRec {
    pub scn: u64,
    pub vectors: Vectors,
}

impl RedoRec {
    /// An equal one, which owns memory of its own.
    pub fn copy(&self) -> Result<RedoRec, NoMemory>
        ensures equal { IfOk result (λ rec. rec ≡ self.now) }
    {
        Ok(RedoRec {
            scn: self.scn,
            vectors: self.vectors.copy()?,
        })
    }
}
