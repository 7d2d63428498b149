//! A change that was done and met no conflict.
ghost use Rattle.std.specs.Prelude.{◌≡◌, IfOk};

use crate::left::{Left, copied_left};
use rl_value::{NoMemory, Pos};

/// A change that wrote rows, or was passed over.
#[derive(Drop)]
pub(crate) struct Did {
    pub(crate) pos: Pos,
    pub(crate) table: u32,
    /// The count at which it was done.
    pub(crate) n: u64,
    /// What it left at each row that it touched. None where it was passed over.
    pub(crate) wrote: Option<Left>,
}

impl Did {
    /// An equal one, which owns memory of its own.
    pub(crate) fn copy(&self) -> Result<Did, NoMemory>
        ensures equal { IfOk result (λ did. did ≡ self.now) }
    {
        let wrote = copied_left(&self.wrote)?;
        Ok(Did {
            pos: self.pos,
            table: self.table,
            n: self.n,
            wrote,
        })
    }
}
