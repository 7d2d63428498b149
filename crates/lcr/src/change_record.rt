//! A change with its position in the redo.
//!
//! The position names the change: two equal changes of a transaction stand at two positions, so they stay apart.
ghost use Rattle.std.specs.Prelude.{◌≡◌, IfOk};

use redo_vec::Change;
use rl_value::{NoMemory, Pos};

/// A logical change record (LCR): a change, and where it stands in the redo.
#[derive(Debug, Drop)]
pub struct Lcr {
    pub pos: Pos,
    pub change: Change,
}

impl Lcr {
    /// An equal one, which owns memory of its own.
    pub fn copy(&self) -> Result<Lcr, NoMemory>
        ensures equal { IfOk result (λ lcr. lcr ≡ self.now) }
    {
        let change = self.change.copy()?;
        Ok(Lcr {
            pos: self.pos,
            change,
        })
    }
}
