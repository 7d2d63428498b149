//! Changes of rows as the redo tells them: columns with their old and new values, and no place of a row.
ghost use Rattle.std.specs.Prelude.{◌≡◌, IfOk};

use rl_value::{Cells, NoMemory, Xid};

/// What a change does to its row.
#[derive(Clone, Copy, Debug, PartialEq, Eq)]
pub enum Op {
    Insert,
    Update,
    Delete,
}

/// What a transaction did to one row: the cells that tell the row before, and those that it has after.
#[derive(Debug, Drop)]
pub struct Change {
    pub xid: Xid,
    pub op: Op,
    /// The table's id in the dictionary of the redo.
    pub table: u32,
    pub old: Cells,
    pub new: Cells,
}

impl Change {
    /// An equal one, which owns memory of its own.
    pub fn copy(&self) -> Result<Change, NoMemory>
        ensures equal { IfOk result (λ change. change ≡ self.now) }
    {
        Ok(Change {
            xid: self.xid,
            op: self.op,
            table: self.table,
            old: self.old.copy()?,
            new: self.new.copy()?,
        })
    }
}
