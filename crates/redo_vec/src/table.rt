//! A table as the dictionary of the redo defines it.
ghost use Rattle.std.specs.Prelude.{◌≡◌, IfOk};

use crate::columns::Columns;
use crate::keys::KeyLists;
use crate::line30::Line30;
use rl_value::NoMemory;

/// A table's definition. Nothing says yet that its key columns are columns of it.
#[derive(Debug, Drop)]
pub struct TableRow {
    pub id: u32,
    pub schema: Line30,
    pub name: Line30,
    pub columns: Columns,
    pub keys: KeyLists,
}

impl TableRow {
    /// An equal one, which owns memory of its own.
    pub fn copy(&self) -> Result<TableRow, NoMemory>
        ensures equal { IfOk result (λ table. table ≡ self.now) }
    {
        Ok(TableRow {
            id: self.id,
            schema: self.schema.copy()?,
            name: self.name.copy()?,
            columns: self.columns.copy()?,
            keys: self.keys.copy()?,
        })
    }
}
