//! What was written to rows: for each row key the row as it is now, or that it is gone.

ghost use Rattle.std.specs.Prelude.{◌≡◌, ◌<◌, List, IsTrue, IfOk};
ghost use Rattle.row_apply.specs.Overlaid.{writes_rise};

use rl_value::{NoMemory, Row};
use std::marker::Model;

/// A row as it was left.
#[derive(Debug, Drop)]
pub struct Write {
    /// The table's id.
    pub table: u32,
    /// The row's primary key.
    pub key: Row,
    /// The row, or None where it is gone.
    pub row: Option<Row>,
}

impl Write {
    /// An equal one, which owns memory of its own.
    pub fn copy(&self) -> Result<Write, NoMemory>
        ensures equal { IfOk result (λ write. write ≡ self.now) }
    {
        let key = self.key.copy()?;
        match &self.row {
            None => Ok(Write {
                table: self.table,
                key,
                row: None,
            }),
            Some(row) => {
                let row = row.copy()?;
                Ok(Write {
                    table: self.table,
                    key,
                    row: Some(row),
                })
            }
        }
    }
}

/// A list of writes, one for each row key, in rising order of table and key.
#[derive(Debug, Drop)]
pub struct Writes {
    items: Vec<Write>,
}

impl Model for Writes {
    ghost use Rattle.std.specs.Prelude.{List, IsTrue};
    ghost use Rattle.row_apply.specs.declared.writes.Write.{Write as One};

    ghost Value = { List One };

    ghost use Rattle.row_apply.specs.Overlaid.{writes_rise};

    ghost view = { λ w. w.items.items };

    ghost invariant = { λ w. IsTrue (writes_rise w.items.items) };
}

impl Writes {
    /// The list of these writes. It may be empty.
    pub fn of(items: Vec<Write>) -> Writes
        requires rising { IsTrue (writes_rise items.items) }
        ensures same { result ≡ items.items }
    {
        Writes { items }
    }

    /// What it holds, in order.
    pub fn items(&self) -> &[Write]
        ensures rising { IsTrue (writes_rise self.now) }
        ensures same { result.now ≡ self.now }
    {
        self.items.as_slice()
    }

    /// Gives up what it holds, in order. It takes no memory.
    pub fn into_items(self) -> Vec<Write>
        ensures rising { IsTrue (writes_rise self) }
        ensures same { result.items ≡ self }
    {
        self.items
    }

    /// An equal one, which owns memory of its own.
    pub fn copy(&self) -> Result<Writes, NoMemory>
        ensures equal { IfOk result (λ writes. writes ≡ self.now) }
    {
        match copied(&self.items) {
            Ok(items) => Ok(Writes { items }),
            Err(NoMemory) => Err(NoMemory),
        }
    }
}

fn copied(items: &Vec<Write>) -> Result<Vec<Write>, NoMemory>
    ensures equal { IfOk result (λ copies. copies.items ≡ items.now.items) }
{
    let Ok(mut copies) = Vec::with_capacity(*items.allocator(), items.len()) else {
        return Err(NoMemory);
    };
    for write in items {
        let write = write.copy()?;
        if copies.push(write).is_err() {
            return Err(NoMemory);
        }
    }
    Ok(copies)
}
