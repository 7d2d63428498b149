//! Columns of a table: name, type and whether Null may stand in it.
ghost use Rattle.std.specs.Prelude.{◌≡◌, IsTrue, IfOk};
ghost use Rattle.redo_vec.specs.Columns.{are_columns};

use crate::line30::Line30;
use rl_value::NoMemory;
use std::marker::Model;

/// The type of a column. A text or a raw value may have up to this many bytes, 1 to 500.
#[derive(Clone, Copy, Debug, PartialEq, Eq)]
pub enum Kind {
    Number,
    Text(u16),
    Raw(u16),
}

/// A column of a table: its name, the type of its values, and whether they may be Null.
#[derive(Debug, Drop)]
pub struct Column {
    pub name: Line30,
    pub kind: Kind,
    pub nullable: bool,
}

impl Column {
    /// An equal one, which owns memory of its own.
    pub fn copy(&self) -> Result<Column, NoMemory>
        ensures equal { IfOk result (λ column. column ≡ self.now) }
    {
        Ok(Column {
            name: self.name.copy()?,
            kind: self.kind,
            nullable: self.nullable,
        })
    }
}

/// A list of 1 to 32 columns, in the order of their numbers from 0. The size of each text or raw is 1 to 500.
#[derive(Debug, Drop)]
pub struct Columns {
    items: Vec<Column>,
}

impl Model for Columns {
    ghost use Rattle.std.specs.Prelude.{List, IsTrue};
    ghost use Rattle.redo_vec.specs.declared.columns.Column.{Column};

    ghost Value = { List Column };

    ghost use Rattle.redo_vec.specs.Columns.{are_columns};

    ghost view = { λ c. c.items.items };

    ghost invariant = { λ c. IsTrue (are_columns c.items.items) };
}

impl Columns {
    /// Keeps these columns. It takes no memory.
    pub fn of(items: Vec<Column>) -> Columns
        requires form { IsTrue (are_columns items.items) }
        ensures same { result ≡ items.items }
    {
        Columns { items }
    }

    /// What it holds, in order.
    pub fn items(&self) -> &[Column]
        ensures form { IsTrue (are_columns self.now) }
        ensures same { result.now ≡ self.now }
    {
        self.items.as_slice()
    }

    /// Gives up what it holds, in order. It takes no memory.
    pub fn into_items(self) -> Vec<Column>
        ensures form { IsTrue (are_columns self) }
        ensures same { result.items ≡ self }
    {
        self.items
    }

    /// An equal one, which owns memory of its own.
    pub fn copy(&self) -> Result<Columns, NoMemory>
        ensures equal { IfOk result (λ columns. columns ≡ self.now) }
    {
        match copied(&self.items) {
            Ok(items) => Ok(Columns { items }),
            Err(NoMemory) => Err(NoMemory),
        }
    }
}

fn copied(items: &Vec<Column>) -> Result<Vec<Column>, NoMemory>
    ensures { IfOk result (λ copies. copies.items ≡ items.now.items) }
{
    let Ok(mut copies) = Vec::with_capacity(*items.allocator(), items.len()) else {
        return Err(NoMemory);
    };
    for column in items {
        let column = column.copy()?;
        if copies.push(column).is_err() {
            return Err(NoMemory);
        }
    }
    Ok(copies)
}
