//! Change vectors: what a redo record is made of, in the order in which they were done.
ghost use Rattle.std.specs.Prelude.{◌≡◌, ◌≤◌, length, IfOk};

use crate::change::Change;
use crate::table::TableRow;
use rl_value::{NoMemory, Xid};
use std::marker::Model;

/// `Undo` takes back the latest change of its transaction that still stands. `Table` and `DictEnd` are the
/// dictionary at the front of the redo.
#[derive(Debug, Drop)]
pub enum Vector {
    Start(Xid),
    Change(Change),
    Undo(Xid),
    Commit(Xid),
    Rollback(Xid),
    Table(TableRow),
    DictEnd,
}

impl Vector {
    /// An equal one, which owns memory of its own.
    pub fn copy(&self) -> Result<Vector, NoMemory>
        ensures equal { IfOk result (λ vector. vector ≡ self.now) }
    {
        match self {
            Vector::Start(xid) => Ok(Vector::Start(*xid)),
            Vector::Change(change) => Ok(Vector::Change(change.copy()?)),
            Vector::Undo(xid) => Ok(Vector::Undo(*xid)),
            Vector::Commit(xid) => Ok(Vector::Commit(*xid)),
            Vector::Rollback(xid) => Ok(Vector::Rollback(*xid)),
            Vector::Table(table) => Ok(Vector::Table(table.copy()?)),
            Vector::DictEnd => Ok(Vector::DictEnd),
        }
    }
}

/// A list of 1 to 255 vectors.
#[derive(Debug, Drop)]
pub struct Vectors {
    items: Vec<Vector>,
}

impl Model for Vectors {
    ghost use Rattle.std.specs.Prelude.{List, length, ◌≤◌};
    ghost use Rattle.redo_vec.specs.declared.vector.Vector.{Vector};

    ghost Value = { List Vector };

    ghost view = { λ v. v.items.items };

    ghost invariant = { λ v. (1 ≤ length v.items.items) × (length v.items.items ≤ 255) };
}

impl Vectors {
    /// Keeps these vectors. It takes no memory.
    pub fn of(items: Vec<Vector>) -> Vectors
        requires some { 1 ≤ length items.items }
        requires most { length items.items ≤ 255 }
        ensures same { result ≡ items.items }
    {
        Vectors { items }
    }

    /// What it holds, in order.
    pub fn items(&self) -> &[Vector]
        ensures some { 1 ≤ length self.now }
        ensures most { length self.now ≤ 255 }
        ensures same { result.now ≡ self.now }
    {
        self.items.as_slice()
    }

    /// Gives up what it holds, in order. It takes no memory.
    pub fn into_items(self) -> Vec<Vector>
        ensures some { 1 ≤ length self }
        ensures most { length self ≤ 255 }
        ensures same { result.items ≡ self }
    {
        self.items
    }

    /// An equal one, which owns memory of its own.
    pub fn copy(&self) -> Result<Vectors, NoMemory>
        ensures equal { IfOk result (λ vectors. vectors ≡ self.now) }
    {
        match copied(&self.items) {
            Ok(items) => Ok(Vectors { items }),
            Err(NoMemory) => Err(NoMemory),
        }
    }
}

fn copied(items: &Vec<Vector>) -> Result<Vec<Vector>, NoMemory>
    ensures { IfOk result (λ copies. copies.items ≡ items.now.items) }
{
    let Ok(mut copies) = Vec::with_capacity(*items.allocator(), items.len()) else {
        return Err(NoMemory);
    };
    for vector in items {
        let vector = vector.copy()?;
        if copies.push(vector).is_err() {
            return Err(NoMemory);
        }
    }
    Ok(copies)
}
