//! The change that met a conflict, and those that wait behind it.
//!
//! A conflict is told only once its transaction is the next to be published: an UNDO or a ROLLBACK may come before.
ghost use Rattle.std.specs.Prelude.{◌≡◌, IfOk};

use rl_value::{Miss, NoMemory, Pos};

/// A change that did not find the rows that it was made on.
#[derive(Drop)]
pub(crate) struct Conflict {
    pub(crate) pos: Pos,
    pub(crate) table: u32,
    pub(crate) n: u64,
    pub(crate) miss: Miss,
}

impl Conflict {
    /// An equal one, which owns memory of its own.
    pub(crate) fn copy(&self) -> Result<Conflict, NoMemory>
        ensures equal { IfOk result (λ conflict. conflict ≡ self.now) }
    {
        let miss = self.miss.copy()?;
        Ok(Conflict {
            pos: self.pos,
            table: self.table,
            n: self.n,
            miss,
        })
    }
}

/// A change behind a conflict, which is not tried.
#[derive(Clone, Copy)]
pub(crate) struct Waiting {
    pub(crate) pos: Pos,
    pub(crate) table: u32,
    pub(crate) n: u64,
}

/// The same conflict, if there is one.
pub(crate) fn copied_conflict(conflict: &Option<Conflict>) -> Result<Option<Conflict>, NoMemory>
    ensures equal { IfOk result (λ copy. copy ≡ conflict.now) }
{
    match conflict {
        None => Ok(None),
        Some(conflict) => Ok(Some(conflict.copy()?)),
    }
}

/// The same changes.
pub(crate) fn copied_waiting(waiting: &Vec<Waiting>) -> Result<Vec<Waiting>, NoMemory>
    ensures equal { IfOk result (λ copies. copies.items ≡ waiting.now.items) }
{
    let Ok(mut copies) = Vec::with_capacity(*waiting.allocator(), waiting.len()) else {
        return Err(NoMemory);
    };
    for change in waiting {
        if copies.push(*change).is_err() {
            return Err(NoMemory);
        }
    }
    Ok(copies)
}
