//! What one change left at the rows that it touched.
ghost use Rattle.std.specs.Prelude.{◌≡◌, ◌++◌, IfOk, OnOk};
ghost use Rattle.row_apply.specs.Overlaid.{written_at};
ghost use Rattle.eager_work.specs.Trying.{write_if, found_at, found_all};

use rl_value::{Key, NoMemory, Row};
use row_apply::{Overlay, Write};
use std::alloc::Global;
use std::marker::Model;

/// A write for each row that a change touched.
#[derive(Drop)]
pub(crate) struct Left {
    writes: Vec<Write>,
}

impl Model for Left {
    ghost use Rattle.std.specs.Prelude.{List};
    ghost use Rattle.row_apply.specs.declared.writes.Write.{Write};

    ghost Value = { List Write };

    ghost view = { λ l. l.writes.items };
}

impl Left {
    pub(crate) fn of(writes: Vec<Write>) -> Left
        ensures same { result ≡ writes.items }
    {
        Left { writes }
    }

    pub(crate) fn items(&self) -> &[Write]
        ensures same { result.now ≡ self.now }
    {
        self.writes.as_slice()
    }

    /// An equal one, which owns memory of its own.
    pub(crate) fn copy(&self) -> Result<Left, NoMemory>
        ensures equal { IfOk result (λ left. left ≡ self.now) }
    {
        match copied(&self.writes) {
            Ok(writes) => Ok(Left { writes }),
            Err(NoMemory) => Err(NoMemory),
        }
    }
}

fn copied(writes: &Vec<Write>) -> Result<Vec<Write>, NoMemory>
    ensures equal { IfOk result (λ copies. copies.items ≡ writes.now.items) }
{
    let Ok(mut copies) = Vec::with_capacity(*writes.allocator(), writes.len()) else {
        return Err(NoMemory);
    };
    for write in writes {
        let write = write.copy()?;
        if copies.push(write).is_err() {
            return Err(NoMemory);
        }
    }
    Ok(copies)
}

fn copied_row(row: &Option<Row>) -> Result<Option<Row>, NoMemory>
    ensures { IfOk result (λ copy. copy ≡ row.now) }
{
    match row {
        None => Ok(None),
        Some(row) => Ok(Some(row.copy()?)),
    }
}

fn push_slot(writes: &mut Vec<Write>, key: &Key, slot: &Option<Row>) -> Result<(), NoMemory>
    ensures { OnOk result (writes.new.items ≡ writes.old.items ++ write_if key.now (Some slot.now)) }
{
    let row = copied_row(slot)?;
    let values = key.values.copy()?;
    let write = Write {
        table: key.table,
        key: values,
        row,
    };
    match writes.push(write) {
        Ok(()) => Ok(()),
        Err(_) => Err(NoMemory),
    }
}

fn push_found(writes: &mut Vec<Write>, over: &Overlay, key: &Key) -> Result<(), NoMemory>
    ensures { OnOk result (writes.new.items ≡ writes.old.items ++ found_at over.now key.now) }
{
    if key.index != 0 {
        return Ok(());
    }
    match over.find(key) {
        None => Ok(()),
        Some(slot) => push_slot(writes, key, slot),
    }
}

/// What was left under those of the keys that are row keys, in their order.
pub(crate) fn left_at(alloc: Global, over: &Overlay, keys: &[Key]) -> Result<Left, NoMemory>
    ensures { IfOk result (λ left. left ≡ found_all over.now keys.now) }
{
    let mut writes = Vec::new(alloc);
    let mut rest = keys;
    while let [key, others @ ..] = rest {
        push_found(&mut writes, over, key)?;
        rest = others;
    }
    Ok(Left::of(writes))
}

/// The same, if there is one.
pub(crate) fn copied_left(left: &Option<Left>) -> Result<Option<Left>, NoMemory>
    ensures equal { IfOk result (λ copy. copy ≡ left.now) }
{
    match left {
        None => Ok(None),
        Some(left) => Ok(Some(left.copy()?)),
    }
}
