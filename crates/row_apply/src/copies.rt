//! What was written, copied: as slots of another overlay, or as writes.

ghost use Rattle.std.specs.Prelude.{◌≡◌, ◌<◌, IfOk, OnOk, []};
ghost use Rattle.std.specs.BTreeMap.{insert_entry};
ghost use Rattle.rl_value.specs.Order.{key_cmp};
ghost use Rattle.row_apply.specs.Overlaid.{written_key};
ghost use Rattle.row_apply.specs.Written.{writes_in, write_of, put_writes};

use crate::writes::Write;
use rl_value::{Key, NoMemory, Row};
use std::alloc::Global;
use std::collections::BTreeMap;

fn copied_slot(slot: &Option<Row>) -> Result<Option<Row>, NoMemory>
    ensures { IfOk result (λ copy. copy ≡ slot.now) }
{
    match slot {
        None => Ok(None),
        Some(row) => Ok(Some(row.copy()?)),
    }
}

fn copy_into(
    rows: &mut BTreeMap<Key, Option<Row>>,
    key: &Key,
    slot: &Option<Row>,
) -> Result<(), NoMemory>
    ensures { OnOk result (rows.new.entries ≡ insert_entry key_cmp rows.old.entries key.now slot.now) }
{
    let key = key.copy()?;
    let slot = copied_slot(slot)?;
    match rows.insert(key, slot) {
        Ok(_) => Ok(()),
        Err(_) => Err(NoMemory),
    }
}

/// The same rows under the same keys.
pub fn copied_rows(
    alloc: Global,
    rows: &BTreeMap<Key, Option<Row>>,
) -> Result<BTreeMap<Key, Option<Row>>, NoMemory>
    ensures { IfOk result (λ copies. copies.entries ≡ rows.now.entries) }
{
    let mut copies = BTreeMap::new(alloc);
    for (key, slot) in rows {
        copy_into(&mut copies, key, slot)?;
    }
    Ok(copies)
}

fn copied_write(key: &Key, slot: &Option<Row>) -> Result<Write, NoMemory>
    ensures { IfOk result (λ write. write ≡ write_of (key.now, slot.now)) }
{
    let row = copied_slot(slot)?;
    let values = key.values.copy()?;
    Ok(Write {
        table: key.table,
        key: values,
        row,
    })
}

/// A write for each row.
pub fn copied_writes(
    alloc: Global,
    rows: &BTreeMap<Key, Option<Row>>,
) -> Result<Vec<Write>, NoMemory>
    ensures { IfOk result (λ writes. writes.items ≡ writes_in rows.now.entries) }
{
    let Ok(mut writes) = Vec::with_capacity(alloc, rows.len()) else {
        return Err(NoMemory);
    };
    for (key, slot) in rows {
        let write = copied_write(key, slot)?;
        if writes.push(write).is_err() {
            return Err(NoMemory);
        }
    }
    Ok(writes)
}

/// A write for each row, which gives up the rows.
pub fn moved_writes(alloc: Global, rows: BTreeMap<Key, Option<Row>>) -> Result<Vec<Write>, NoMemory>
    ensures { IfOk result (λ writes. writes.items ≡ writes_in rows.entries) }
{
    let Ok(mut writes) = Vec::with_capacity(alloc, rows.len()) else {
        return Err(NoMemory);
    };
    for (key, row) in rows {
        let write = Write {
            table: key.table,
            key: key.values,
            row,
        };
        if writes.push(write).is_err() {
            return Err(NoMemory);
        }
    }
    Ok(writes)
}

fn put_write(rows: &mut BTreeMap<Key, Option<Row>>, write: &Write) -> Result<(), NoMemory>
    ensures { OnOk result (rows.new.entries ≡
        insert_entry key_cmp rows.old.entries (written_key write.now) write.now.row) }
{
    let values = write.key.copy()?;
    let slot = copied_slot(&write.row)?;
    let key = Key {
        table: write.table,
        index: 0,
        values,
    };
    match rows.insert(key, slot) {
        Ok(_) => Ok(()),
        Err(_) => Err(NoMemory),
    }
}

/// The rows of these writes, under their keys.
pub fn rows_of(alloc: Global, writes: &[Write]) -> Result<BTreeMap<Key, Option<Row>>, NoMemory>
    ensures { IfOk result (λ rows. rows.entries ≡ put_writes [] writes.now) }
{
    let mut rows = BTreeMap::new(alloc);
    let mut rest = writes;
    while let [write, others @ ..] = rest {
        put_write(&mut rows, write)?;
        rest = others;
    }
    Ok(rows)
}
