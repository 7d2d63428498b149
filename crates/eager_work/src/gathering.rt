//! The writes of changes gathered: under each row key what was left there last.
ghost use Rattle.std.specs.Prelude.{◌≡◌, ◌<◌, [], IfOk, OnOk};
ghost use Rattle.std.specs.BTreeMap.{insert_entry};
ghost use Rattle.rl_value.specs.Order.{key_cmp};
ghost use Rattle.row_apply.specs.Kept.{ArePrimary};
ghost use Rattle.row_apply.specs.Overlaid.{written_key};
ghost use Rattle.row_apply.specs.Written.{writes_in, put_writes};
ghost use Rattle.eager_work.specs.Keeping.{writes_by, put_dids, put_parts};

use crate::did::Did;
use crate::left::Left;
use crate::part::Part;
use rl_value::{Key, NoMemory, Row};
use row_apply::{Write, Writes};
use std::alloc::Global;
use std::collections::BTreeMap;

fn copied_row(row: &Option<Row>) -> Result<Option<Row>, NoMemory>
    ensures { IfOk result (λ copy. copy ≡ row.now) }
{
    match row {
        None => Ok(None),
        Some(row) => Ok(Some(row.copy()?)),
    }
}

fn put_write(rows: &mut BTreeMap<Key, Option<Row>>, write: &Write) -> Result<(), NoMemory>
    ensures { OnOk result (rows.new.entries
        ≡ insert_entry key_cmp rows.old.entries (written_key write.now) write.now.row) }
{
    let values = write.key.copy()?;
    let row = copied_row(&write.row)?;
    let key = Key {
        table: write.table,
        index: 0,
        values,
    };
    match rows.insert(key, row) {
        Ok(_) => Ok(()),
        Err(_) => Err(NoMemory),
    }
}

fn put_writes(rows: &mut BTreeMap<Key, Option<Row>>, writes: &[Write]) -> Result<(), NoMemory>
    ensures { OnOk result (rows.new.entries ≡ put_writes rows.old.entries writes.now) }
{
    let mut rest = writes;
    while let [write, others @ ..] = rest {
        put_write(rows, write)?;
        rest = others;
    }
    Ok(())
}

fn put_wrote(rows: &mut BTreeMap<Key, Option<Row>>, wrote: &Option<Left>) -> Result<(), NoMemory>
    ensures { OnOk result (rows.new.entries ≡ put_writes rows.old.entries (writes_by wrote.now)) }
{
    match wrote {
        None => Ok(()),
        Some(left) => put_writes(rows, left.items()),
    }
}

fn put_dids(rows: &mut BTreeMap<Key, Option<Row>>, dids: &[Did]) -> Result<(), NoMemory>
    ensures { OnOk result (rows.new.entries ≡ put_dids rows.old.entries dids.now) }
{
    let mut rest = dids;
    while let [did, others @ ..] = rest {
        put_wrote(rows, &did.wrote)?;
        rest = others;
    }
    Ok(())
}

// Puts the writes of so many of the changes of these parts.
fn put_parts(
    rows: &mut BTreeMap<Key, Option<Row>>,
    parts: &[Part],
    standing: usize,
) -> Result<(), NoMemory>
    ensures { OnOk result (rows.new.entries ≡ put_parts rows.old.entries parts.now standing) }
{
    let mut left = standing;
    let mut rest = parts;
    while let [part, others @ ..] = rest {
        put_dids(rows, part.front(left))?;
        left = left.saturating_sub(part.len());
        rest = others;
    }
    Ok(())
}

fn moved_writes(alloc: Global, rows: BTreeMap<Key, Option<Row>>) -> Result<Vec<Write>, NoMemory>
    ensures { IfOk result (λ writes. writes.items ≡ writes_in rows.entries) }
{
    let Ok(mut writes) = Vec::with_capacity(alloc, rows.len()) else {
        return Err(NoMemory);
    };
    for (key, row) in rows {
        let write = Write {
            table: key.table,
            key: key.values,
            row,
        };
        if writes.push(write).is_err() {
            return Err(NoMemory);
        }
    }
    Ok(writes)
}

// A write for each row.
fn writes_of(alloc: Global, rows: BTreeMap<Key, Option<Row>>) -> Result<Writes, NoMemory>
    requires primary { ArePrimary rows.entries }
    ensures { IfOk result (λ writes. writes ≡ writes_in rows.entries) }
{
    // The keys of a map rise.
    let _few = rows.len();
    let items = moved_writes(alloc, rows)?;
    Ok(Writes::of(items))
}

/// The writes of so many of the changes of these parts, gathered.
pub(crate) fn gathered(alloc: Global, parts: &[Part], standing: usize) -> Result<Writes, NoMemory>
    ensures { IfOk result (λ writes. writes ≡ writes_in (put_parts [] parts.now standing)) }
{
    let mut rows = BTreeMap::new(alloc);
    put_parts(&mut rows, parts, standing)?;
    writes_of(alloc, rows)
}
