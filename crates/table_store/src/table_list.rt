//! The tables of a dictionary in rising order of their ids, each of which the lists before and behind may have too.
//!
//! Writes rise by their tables as well, so both are walked together: a table takes the first of the writes that are left.
ghost use Rattle.std.specs.Prelude.{◌≡◌, ◌+◌, ◌*◌, ◌≤◌, IfOk, IsTrue, length, nat_lt, nat_le, true, false, Some};
ghost use Rattle.std.specs.List.Sorted.{IsPartitionPoint};
ghost use Rattle.std.specs.Option.{option_copied};
ghost use Rattle.redo_spec.specs.Dictionary.{ids_rise};
ghost use Rattle.redo_spec.specs.Fold.{live_row_limit};
ghost use Rattle.redo_spec.specs.Tables.{definitions_of, empty_tables, row_count};
ghost use Rattle.row_apply.specs.Overlaid.{overlaid, writes_rise};
ghost use Rattle.row_apply.specs.Soundness.{AreSound};
ghost use Rattle.table_store.specs.Shared.{id_in, tables_in, found_in, if_of_id, writes_up_to, writes_past, overlaid_in_turn};

use crate::shared_table::{SharedTable, count_after, other_owner, share, write_table};
use crate::stored_table::StoredTable;
use redo_vec::TableRow;
use rl_value::NoMemory;
use row_apply::Write;
use std::alloc::Global;

/// The most rows that may be live.
const MAX_LIVE_ROWS: u64 = 1_048_576;

/// These tables, without rows.
pub(crate) fn without_rows(
    alloc: Global,
    definitions: &[TableRow],
) -> Result<Vec<SharedTable>, NoMemory>
    ensures empty { IfOk result (λ tables. tables_in tables.items ≡ empty_tables definitions.now) }
{
    let Ok(mut tables) = Vec::with_capacity(alloc, definitions.len()) else {
        return Err(NoMemory);
    };
    for definition in definitions {
        let table = StoredTable::new(alloc, definition.copy()?)?;
        let table = share(alloc, table)?;
        if tables.push(table).is_err() {
            return Err(NoMemory);
        }
    }
    Ok(tables)
}

/// The same tables in another list.
pub(crate) fn shared(alloc: Global, tables: &[SharedTable]) -> Result<Vec<SharedTable>, NoMemory>
    ensures same { IfOk result (λ copies. tables_in copies.items ≡ tables_in tables.now) }
{
    let Ok(mut copies) = Vec::with_capacity(alloc, tables.len()) else {
        return Err(NoMemory);
    };
    for shared in tables {
        let copy = other_owner(shared)?;
        if copies.push(copy).is_err() {
            return Err(NoMemory);
        }
    }
    Ok(copies)
}

fn is_below(shared: &SharedTable, id: u32) -> bool
    ensures exact { result ≡ nat_lt (id_in shared.now) id }
{
    shared.id < id
}

// The index of the first table whose id is not below this one, or the number of tables.
fn place_of(tables: &[SharedTable], id: u32) -> usize
    requires rising { IsTrue (ids_rise 0 (definitions_of (tables_in tables.now))) }
    ensures bound { result ≤ length tables.now }
    ensures between { IsPartitionPoint (λ s. nat_lt (id_in s) id ≡ true) (λ s. nat_lt (id_in s) id ≡ false) tables.now result }
{
    let mut low = 0;
    let mut high = tables.len();
    while low < high {
        let middle = low + (high - low) / 2;
        if is_below(&tables[middle], id) {
            low = middle + 1;
        } else {
            high = middle;
        }
    }
    low
}

fn table_if_of_id(shared: &SharedTable, id: u32) -> Option<&StoredTable>
    ensures exact { option_copied result ≡ if_of_id id (Some shared.now) }
{
    if shared.id == id {
        Some(&shared.table)
    } else {
        None
    }
}

/// The table of this id.
pub(crate) fn table_at(tables: &[SharedTable], id: u32) -> Option<&StoredTable>
    requires rising { IsTrue (ids_rise 0 (definitions_of (tables_in tables.now))) }
    ensures found { option_copied result ≡ found_in id (tables_in tables.now) }
{
    match tables.get(place_of(tables, id)) {
        Some(shared) => table_if_of_id(shared, id),
        None => None,
    }
}

/// How many rows the tables have together.
#[tactic(auto, using(crate::proofs::Counting::rows_counted))]
pub(crate) fn count_rows(tables: &[SharedTable]) -> u64
    requires few { row_count (tables_in tables.now) ≤ live_row_limit }
    ensures exact { result ≡ row_count (tables_in tables.now) }
{
    let mut count: u64 = 0;
    let mut rest = tables;
    while let [shared, others @ ..] = rest {
        count += shared.count;
        rest = others;
    }
    count
}

// One row more in each table for each write would not be too many.
fn has_room(count: u64, tables: usize, writes: usize) -> bool
    ensures room { IsTrue result → count + tables * writes ≤ live_row_limit }
{
    let Some(most) = (tables as u64).checked_mul(writes as u64) else {
        return false;
    };
    match count.checked_add(most) {
        None => false,
        Some(sum) => sum <= MAX_LIVE_ROWS,
    }
}

// The writes behind those of the tables up to this id.
fn writes_past(writes: &[Write], id: u32) -> &[Write]
    ensures exact { result.now ≡ writes_past id writes.now }
    ensures few { length result.now ≤ length writes.now }
{
    let mut rest = writes;
    while let [write, others @ ..] = rest {
        if write.table > id {
            return rest;
        }
        rest = others;
    }
    rest
}

// The first of the writes, which are of this table, and those of the tables behind it.
fn split<'a>(writes: &'a [Write], shared: &SharedTable) -> (&'a [Write], &'a [Write])
    requires writes_rise { IsTrue (writes_rise writes.now) }
    ensures own { result.0.now ≡ writes_up_to (id_in shared.now) writes.now }
    ensures others { result.1.now ≡ writes_past (id_in shared.now) writes.now }
    ensures own_rise { IsTrue (writes_rise result.0.now) }
    ensures others_rise { IsTrue (writes_rise result.1.now) }
{
    let others = writes_past(writes, shared.id);
    (&writes[..writes.len() - others.len()], others)
}

// Whether no more rows than may be live are there behind the writes, by a look at the rows that they write.
#[tactic(auto, using(crate::proofs::Counting::rows_counted))]
fn count_fits(tables: &[SharedTable], writes: &[Write]) -> bool
    requires writes_rise { IsTrue (writes_rise writes.now) }
    requires sound { AreSound (tables_in tables.now) }
    requires few { row_count (tables_in tables.now) ≤ live_row_limit }
    ensures exact { result ≡ nat_le (row_count (overlaid_in_turn (tables_in tables.now) writes.now)) live_row_limit }
{
    let mut count: u64 = 0;
    let mut writes_left = writes;
    let mut rest = tables;
    while let [shared, others @ ..] = rest {
        let (own, behind) = split(writes_left, shared);
        let after = count_after(shared, own);
        if after > MAX_LIVE_ROWS - count {
            return false;
        }
        count += after;
        writes_left = behind;
        rest = others;
    }
    true
}

/// Whether no more rows than may be live are there behind the writes, of so many before.
pub(crate) fn fits(count: u64, tables: &[SharedTable], writes: &[Write]) -> bool
    requires rising { IsTrue (ids_rise 0 (definitions_of (tables_in tables.now))) }
    requires writes_rise { IsTrue (writes_rise writes.now) }
    requires sound { AreSound (tables_in tables.now) }
    requires counted { count ≡ row_count (tables_in tables.now) }
    requires few { count ≤ live_row_limit }
    ensures exact { result ≡ nat_le (row_count (overlaid (tables_in tables.now) writes.now)) live_row_limit }
{
    if has_room(count, tables.len(), writes.len()) {
        return true;
    }
    count_fits(tables, writes)
}

// The tables and the writes are walked together: each table takes the first of the writes that are left.
fn write_in_turn(
    alloc: Global,
    tables: Vec<SharedTable>,
    writes: &[Write],
) -> Result<Vec<SharedTable>, NoMemory>
    requires writes_rise { IsTrue (writes_rise writes.now) }
    requires sound { AreSound (tables_in tables.items) }
    requires sound_then { AreSound (overlaid_in_turn (tables_in tables.items) writes.now) }
    ensures written { IfOk result (λ after. tables_in after.items ≡ overlaid_in_turn (tables_in tables.items) writes.now) }
{
    let Ok(mut done) = Vec::with_capacity(alloc, tables.len()) else {
        return Err(NoMemory);
    };
    let mut rest = writes;
    for shared in tables {
        let (own, others) = split(rest, &shared);
        let after = write_table(alloc, shared, own)?;
        if done.push(after).is_err() {
            return Err(NoMemory);
        }
        rest = others;
    }
    Ok(done)
}

/// The tables with the written rows in place of theirs. A table that no write is of stays shared.
pub(crate) fn write_tables(
    alloc: Global,
    tables: Vec<SharedTable>,
    writes: &[Write],
) -> Result<Vec<SharedTable>, NoMemory>
    requires rising { IsTrue (ids_rise 0 (definitions_of (tables_in tables.items))) }
    requires writes_rise { IsTrue (writes_rise writes.now) }
    requires sound { AreSound (tables_in tables.items) }
    requires sound_then { AreSound (overlaid (tables_in tables.items) writes.now) }
    ensures written { IfOk result (λ after. tables_in after.items ≡ overlaid (tables_in tables.items) writes.now) }
{
    write_in_turn(alloc, tables, writes)
}
