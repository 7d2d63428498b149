//! Written rows are put in, unless too many would be live then.
//!
//! How many rows there will be is counted before anything is written, by a look at each written row's place; so a commit
//! costs its own writes alone, however many rows there are.
ghost use Rattle.std.specs.Prelude.{◌≡◌, ◌+◌, ◌<◌, ◌&&◌, not, nat_lt, IfOk, OnOk, IsTrue, if◌then◌else◌, cond, is_some};
ghost use Rattle.redo_spec.specs.Tables.{assembled, row_count};
ghost use Rattle.redo_spec.specs.Fold.{live_row_limit};
ghost use Rattle.rl_value.specs.declared.key.Key.{Key};
ghost use Rattle.row_apply.specs.Overlaid.{overlaid, are_of, writes_rise};
ghost use Rattle.row_apply.specs.Soundness.{AreSound};
ghost use Rattle.plain_store.specs.ById.{rows_after_writes, is_added, is_removed, added_count, removed_count};
ghost use Rattle.plain_store.specs.Unique.{lead_of, lead_after_write, IsIndexed};

use crate::plain_tables::PlainTables;
use crate::unique_index::UniqueIndex;
use redo_dict::Dict;
use redo_vec::TableRow;
use rl_value::NoMemory;
use row_apply::{Write, Writes};

/// The most rows that may be live.
const MAX_LIVE_ROWS: u64 = 1_048_576;

fn plus(count: u64, more: u64) -> Result<u64, NoMemory>
    ensures sum { IfOk result (λ sum. sum ≡ count + more) }
{
    match count.checked_add(more) {
        // No store has 2^64 rows; the answer without a cause stands for it.
        None => Err(NoMemory),
        Some(sum) => Ok(sum),
    }
}

/// How many rows there are in these tables.
#[tactic(auto, using(crate::proofs::TableLaws::rows_counted))]
pub fn count_rows(dict: &Dict, tables: &PlainTables) -> Result<u64, NoMemory>
    ensures exact { IfOk result (λ count. count ≡ row_count (assembled dict.now.tables tables.now)) }
{
    let mut count: u64 = 0;
    let mut rest = dict.tables();
    while let [table, more @ ..] = rest {
        count = plus(count, tables.count(table.id) as u64)?;
        rest = more;
    }
    Ok(count)
}

// 1 where the write puts a row where none is.
fn one_added(tables: &PlainTables, write: &Write) -> u64
    ensures exact { result ≡ cond (is_added tables.now write.now) 1 0 }
{
    if write.row.is_some() && tables.get(write.table, &write.key).is_none() {
        return 1;
    }
    0
}

// 1 where the write takes a row away.
fn one_removed(tables: &PlainTables, write: &Write) -> u64
    ensures exact { result ≡ cond (is_removed tables.now write.now) 1 0 }
{
    if write.row.is_none() && tables.get(write.table, &write.key).is_some() {
        return 1;
    }
    0
}

// So many rows, and those that the writes put where none is.
fn count_added(tables: &PlainTables, count: u64, writes: &[Write]) -> Result<u64, NoMemory>
    ensures sum { IfOk result (λ more. more ≡ count + added_count tables.now writes.now) }
{
    let mut more = count;
    let mut rest = writes;
    while let [write, others @ ..] = rest {
        more = plus(more, one_added(tables, write))?;
        rest = others;
    }
    Ok(more)
}

fn count_removed(tables: &PlainTables, writes: &[Write]) -> Result<u64, NoMemory>
    ensures exact { IfOk result (λ fewer. fewer ≡ removed_count tables.now writes.now) }
{
    let mut fewer = 0;
    let mut rest = writes;
    while let [write, others @ ..] = rest {
        fewer = plus(fewer, one_removed(tables, write))?;
        rest = others;
    }
    Ok(fewer)
}

// How many rows there are after the writes, of so many before.
fn count_after(
    dict: &Dict,
    tables: &PlainTables,
    count: u64,
    writes: &[Write],
) -> Result<u64, NoMemory>
    requires counted { count ≡ row_count (assembled dict.now.tables tables.now) }
    requires sound { AreSound (assembled dict.now.tables tables.now) }
    requires of_tables { IsTrue (are_of dict.now.tables writes.now) }
    requires rising { IsTrue (writes_rise writes.now) }
    ensures exact { IfOk result (λ after. after ≡ row_count (overlaid (assembled dict.now.tables tables.now) writes.now)) }
{
    // The tables differ from one another, so that each write counts once.
    let _ = dict.tables();
    let more = count_added(tables, count, writes)?;
    let fewer = count_removed(tables, writes)?;
    Ok(more - fewer)
}

fn index_write(
    dict: &Dict,
    tables: &PlainTables,
    index: &mut UniqueIndex,
    write: &Write,
) -> Result<(), NoMemory>
    ensures indexed { OnOk result ((q : Key) → lead_of index.new q ≡
        lead_after_write dict.now.tables tables.now write.now q (lead_of index.old q)) }
{
    match dict.def(write.table) {
        None => Ok(()),
        Some(table) => {
            let was = tables.get(write.table, &write.key);
            index.rewrite(table, &write.key, was, &write.row)
        }
    }
}

fn write_all(
    dict: &Dict,
    tables: &mut PlainTables,
    index: &mut UniqueIndex,
    writes: Writes,
) -> Result<(), NoMemory>
    requires sound { AreSound (assembled dict.now.tables (rows_after_writes tables.old writes)) }
    requires indexed { IsIndexed dict.now.tables tables.old index.old }
    ensures written { OnOk result (tables.new ≡ rows_after_writes tables.old writes) }
    ensures indexed { OnOk result (IsIndexed dict.now.tables tables.new index.new) }
{
    for write in writes.into_items() {
        index_write(dict, tables, index, &write)?;
        tables.write(write)?;
    }
    Ok(())
}

/// Puts the rows that a commit has written in and answers true; or none of them and answers false, where more than 1,048,576
/// rows would be live then. Index and count are those of the rows then. Where there is no memory, some rows may be written and
/// the rest not, and nothing is said of index and count any more.
pub fn put_in(
    dict: &Dict,
    tables: &mut PlainTables,
    index: &mut UniqueIndex,
    count: &mut u64,
    writes: Writes,
) -> Result<bool, NoMemory>
    requires counted { count.old ≡ row_count (assembled dict.now.tables tables.old) }
    requires indexed { IsIndexed dict.now.tables tables.old index.old }
    requires sound { AreSound (assembled dict.now.tables tables.old) }
    requires sound_then { AreSound (overlaid (assembled dict.now.tables tables.old) writes) }
    requires of_tables { IsTrue (are_of dict.now.tables writes) }
    ensures few { IfOk result (λ put. put ≡ not (nat_lt live_row_limit
        (row_count (overlaid (assembled dict.now.tables tables.old) writes)))) }
    ensures written { IfOk result (λ put. assembled dict.now.tables tables.new
        ≡ (if put then overlaid (assembled dict.now.tables tables.old) writes else assembled dict.now.tables tables.old)) }
    ensures indexed { OnOk result (IsIndexed dict.now.tables tables.new index.new) }
    ensures counted { OnOk result (count.new ≡ row_count (assembled dict.now.tables tables.new)) }
{
    let after = count_after(dict, tables, *count, writes.items())?;
    if after > MAX_LIVE_ROWS {
        return Ok(false);
    }
    write_all(dict, tables, index, writes)?;
    *count = after;
    Ok(true)
}
