//! What a list of written rows says of one row: whether it is among them, and whether it fits its table.
ghost use Rattle.std.specs.Prelude.{◌≡◌, ◌≤◌, IfOk, IsTrue, length, true, false};
ghost use Rattle.std.specs.List.Sorted.{IsPartitionPoint};
ghost use Rattle.redo_spec.specs.Dictionary.{table_of};
ghost use Rattle.redo_spec.specs.Tables.{primary_key as key_of_row};
ghost use Rattle.row_apply.specs.Overlaid.{writes_rise};
ghost use Rattle.standby_spec.specs.Writable as writable;
ghost use Rattle.constraint_check.specs.LookUps.{is_written, is_before, same_row, all_fit};

use redo_dict::Dict;
use redo_vec::TableRow;
use rl_value::{NoMemory, Row};
use row_apply::{Write, key_row};
use std::alloc::Global;
use std::cmp::Ordering;

fn is_before(write: &Write, table: u32, key: &Row) -> bool
    ensures exact { result ≡ is_before table key.now write.now }
{
    match write.table.cmp(&table) {
        Ordering::Less => true,
        Ordering::Equal => write.key.cmp(key) == Ordering::Less,
        Ordering::Greater => false,
    }
}

// How many of the writes come before the row of this key.
fn place_of(writes: &[Write], table: u32, key: &Row) -> usize
    requires rising { IsTrue (writes_rise writes.now) }
    ensures within { result ≤ length writes.now }
    ensures between { IsPartitionPoint (λ w. is_before table key.now w ≡ true) (λ w. is_before table key.now w ≡ false)
        writes.now result }
{
    writes.partition_point(|write| is_before(write, table, key))
}

fn is_of(write: &Write, table: u32, key: &Row) -> bool
    ensures exact { result ≡ same_row table key.now write.now }
{
    write.table == table && write.key == *key
}

/// The row of this key is among those that are written. It takes logarithmic time.
pub(crate) fn is_written(writes: &[Write], table: u32, key: &Row) -> bool
    requires rising { IsTrue (writes_rise writes.now) }
    ensures exact { result ≡ is_written writes.now table key.now }
{
    match writes.get(place_of(writes, table, key)) {
        None => false,
        Some(write) => is_of(write, table, key),
    }
}

fn primary_key(alloc: Global, table: &TableRow, row: &Row) -> Result<Row, NoMemory>
    ensures key { IfOk result (λ key. key ≡ key_of_row table.now row.now) }
{
    match table.keys.items() {
        [] => unreachable!(),
        [primary, ..] => key_row(alloc, row, primary),
    }
}

// The row fits its table and stands under its own primary key.
fn row_fits(alloc: Global, dict: &Dict, write: &Write) -> Result<bool, NoMemory>
    ensures exact { IfOk result (λ fits. fits ≡
        writable.row_fits (table_of dict.now.tables write.now.table) write.now.key write.now.row) }
{
    let Some(table) = dict.def(write.table) else {
        return Ok(false);
    };
    let Some(row) = &write.row else {
        return Ok(true);
    };
    if !dict.check_row(write.table, row) {
        return Ok(false);
    }
    let key = primary_key(alloc, table, row)?;
    Ok(key == write.key)
}

/// Each row that is written does.
pub(crate) fn all_fit(alloc: Global, dict: &Dict, writes: &[Write]) -> Result<bool, NoMemory>
    ensures exact { IfOk result (λ fit. fit ≡ all_fit dict.now.tables writes.now) }
{
    let mut rest = writes;
    while let [write, others @ ..] = rest {
        if !row_fits(alloc, dict, write)? {
            return Ok(false);
        }
        rest = others;
    }
    Ok(true)
}
