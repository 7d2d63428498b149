//! Which changes a table accepts: its cells, the types of their values, and what an UPDATE logs of the row.
ghost use Rattle.std.specs.Prelude.{◌≡◌, ◌≤◌, ◌+◌, length, slice_get, nat_le, not, ◌||◌, ◌&&◌, filter, Option, Some, None};
ghost use Rattle.std.specs.List.{list_any, list_all};
ghost use Rattle.redo_spec.specs.Dictionary.{primary_of, uniques_of, column_numbers, numbers_from};
ghost use Rattle.redo_spec.specs.ChangeForm.{change_fault_in, has_column, has_cell, beyond, wrong_cells, cells_fit, is_supplemental, wrong_supplement, fits_at, columns_of};
ghost use Rattle.rl_value.specs.Order.{same_bytes};
ghost use Rattle.redo_dict.specs.Refusals.{Accepts};

use crate::fault::ChangeFault;
use crate::row_form::value_fits_at;
use crate::table_form::primary_key_of;
use redo_vec::{Change, Column, KeyColumns, Op, TableRow};
use rl_value::Value;

fn has_column_of(columns: &[u8], column: u8) -> bool
    ensures { result ≡ has_column columns.now column }
{
    columns.iter().any(|other| *other == column)
}

fn has_cell_of(cells: &[(u8, Value)], column: u8) -> bool
    ensures { result ≡ has_cell cells.now column }
{
    cells.iter().any(|cell| cell.0 == column)
}

// A cell is of a column that the table has not.
fn is_beyond(columns: &[Column], cells: &[(u8, Value)]) -> bool
    ensures { result ≡ list_any (λ cell. nat_le (length columns.now) cell.0) cells.now }
{
    cells.iter().any(|cell| columns.len() <= cell.0 as usize)
}

// The cells are not those that this kind of change wants.
fn are_wrong_cells(table: &TableRow, op: Op, old: &[(u8, Value)], new: &[(u8, Value)]) -> bool
    ensures { result ≡ wrong_cells table.now op old.now new.now }
{
    let count = table.columns.items().len();
    match op {
        Op::Insert => !(old.is_empty() && new.len() == count),
        Op::Update => new.is_empty(),
        Op::Delete => !(new.is_empty() && old.len() == count),
    }
}

fn cell_fits(columns: &[Column], cell: &(u8, Value)) -> bool
    ensures { result ≡ fits_at (slice_get columns.now cell.now.0) cell.now.1 }
{
    value_fits_at(columns, cell.0, &cell.1)
}

fn do_cells_fit(columns: &[Column], cells: &[(u8, Value)]) -> bool
    ensures { result ≡ list_all (λ cell. fits_at (slice_get columns.now cell.0) cell.1) cells.now }
{
    cells.iter().all(|cell| cell_fits(columns, cell))
}

fn sets_one_of(key: &[u8], new: &[(u8, Value)]) -> bool
    ensures { result ≡ list_any (has_cell new.now) key.now }
{
    key.iter().any(|column| has_cell_of(new, *column))
}

fn is_set_key_with(key: &KeyColumns, new: &[(u8, Value)], column: u8) -> bool
    ensures { result ≡ (has_column key.now column && list_any (has_cell new.now) key.now) }
{
    has_column_of(key.items(), column) && sets_one_of(key.items(), new)
}

// The columns of each unique key.
fn unique_keys_of(table: &TableRow) -> &[KeyColumns]
    ensures { result.now ≡ uniques_of table.now }
{
    match table.keys.items() {
        [] => &[],
        [_, uniques @ ..] => uniques,
    }
}

fn is_in_set_key(keys: &[KeyColumns], new: &[(u8, Value)], column: u8) -> bool
    ensures { result ≡ list_any (λ key. has_column key column && list_any (has_cell new.now) key) keys.now }
{
    keys.iter().any(|key| is_set_key_with(key, new, column))
}

// The old value of the column is logged where these cells are set.
fn is_logged(table: &TableRow, new: &[(u8, Value)], column: u8) -> bool
    ensures { result ≡ is_supplemental table.now new.now column }
{
    has_column_of(primary_key_of(table), column)
        || has_cell_of(new, column)
        || is_in_set_key(unique_keys_of(table), new, column)
}

// The old columns are exactly those that have to be logged.
fn logs_enough(table: &TableRow, old: &[(u8, Value)], new: &[(u8, Value)]) -> bool
    ensures { result ≡ same_bytes (columns_of old.now) (filter (is_supplemental table.now new.now) (column_numbers table.now)) }
{
    let mut columns = table.columns.items();
    let mut column = 0;
    let mut rest = old;
    while let [_, more @ ..] = columns {
        if is_logged(table, new, column) {
            let [(found, _), others @ ..] = rest else {
                return false;
            };
            if *found != column {
                return false;
            }
            rest = others;
        }
        columns = more;
        column += 1;
    }
    rest.is_empty()
}

fn is_wrong_supplement(table: &TableRow, op: Op, old: &[(u8, Value)], new: &[(u8, Value)]) -> bool
    ensures { result ≡ wrong_supplement table.now op old.now new.now }
{
    match op {
        Op::Update => !logs_enough(table, old, new),
        Op::Insert | Op::Delete => false,
    }
}

/// Whether the table accepts the change; else the first reason. It takes no memory.
pub fn check_in(table: &TableRow, change: &Change) -> Result<(), ChangeFault>
    ensures { Accepts (change_fault_in table.now change.now) result }
{
    let columns = table.columns.items();
    let old = change.old.cells();
    let new = change.new.cells();
    if is_beyond(columns, old)
        || is_beyond(columns, new)
        || are_wrong_cells(table, change.op, old, new)
    {
        return Err(ChangeFault::Columns);
    }
    if !(do_cells_fit(columns, old) && do_cells_fit(columns, new)) {
        return Err(ChangeFault::Types);
    }
    if is_wrong_supplement(table, change.op, old, new) {
        return Err(ChangeFault::Supplement);
    }
    Ok(())
}
