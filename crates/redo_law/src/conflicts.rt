//! The primary and unique keys that a change touches, old and new, as far as its cells give them.
//!
//! They stand in the order in which the table's keys stand, the old ones first; one may stand twice. A unique key with a
//! Null in it is none.
ghost use Rattle.std.specs.Prelude.{◌≡◌, ◌++◌, ◌+◌, ◌≤◌, ◌<◌, [], ◌∷◌, IsTrue, OnOk, IfOk, length, map, Option, Some, None};
ghost use Rattle.std.specs.Option.{option_copied};
ghost use Rattle.std.specs.List.{list_any, flat_map, enumerate_from};
ghost use Rattle.rl_value.specs.Outcome.{all_of};
ghost use Rattle.redo_vec.specs.Forms.{is_key_columns};
ghost use Rattle.redo_spec.specs.ConflictKeys.{cell_of, key_if_whole, key_by_columns, keys_given, cells_after, conflict_keys, conflict_keys_in, is_null};
ghost use Rattle.redo_law.specs.Given.{one_or_none};

use redo_dict::Dict;
use redo_vec::{Change, KeyColumns, Op, TableRow};
use rl_value::{Key, NoMemory, Row, Value};
use std::alloc::Global;

// The value that the cells give for a column.
fn value_in<'c>(cells: &'c [(u8, Value)], column: u8) -> Option<&'c Value>
    ensures { option_copied result ≡ cell_of cells.now column }
{
    let mut rest = cells;
    while let [cell, others @ ..] = rest {
        if cell.0 == column {
            return Some(&cell.1);
        }
        rest = others;
    }
    None
}

// The value that the first cells give for a column, or else the second ones.
fn value_of<'c>(
    first: &'c [(u8, Value)],
    second: &'c [(u8, Value)],
    column: u8,
) -> Option<&'c Value>
    ensures { option_copied result ≡ cell_of (first.now ++ second.now) column }
{
    let Some(value) = value_in(first, column) else {
        return value_in(second, column);
    };
    Some(value)
}

// The values at these columns, where each is given.
fn values_of(
    alloc: Global,
    first: &[(u8, Value)],
    second: &[(u8, Value)],
    columns: &[u8],
) -> Result<Option<Row>, NoMemory>
    requires { IsTrue (is_key_columns columns.now) }
    ensures { IfOk result (λ values. values ≡ all_of (map (cell_of (first.now ++ second.now)) columns.now)) }
{
    let mut values = Vec::new(alloc);
    let mut rest = columns;
    while let [column, others @ ..] = rest {
        let Some(value) = value_of(first, second, *column) else {
            return Ok(None);
        };
        if values.push(value.copy()?).is_err() {
            return Err(NoMemory);
        }
        rest = others;
    }
    Ok(Some(Row::of(values)))
}

fn is_null_value(value: &Value) -> bool
    ensures { result ≡ is_null value.now }
{
    match value {
        Value::Null => true,
        Value::Number(_) | Value::Text(_) | Value::Raw(_) => false,
    }
}

fn has_null(values: &Row) -> bool
    ensures { result ≡ list_any is_null values.now }
{
    values.values().iter().any(is_null_value)
}

// The key of these values; a unique key with a Null in it is none.
fn key_if(table: u32, index: u8, values: Row) -> Option<Key>
    ensures { one_or_none result ≡ key_if_whole table index (Some values) }
{
    if index > 0 && has_null(&values) {
        return None;
    }
    Some(Key {
        table,
        index,
        values,
    })
}

fn key_given(
    alloc: Global,
    table: u32,
    index: u8,
    columns: &KeyColumns,
    first: &[(u8, Value)],
    second: &[(u8, Value)],
) -> Result<Option<Key>, NoMemory>
    ensures { IfOk result (λ key. one_or_none key ≡ key_by_columns table (cell_of (first.now ++ second.now))
        (index, columns.now)) }
{
    match values_of(alloc, first, second, columns.items())? {
        None => Ok(None),
        Some(values) => Ok(key_if(table, index, values)),
    }
}

fn push_if(keys: &mut Vec<Key>, key: Option<Key>) -> Result<(), NoMemory>
    ensures { OnOk result (keys.new.items ≡ keys.old.items ++ one_or_none key) }
{
    let Some(key) = key else {
        return Ok(());
    };
    match keys.push(key) {
        Ok(()) => Ok(()),
        Err(_) => Err(NoMemory),
    }
}

// Adds the keys of the table at which these cells give all values.
fn add_keys(
    alloc: Global,
    keys: &mut Vec<Key>,
    table: &TableRow,
    first: &[(u8, Value)],
    second: &[(u8, Value)],
) -> Result<(), NoMemory>
    ensures { OnOk result (keys.new.items ≡ keys.old.items ++ keys_given table.now (cell_of (first.now ++ second.now))) }
{
    let mut rest = table.keys.items();
    let mut index = 0;
    while let [columns, others @ ..] = rest {
        let key = key_given(alloc, table.id, index, columns, first, second)?;
        push_if(keys, key)?;
        index += 1;
        rest = others;
    }
    Ok(())
}

// Adds the keys that the row has after the change.
fn add_keys_after(
    alloc: Global,
    keys: &mut Vec<Key>,
    table: &TableRow,
    change: &Change,
) -> Result<(), NoMemory>
    ensures { OnOk result (keys.new.items ≡ keys.old.items ++ keys_given table.now (cell_of (cells_after change.now))) }
{
    let old = change.old.cells();
    let new = change.new.cells();
    match change.op {
        Op::Insert => add_keys(alloc, keys, table, new, &[]),
        Op::Update => add_keys(alloc, keys, table, new, old),
        Op::Delete => add_keys(alloc, keys, table, &[], &[]),
    }
}

/// The keys that the change touches, in the order of the table's keys, the old ones first.
pub fn conflicts(alloc: Global, dict: &Dict, change: &Change) -> Result<Vec<Key>, NoMemory>
    ensures { IfOk result (λ keys. keys.items ≡ conflict_keys dict.now.tables change.now) }
{
    let mut keys = Vec::new(alloc);
    let Some(table) = dict.def(change.table) else {
        return Ok(keys);
    };
    add_keys(alloc, &mut keys, table, change.old.cells(), &[])?;
    add_keys_after(alloc, &mut keys, table, change)?;
    Ok(keys)
}
