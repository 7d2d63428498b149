//! The values of a row in columns, as those of a key.

ghost use Rattle.std.specs.Prelude.{◌≡◌, ◌<◌, length, IfOk};
ghost use Rattle.std.specs.List.{list_any};
ghost use Rattle.redo_spec.specs.ConflictKeys.{is_null};
ghost use Rattle.redo_spec.specs.Dictionary.{uniques_of};
ghost use Rattle.redo_spec.specs.Tables.{value_in, values_at, primary_key};
ghost use Rattle.rl_value.specs.Order.{value_eq};
ghost use Rattle.row_apply.specs.Values.{has_at};

use redo_vec::{KeyColumns, TableRow};
use rl_value::{NoMemory, Row, Value};
use std::alloc::Global;

/// A copy of the value in a column; a row that lacks its table's last columns holds Null there.
pub fn value_in(row: &[Value], column: u8) -> Result<Value, NoMemory>
    ensures { IfOk result (λ value. value ≡ value_in row.now column) }
{
    match row.get(column as usize) {
        None => Ok(Value::Null),
        Some(value) => value.copy(),
    }
}

/// The value in this column is this one.
pub fn holds(row: &[Value], column: u8, value: &Value) -> bool
    ensures { result ≡ value_eq value.now (value_in row.now column) }
{
    match row.get(column as usize) {
        None => *value == Value::Null,
        Some(found) => value == found,
    }
}

/// The values in these columns are those.
pub fn has_values(row: &[Value], columns: &[u8], values: &[Value]) -> bool
    ensures { result ≡ has_at row.now columns.now values.now }
{
    let mut columns_left = columns;
    let mut values_left = values;
    while let [column, more_columns @ ..] = columns_left {
        let [value, more_values @ ..] = values_left else {
            return false;
        };
        if !holds(row, *column, value) {
            return false;
        }
        columns_left = more_columns;
        values_left = more_values;
    }
    values_left.is_empty()
}

fn is_null(value: &Value) -> bool
    ensures { result ≡ is_null value.now }
{
    match value {
        Value::Null => true,
        Value::Number(_) | Value::Text(_) | Value::Raw(_) => false,
    }
}

/// One of the values is Null.
pub fn has_null(values: &[Value]) -> bool
    ensures value { result ≡ list_any is_null values.now }
{
    values.iter().any(|value| is_null(value))
}

fn copied_at(alloc: Global, row: &[Value], columns: &[u8]) -> Result<Vec<Value>, NoMemory>
    ensures { IfOk result (λ values. values.items ≡ values_at row.now columns.now) }
{
    let Ok(mut values) = Vec::with_capacity(alloc, columns.len()) else {
        return Err(NoMemory);
    };
    for column in columns {
        let value = value_in(row, *column)?;
        if values.push(value).is_err() {
            return Err(NoMemory);
        }
    }
    Ok(values)
}

/// The values in the columns of a key.
#[tactic(auto, using(crate::proofs::Shapes::key_is_row))]
pub fn key_row(alloc: Global, row: &Row, columns: &KeyColumns) -> Result<Row, NoMemory>
    ensures value { IfOk result (λ key. key ≡ values_at row.now columns.now) }
{
    let values = copied_at(alloc, row.values(), columns.items())?;
    Ok(Row::of(values))
}

/// The primary key of a row of the table.
pub fn primary_key(alloc: Global, table: &TableRow, row: &Row) -> Result<Row, NoMemory>
    ensures { IfOk result (λ key. key ≡ primary_key table.now row.now) }
{
    match table.keys.items() {
        [] => unreachable!(),
        [primary, ..] => key_row(alloc, row, primary),
    }
}

/// The columns of each unique key of the table.
pub fn unique_keys(table: &TableRow) -> &[KeyColumns]
    ensures few { length result.now < 5 }
    ensures same { result.now ≡ uniques_of table.now }
{
    match table.keys.items() {
        [] => &[],
        [_, uniques @ ..] => uniques,
    }
}
