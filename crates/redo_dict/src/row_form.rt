//! Which values fit a column, and which rows fit a table.
ghost use Rattle.std.specs.Prelude.{◌≡◌, ◌≤◌, length, slice_get};
ghost use Rattle.redo_spec.specs.ChangeForm.{fits, fits_at, is_of_kind, is_row_of};

use redo_vec::{Column, Kind};
use rl_value::Value;

// The value fits the column: it is Null where that may be, or of its type and no longer than its size.
fn value_fits(column: &Column, value: &Value) -> bool
    ensures { result ≡ fits column.now value.now }
{
    match value {
        Value::Null => column.nullable,
        Value::Number(_) => match column.kind {
            Kind::Number => true,
            Kind::Text(_) | Kind::Raw(_) => false,
        },
        Value::Text(text) => match column.kind {
            Kind::Text(size) => text.bytes().len() <= size as usize,
            Kind::Number | Kind::Raw(_) => false,
        },
        Value::Raw(raw) => match column.kind {
            Kind::Raw(size) => raw.bytes().len() <= size as usize,
            Kind::Number | Kind::Text(_) => false,
        },
    }
}

/// The value fits the column of this number, if there is one.
pub fn value_fits_at(columns: &[Column], column: u8, value: &Value) -> bool
    ensures { result ≡ fits_at (slice_get columns.now column) value.now }
{
    match columns.get(column as usize) {
        None => false,
        Some(found) => value_fits(found, value),
    }
}

/// There are as many values as columns, and each fits its column.
pub fn row_fits(columns: &[Column], values: &[Value]) -> bool
    ensures { result ≡ is_row_of columns.now values.now }
{
    let mut columns_left = columns;
    let mut values_left = values;
    while let [column, more_columns @ ..] = columns_left {
        let [value, more_values @ ..] = values_left else {
            return false;
        };
        if !value_fits(column, value) {
            return false;
        }
        columns_left = more_columns;
        values_left = more_values;
    }
    values_left.is_empty()
}
