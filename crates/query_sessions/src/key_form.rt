//! Which values are a primary key of a table, and which queries its dictionary knows.
//!
//! `ask` answers any query; a statement that names no table or no key is refused by these tests before.
ghost use Rattle.std.specs.Prelude.{◌≡◌, slice_get};
ghost use Rattle.redo_spec.specs.ChangeForm.{fits, fits_at};
ghost use Rattle.redo_spec.specs.Dictionary.{primary_of};
ghost use Rattle.query_sessions.specs.KeyForm.{are_of_columns, is_key_of, is_form_of, may_be_asked};

use crate::query::{Form, Query};
use redo_dict::Dict;
use redo_vec::{Column, Kind, TableRow};
use rl_value::Value;

// It is Null where that may be, or of the column's type and no longer than its size.
fn value_fits(column: &Column, value: &Value) -> bool
    ensures { result ≡ fits column.now value.now }
{
    match value {
        Value::Null => column.nullable,
        Value::Number(_) => match column.kind {
            Kind::Number => true,
            Kind::Text(_) | Kind::Raw(_) => false,
        },
        Value::Text(text) => match column.kind {
            Kind::Text(size) => text.bytes().len() <= size as usize,
            Kind::Number | Kind::Raw(_) => false,
        },
        Value::Raw(raw) => match column.kind {
            Kind::Raw(size) => raw.bytes().len() <= size as usize,
            Kind::Number | Kind::Text(_) => false,
        },
    }
}

fn value_fits_at(columns: &[Column], column: u8, value: &Value) -> bool
    ensures { result ≡ fits_at (slice_get columns.now column) value.now }
{
    match columns.get(column as usize) {
        None => false,
        Some(found) => value_fits(found, value),
    }
}

// There is one value for each of these columns, and each fits its column.
fn are_of_columns(columns: &[Column], numbers: &[u8], values: &[Value]) -> bool
    ensures { result ≡ are_of_columns columns.now numbers.now values.now }
{
    let mut numbers_left = numbers;
    let mut values_left = values;
    while let [number, more_numbers @ ..] = numbers_left {
        let [value, more_values @ ..] = values_left else {
            return false;
        };
        if !value_fits_at(columns, *number, value) {
            return false;
        }
        numbers_left = more_numbers;
        values_left = more_values;
    }
    values_left.is_empty()
}

fn primary_of(table: &TableRow) -> &[u8]
    ensures { result.now ≡ primary_of table.now }
{
    match table.keys.items() {
        [] => &[],
        [primary, ..] => primary.items(),
    }
}

/// Whether there is one value for each column of the table's primary key, and each fits its column. There may be more values
/// than a row has. It takes no memory.
pub fn is_key_of(table: &TableRow, values: &[Value]) -> bool
    ensures exact { result ≡ is_key_of table.now values.now }
{
    are_of_columns(table.columns.items(), primary_of(table), values)
}

fn is_form_of(table: &TableRow, form: &Form) -> bool
    ensures { result ≡ is_form_of table.now form.now }
{
    match form {
        Form::All => true,
        Form::Count => true,
        Form::Key(key) => is_key_of(table, key.values()),
    }
}

/// Whether the query's table is in the dictionary, and a key that it asks for is one of this table. It takes no memory.
pub fn may_be_asked(dict: &Dict, query: &Query) -> bool
    ensures exact { result ≡ may_be_asked dict.now.tables query.now }
{
    match dict.def(query.table) {
        None => false,
        Some(table) => is_form_of(table, &query.form),
    }
}
