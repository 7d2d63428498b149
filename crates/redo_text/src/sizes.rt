//! How many bytes a change vector is spelled in, so that a record is known to be too long before it is spelled.
ghost use Rattle.std.specs.Prelude.{◌≡◌, ◌≤◌, ◌+◌, length, IsTrue};
ghost use Rattle.std.specs.List.{flat_map};
ghost use Rattle.rl_value.specs.Text.{are_cells};
ghost use Rattle.redo_vec.specs.Forms.{is_key_columns};
ghost use Rattle.redo_vec.specs.Spelling.{value, cell, cells, change, name, column, key, keys, table, vector};

use redo_lines::few_columns;
use redo_vec::{Change, Column, KeyColumns, KeyLists, Line30, TableRow, Vector};
use rl_value::{Cells, Value};

fn value_size(item: &Value) -> usize
    ensures size { result ≡ length (value item.now) }
    ensures small { result ≤ 503 }
{
    match item {
        Value::Null => 1,
        Value::Number(_) => 9,
        Value::Text(text) => 3 + text.bytes().len(),
        Value::Raw(raw) => 3 + raw.bytes().len(),
    }
}

fn each_cell_size(items: &[(u8, Value)]) -> usize
    requires { length items.now ≤ 32 }
    ensures size { result ≡ length (flat_map cell items.now) }
    ensures small { result ≤ 16128 }
{
    let mut size = 0;
    for item in items {
        size = size + 1 + value_size(&item.1);
    }
    size
}

#[tactic(auto, using(crate::proofs::Forms::cells_few))]
fn few_cells(list: &Cells) -> &[(u8, Value)]
    ensures same { result.now ≡ list.now }
    ensures few { length result.now ≤ 32 }
{
    list.cells()
}

fn cells_size(list: &Cells) -> usize
    ensures size { result ≡ length (cells list.now) }
    ensures small { result ≤ 16129 }
{
    1 + each_cell_size(few_cells(list))
}

fn change_size(told: &Change) -> usize
    ensures size { result ≡ length (change told.now) }
    ensures small { result ≤ 32271 }
{
    13 + cells_size(&told.old) + cells_size(&told.new)
}

#[tactic(auto, using(crate::proofs::Forms::word_few))]
fn name_size(line: &Line30) -> usize
    ensures size { result ≡ length (name line.now) }
    ensures small { result ≤ 31 }
{
    1 + line.items().len()
}

fn column_size(told: &Column) -> usize
    ensures size { result ≡ length (column told.now) }
    ensures small { result ≤ 35 }
{
    name_size(&told.name) + 4
}

fn each_column_size(items: &[Column]) -> usize
    requires { length items.now ≤ 32 }
    ensures size { result ≡ length (flat_map column items.now) }
    ensures small { result ≤ 1120 }
{
    let mut size = 0;
    for item in items {
        size = size + column_size(item);
    }
    size
}

fn key_size(columns: &KeyColumns) -> usize
    ensures size { result ≡ length (key columns.now) }
    ensures small { result ≤ 33 }
{
    1 + columns.items().len()
}

fn each_key_size(items: &[KeyColumns]) -> usize
    requires { length items.now ≤ 4 }
    ensures size { result ≡ length (flat_map key items.now) }
    ensures small { result ≤ 132 }
{
    let mut size = 0;
    for item in items {
        size = size + key_size(item);
    }
    size
}

#[tactic(auto, using(crate::proofs::Forms::keys_few))]
fn few_keys(list: &KeyLists) -> &[KeyColumns]
    ensures same { result.now ≡ list.now }
    ensures few { length result.now ≤ 5 }
{
    list.items()
}

fn keys_size(list: &KeyLists) -> usize
    ensures size { result ≡ length (keys list.now) }
    ensures small { result ≤ 166 }
{
    match few_keys(list) {
        [] => 0,
        [primary, uniques @ ..] => key_size(primary) + 1 + each_key_size(uniques),
    }
}

fn table_size(told: &TableRow) -> usize
    ensures size { result ≡ length (table told.now) }
    ensures small { result ≤ 1349 }
{
    let names = name_size(&told.schema) + name_size(&told.name);
    names + 1 + each_column_size(few_columns(&told.columns)) + keys_size(&told.keys)
}

/// The bytes of a vector.
pub(crate) fn vector_size(told: &Vector) -> usize
    ensures size { result ≡ length (vector told.now) }
    ensures small { result ≤ 32271 }
{
    match told {
        Vector::Start(_) => 9,
        Vector::Change(told) => change_size(told),
        Vector::Undo(_) => 9,
        Vector::Commit(_) => 9,
        Vector::Rollback(_) => 9,
        Vector::Table(told) => 5 + table_size(told),
        Vector::DictEnd => 1,
    }
}
