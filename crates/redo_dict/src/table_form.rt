//! Which further table a dictionary takes: the tests of its names, its keys and its widths, in their order.
ghost use Rattle.std.specs.Prelude.{◌≡◌, ◌≢◌, ◌≤◌, IfSome, ◌+◌, ◌*◌, ◌<◌, length, sum_by, slice_get, Option, Some, None, nat_lt, ◌&&◌, false};
ghost use Rattle.std.specs.List.{list_any, list_all};
ghost use Rattle.rl_value.specs.Text.{is_name};
ghost use Rattle.rl_value.specs.Order.{same_bytes};
ghost use Rattle.redo_spec.specs.Dictionary.{table_fault, same_table, has_bad_names, has_bad_keys, is_too_wide, widest, widest_of, widest_row, widest_key, is_nullable, names_stand_twice, stands_twice, primary_of, first_of};
ghost use Rattle.redo_dict.specs.Refusals.{IsTableRefusal};

use crate::fault::DictFault;
use redo_vec::{Column, KeyColumns, Kind, Line30, TableRow};
use rl_value::Name;

/// The most tables of a dictionary.
pub const MAX_TABLES: usize = 256;
/// The most bytes of a row of the widest values.
pub const MAX_ROW: u32 = 1024;
/// The most bytes of a key of the widest values.
pub const MAX_KEY: u32 = 128;

/// The bytes are equal.
pub fn same(bytes: &[u8], other: &[u8]) -> bool
    ensures { result ≡ same_bytes bytes.now other.now }
{
    bytes == other
}

fn is_name_of(word: &Line30) -> bool
    ensures { result ≡ is_name word.now }
{
    Name::of(word.items()).is_some()
}

// They have one id, or one schema and name.
fn same_table_as(table: &TableRow, other: &TableRow) -> bool
    ensures { result ≡ same_table table.now other.now }
{
    table.id == other.id
        || (same(table.schema.items(), other.schema.items())
            && same(table.name.items(), other.name.items()))
}

// Two of the columns have one name.
fn stand_names_twice(columns: &[Column]) -> bool
    ensures { result ≡ names_stand_twice columns.now }
{
    let mut rest = columns;
    while let [first, others @ ..] = rest {
        if has_name(others, first.name.items()) {
            return true;
        }
        rest = others;
    }
    false
}

fn is_named(column: &Column, name: &[u8]) -> bool
    ensures { result ≡ same_bytes name.now column.now.name }
{
    same(name, column.name.items())
}

fn has_name(columns: &[Column], name: &[u8]) -> bool
    ensures { result ≡ list_any (λ c. same_bytes name.now c.name) columns.now }
{
    columns.iter().any(|column| is_named(column, name))
}

fn is_column_name(column: &Column) -> bool
    ensures { result ≡ is_name column.now.name }
{
    is_name_of(&column.name)
}

fn are_column_names(columns: &[Column]) -> bool
    ensures { result ≡ list_all (λ c. is_name c.name) columns.now }
{
    columns.iter().all(is_column_name)
}

fn are_names(table: &TableRow) -> bool
    ensures { result ≡ (is_name table.now.schema && is_name table.now.name && list_all (λ c. is_name c.name) table.now.columns) }
{
    if !is_name_of(&table.schema) {
        return false;
    }
    if !is_name_of(&table.name) {
        return false;
    }
    are_column_names(table.columns.items())
}

// A name that is none, or a column's name twice.
fn bad_names(table: &TableRow) -> bool
    ensures { result ≡ has_bad_names table.now }
{
    let columns = table.columns.items();
    if !are_names(table) {
        return true;
    }
    stand_names_twice(columns)
}

fn is_column(table: &TableRow, column: u8) -> bool
    ensures { result ≡ nat_lt column (length table.now.columns) }
{
    (column as usize) < table.columns.items().len()
}

fn is_key_in(table: &TableRow, key: &KeyColumns) -> bool
    ensures { result ≡ list_all (λ c. nat_lt c (length table.now.columns)) key.now }
{
    key.items().iter().all(|column| is_column(table, *column))
}

// Each column of its keys is a column.
fn are_keys_in(table: &TableRow) -> bool
    ensures { result ≡ list_all (λ key. list_all (λ c. nat_lt c (length table.now.columns)) key) table.now.keys }
{
    table.keys.items().iter().all(|key| is_key_in(table, key))
}

fn may_be_null(table: &TableRow, column: u8) -> bool
    ensures { result ≡ is_nullable (slice_get table.now.columns column) }
{
    match table.columns.items().get(column as usize) {
        None => false,
        Some(found) => found.nullable,
    }
}

// A column of the primary key may be Null.
fn may_key_be_null(table: &TableRow) -> bool
    ensures { result ≡ list_any (λ c. is_nullable (slice_get table.now.columns c)) (primary_of table.now) }
{
    primary_key_of(table)
        .iter()
        .any(|column| may_be_null(table, *column))
}

fn is_key(key: &KeyColumns, columns: &[u8]) -> bool
    ensures { result ≡ same_bytes columns.now key.now }
{
    same(columns, key.items())
}

fn has_key(keys: &[KeyColumns], columns: &[u8]) -> bool
    ensures { result ≡ list_any (same_bytes columns.now) keys.now }
{
    keys.iter().any(|key| is_key(key, columns))
}

// Two of these keys have the same columns.
fn keys_stand_twice(keys: &[KeyColumns]) -> bool
    ensures { result ≡ stands_twice keys.now }
{
    let mut rest = keys;
    while let [first, others @ ..] = rest {
        if has_key(others, first.items()) {
            return true;
        }
        rest = others;
    }
    false
}

/// The columns of the primary key.
pub fn primary_key_of(table: &TableRow) -> &[u8]
    ensures { result.now ≡ primary_of table.now }
{
    match table.keys.items() {
        [] => &[],
        [primary, ..] => primary.items(),
    }
}

// A key column that is none, a primary key column that may be Null, or a key twice.
fn bad_keys(table: &TableRow) -> bool
    ensures { result ≡ has_bad_keys table.now }
{
    if !are_keys_in(table) {
        return true;
    }
    if may_key_be_null(table) {
        return true;
    }
    keys_stand_twice(table.keys.items())
}

fn width_of(kind: Kind) -> u32
    ensures value { result ≡ widest kind }
    ensures most { result ≤ 65538 }
{
    match kind {
        Kind::Number => 9,
        Kind::Text(size) | Kind::Raw(size) => 3 + size as u32,
    }
}

// The bytes of the widest row of these columns.
fn row_width(columns: &[Column]) -> u32
    requires { length columns.now ≤ 32 }
    ensures { result ≡ sum_by (λ c. widest c.kind) columns.now }
{
    let mut sum = 0;
    for column in columns {
        sum += width_of(column.kind);
    }
    sum
}

fn column_width(table: &TableRow, column: u8) -> u32
    ensures value { result ≡ widest_of (slice_get table.now.columns column) }
    ensures most { result ≤ 65538 }
{
    match table.columns.items().get(column as usize) {
        None => 0,
        Some(found) => width_of(found.kind),
    }
}

// The bytes of the widest key of these columns.
fn key_width(table: &TableRow, key: &[u8]) -> u32
    requires { length key.now ≤ 32 }
    ensures { result ≡ widest_key table.now key.now }
{
    let mut sum = 0;
    for column in key {
        sum += column_width(table, *column);
    }
    sum
}

fn is_wide_key(table: &TableRow, key: &KeyColumns) -> bool
    ensures { result ≡ nat_lt 128 (widest_key table.now key.now) }
{
    key_width(table, key.items()) > MAX_KEY
}

fn has_wide_key(table: &TableRow) -> bool
    ensures { result ≡ list_any (λ key. nat_lt 128 (widest_key table.now key)) table.now.keys }
{
    table.keys.items().iter().any(|key| is_wide_key(table, key))
}

// A row or a key may be too wide.
fn too_wide(table: &TableRow) -> bool
    ensures { result ≡ is_too_wide table.now }
{
    if row_width(table.columns.items()) > MAX_ROW {
        return true;
    }
    has_wide_key(table)
}

fn has_table(tables: &[TableRow], table: &TableRow) -> bool
    ensures { result ≡ list_any (same_table table.now) tables.now }
{
    tables.iter().any(|other| same_table_as(table, other))
}

/// The first reason for which these tables do not take one more, if there is one. It takes no memory.
pub fn table_refusal(tables: &[TableRow], table: &TableRow) -> Option<DictFault>
    ensures none { result ≡ None → table_fault tables.now table.now ≡ None }
    ensures other { result ≡ None → list_any (same_table table.now) tables.now ≡ false }
    ensures keys { result ≡ None → has_bad_keys table.now ≡ false }
    ensures some { IfSome result (λ fault. (fault ≢ DictFault.Memory) × IsTableRefusal fault (table_fault tables.now table.now)) }
{
    if has_table(tables, table) {
        return Some(DictFault::Twice);
    }
    if bad_names(table) {
        return Some(DictFault::Names);
    }
    if bad_keys(table) {
        return Some(DictFault::Keys);
    }
    if tables.len() >= MAX_TABLES || too_wide(table) {
        return Some(DictFault::Limit);
    }
    None
}
