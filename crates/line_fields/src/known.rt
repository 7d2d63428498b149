//! The tables that a text has said so far: how a change names tables and columns, and how it is printed with their names.
ghost use Rattle.std.specs.Prelude.{◌≡◌, ◌≤◌, ◌∷◌, ◌&&◌, ◌||◌, ◌==◌, [], length, Ok, Err, IfOk, OnOk, OnErr, slice_get};
ghost use Rattle.std.specs.List.{list_all};
ghost use Rattle.std.specs.Option.{option_copied};
ghost use Rattle.std.specs.Fmt.{decimal};
ghost use Rattle.rl_value.specs.Order.{same_bytes};
ghost use Rattle.rl_value.specs.Text.{is_name_byte, is_letter, first_is_letter};
ghost use Rattle.redo_spec.specs.Dictionary.{table_of, id_of};
ghost use Rattle.script_words.specs.Numbers.{is_digit};
ghost use Rattle.line_fields.specs.Given.{Gives};
ghost use Rattle.line_fields.specs.Known.{with_known, known_after, is_numeral, is_plain_byte, is_plain, is_said, name_or_number, table_of_parts, table_said, name_of_table, table_word, columns_of_table, columns_known, column_named, column_said, name_of_column, column_word};

use crate::fault::{LineFault, ReadFault};
use crate::fields::{u8_of, u32_of};
use crate::words::{joined_two, split};
use redo_vec::{Column, Columns, TableRow, Vector};
use rl_value::{Bytes, NoMemory};
use script_words::is_word;
use std::alloc::Global;

const KNOWN_LIMIT: usize = 256;

fn keep_table(tables: &mut Vec<TableRow>, table: &TableRow) -> Result<(), NoMemory>
    ensures kept { OnOk result (tables.new.items ≡ with_known tables.old.items table.now) }
    ensures unchanged { OnErr result (tables.new.items ≡ tables.old.items) }
{
    if tables.len() >= KNOWN_LIMIT {
        return Ok(());
    }
    match tables.push(table.copy()?) {
        Ok(()) => Ok(()),
        Err(_) => Err(NoMemory),
    }
}

/// Keeps the table that a vector says, unless 256 are kept.
pub fn note_vector(tables: &mut Vec<TableRow>, vector: &Vector) -> Result<(), NoMemory>
    ensures known { OnOk result (tables.new.items ≡ known_after tables.old.items vector.now) }
    ensures unchanged { OnErr result (tables.new.items ≡ tables.old.items) }
{
    match vector {
        Vector::Table(table) => keep_table(tables, table),
        Vector::Start(_) => Ok(()),
        Vector::Change(_) => Ok(()),
        Vector::Undo(_) => Ok(()),
        Vector::Commit(_) => Ok(()),
        Vector::Rollback(_) => Ok(()),
        Vector::DictEnd => Ok(()),
    }
}

fn is_digit(byte: u8) -> bool
    ensures { result ≡ is_digit byte }
{
    byte >= b'0' && byte <= b'9'
}

fn is_numeral(word: &[u8]) -> bool
    ensures { result ≡ is_numeral word.now }
{
    match word {
        [] => false,
        [first, ..] => is_digit(*first),
    }
}

fn has_id(table: &TableRow, id: u32) -> bool
    ensures { result ≡ (table.now.id == id) }
{
    table.id == id
}

/// The first table of this id.
fn table_at(tables: &[TableRow], id: u32) -> Option<&TableRow>
    ensures { option_copied result ≡ table_of tables.now id }
{
    tables.iter().find(|table| has_id(table, id))
}

fn is_named(table: &TableRow, schema: &[u8], name: &[u8]) -> bool
    ensures { result ≡ (same_bytes table.now.schema schema.now && same_bytes table.now.name name.now) }
{
    is_word(table.schema.items(), schema) && is_word(table.name.items(), name)
}

fn id_at(tables: &[TableRow], schema: &[u8], name: &[u8]) -> Option<u32>
    ensures { result ≡ id_of tables.now schema.now name.now }
{
    match tables.iter().find(|table| is_named(table, schema, name)) {
        Some(table) => Some(table.id),
        None => None,
    }
}

#[tactic(auto, unfolding(crate::specs::Known::table_of_parts))]
fn table_of_parts(tables: &[TableRow], parts: &[Bytes]) -> Result<u32, LineFault>
    ensures { result ≡ table_of_parts tables.now parts.now }
{
    match parts {
        [schema, name] => match id_at(tables, schema.bytes(), name.bytes()) {
            Some(id) => Ok(id),
            None => Err(LineFault::NoTable),
        },
        _ => Err(LineFault::NoTable),
    }
}

/// The id of a table, by its name or its number.
#[tactic(auto, unfolding(crate::specs::Known::table_said))]
pub fn table_of(alloc: Global, tables: &[TableRow], word: &[u8]) -> Result<u32, ReadFault>
    ensures read { Gives (λ x. x) result (table_said tables.now word.now) }
{
    if is_numeral(word) {
        return Ok(u32_of(word)?);
    }
    let parts = split(alloc, b'.', word)?;
    Ok(table_of_parts(tables, parts.as_slice())?)
}

/// The columns of a table, of which there are at most 32.
#[tactic(auto, using(crate::proofs::Forms::columns_few))]
pub fn few_columns(columns: &Columns) -> &[Column]
    ensures columns { result.now ≡ columns.now }
    ensures few { length result.now ≤ 32 }
{
    columns.items()
}

/// The columns of the first table of this id, or none.
pub fn columns_known(tables: &[TableRow], id: u32) -> &[Column]
    ensures columns { result.now ≡ columns_known tables.now id }
    ensures few { length result.now ≤ 32 }
{
    match table_at(tables, id) {
        Some(table) => few_columns(&table.columns),
        None => &[],
    }
}

fn column_named(columns: &[Column], word: &[u8]) -> Result<u8, LineFault>
    requires { length columns.now ≤ 32 }
    ensures { result ≡ column_named 0 columns.now word.now }
{
    let mut number = 0u8;
    for column in columns {
        if is_word(column.name.items(), word) {
            return Ok(number);
        }
        number = number + 1;
    }
    Err(LineFault::NoColumn)
}

/// A column by its name or its number.
#[tactic(auto, unfolding(crate::specs::Known::column_said))]
pub fn column_of(columns: &[Column], word: &[u8]) -> Result<u8, LineFault>
    requires few { length columns.now ≤ 32 }
    ensures read { result ≡ column_said columns.now word.now }
{
    if is_numeral(word) {
        return u8_of(word);
    }
    column_named(columns, word)
}

// ---- names or numbers

fn is_plain_byte(byte: u8) -> bool
    ensures { result ≡ is_plain_byte byte }
{
    is_letter(byte)
        || is_digit(byte)
        || byte == b'_'
        || byte == b'$'
        || byte == b'#'
        || byte == b'.'
}

fn is_letter(byte: u8) -> bool
    ensures { result ≡ is_letter byte }
{
    byte >= b'A' && byte <= b'Z'
}

fn begins_with_letter(word: &[u8]) -> bool
    ensures { result ≡ first_is_letter word.now }
{
    match word {
        [] => false,
        [first, ..] => is_letter(*first),
    }
}

fn all_plain(word: &[u8]) -> bool
    ensures { result ≡ list_all is_plain_byte word.now }
{
    word.iter().all(|byte| is_plain_byte(*byte))
}

fn is_plain(word: &[u8]) -> bool
    ensures { result ≡ is_plain word.now }
{
    begins_with_letter(word) && all_plain(word)
}

/// A number in decimal.
pub fn decimal_of(alloc: Global, number: u64) -> Result<Vec<u8>, NoMemory>
    ensures printed { IfOk result (λ bytes. bytes.items ≡ decimal number) }
{
    let Ok(text) = format!(in alloc; "{number}") else {
        return Err(NoMemory);
    };
    copied(alloc, text.as_bytes())
}

/// A copy of these bytes.
pub fn copied(alloc: Global, bytes: &[u8]) -> Result<Vec<u8>, NoMemory>
    ensures same { IfOk result (λ copy. copy.items ≡ bytes.now) }
{
    match Vec::from_slice(alloc, bytes) {
        Ok(copy) => Ok(copy),
        Err(_) => Err(NoMemory),
    }
}

fn is_table(alloc: Global, tables: &[TableRow], id: u32, word: &[u8]) -> Result<bool, NoMemory>
    ensures { IfOk result (λ same. same ≡ is_said id (table_said tables.now word.now)) }
{
    match table_of(alloc, tables, word) {
        Ok(found) => Ok(found == id),
        Err(ReadFault::Line(_)) => Ok(false),
        Err(ReadFault::Memory) => Err(NoMemory),
    }
}

fn name_of_table(alloc: Global, tables: &[TableRow], id: u32) -> Result<Vec<u8>, NoMemory>
    ensures { IfOk result (λ name. name.items ≡ name_of_table (table_of tables.now id)) }
{
    match table_at(tables, id) {
        Some(table) => joined_two(alloc, b'.', table.schema.items(), table.name.items()),
        None => Ok(Vec::new(alloc)),
    }
}

/// A table by its name, where reading it gives this table, and else by its number.
#[tactic(auto, unfolding(crate::specs::Known::table_word, crate::specs::Known::name_or_number))]
pub fn table_word(alloc: Global, tables: &[TableRow], id: u32) -> Result<Vec<u8>, NoMemory>
    ensures printed { IfOk result (λ word. word.items ≡ table_word tables.now id) }
{
    let name = name_of_table(alloc, tables, id)?;
    if is_plain(name.as_slice()) {
        if is_table(alloc, tables, id, name.as_slice())? {
            return Ok(name);
        }
    }
    decimal_of(alloc, u64::from(id))
}

fn is_column(columns: &[Column], number: u8, word: &[u8]) -> bool
    requires { length columns.now ≤ 32 }
    ensures { result ≡ is_said number (column_said columns.now word.now) }
{
    match column_of(columns, word) {
        Ok(found) => found == number,
        Err(_) => false,
    }
}

fn name_of_column(columns: &[Column], number: u8) -> &[u8]
    ensures { result.now ≡ name_of_column (slice_get columns.now number) }
{
    match columns.get(usize::from(number)) {
        Some(column) => column.name.items(),
        None => &[],
    }
}

/// A column by its name, where reading it gives this column, and else by its number.
#[tactic(auto, unfolding(crate::specs::Known::column_word, crate::specs::Known::name_or_number))]
pub fn column_word(alloc: Global, columns: &[Column], number: u8) -> Result<Vec<u8>, NoMemory>
    requires few { length columns.now ≤ 32 }
    ensures printed { IfOk result (λ word. word.items ≡ column_word columns.now number) }
{
    let name = name_of_column(columns, number);
    if is_plain(name) && is_column(columns, number, name) {
        return copied(alloc, name);
    }
    decimal_of(alloc, u64::from(number))
}
