//! Prints a table of the dictionary: its names, its columns and its keys.
ghost use Rattle.std.specs.Prelude.{◌≡◌, ◌≤◌, ◌∷◌, ◌++◌, [], length, IfOk, OnOk, codes, map, IsTrue};
ghost use Rattle.std.specs.Fmt.{decimal};
ghost use Rattle.rl_value.specs.Literal.{literal};
ghost use Rattle.rl_value.specs.Text.{is_name};
ghost use Rattle.redo_vec.specs.Forms.{is_line30};
ghost use Rattle.line_fields.specs.Fields.{name_word};
ghost use Rattle.line_fields.specs.Known.{column_word};
ghost use Rattle.redo_lines.specs.Printing.{kind_parts, nullable_parts, column_line, column_lines, key_word, key_words, uniques_words, keys_words, names_word, definition_words};

use crate::printing::put_keyword;
use crate::printing_changes::literal_of;
use line_fields::{
    column_word, copied, decimal_of, few_columns, is_name, joined, joined_two, push_part,
};
use redo_vec::{Column, KeyColumns, Kind, Line30, TableRow};
use rl_value::{Bin, Bytes, NoMemory, TxtFault, Value};
use std::alloc::Global;

fn raw_of(alloc: Global, bytes: &[u8]) -> Result<Value, NoMemory>
    requires { IsTrue (is_line30 bytes.now) }
    ensures { IfOk result (λ value. value ≡ Value.Raw bytes.now) }
{
    match Bin::of(alloc, bytes) {
        Ok(raw) => Ok(Value::Raw(raw)),
        Err(_) => Err(NoMemory),
    }
}

/// The literal in hexadecimal of 1 to 30 bytes.
pub fn raw_literal(alloc: Global, bytes: &[u8]) -> Result<Vec<u8>, NoMemory>
    requires short { IsTrue (is_line30 bytes.now) }
    ensures printed { IfOk result (λ word. word.items ≡ literal (Value.Raw bytes.now)) }
{
    let raw = raw_of(alloc, bytes)?;
    literal_of(alloc, &raw)
}

// A name as it is, and other bytes in hexadecimal.
fn name_word(alloc: Global, name: &Line30) -> Result<Vec<u8>, NoMemory>
    ensures { IfOk result (λ word. word.items ≡ name_word name.now) }
{
    let bytes = name.items();
    if is_name(bytes) {
        return copied(alloc, bytes);
    }
    raw_literal(alloc, bytes)
}

fn put_sized(
    alloc: Global,
    parts: &mut Vec<Bytes>,
    keyword: &[u8],
    size: u16,
) -> Result<(), NoMemory>
    ensures { OnOk result (parts.new.items ≡ parts.old.items ++ keyword.now ∷ decimal size ∷ []) }
{
    put_keyword(alloc, parts, keyword)?;
    let size = decimal_of(alloc, u64::from(size))?;
    push_part(parts, size)
}

fn put_kind(alloc: Global, parts: &mut Vec<Bytes>, kind: Kind) -> Result<(), NoMemory>
    ensures { OnOk result (parts.new.items ≡ parts.old.items ++ kind_parts kind) }
{
    match kind {
        Kind::Number => put_keyword(alloc, parts, b"NUMBER"),
        Kind::Text(size) => put_sized(alloc, parts, b"TEXT", size),
        Kind::Raw(size) => put_sized(alloc, parts, b"RAW", size),
    }
}

fn put_nullable(alloc: Global, parts: &mut Vec<Bytes>, nullable: bool) -> Result<(), NoMemory>
    ensures { OnOk result (parts.new.items ≡ parts.old.items ++ nullable_parts nullable) }
{
    if nullable {
        return put_keyword(alloc, parts, b"NULL");
    }
    Ok(())
}

fn column_parts(alloc: Global, column: &Column) -> Result<Vec<Bytes>, NoMemory>
    ensures { IfOk result (λ parts. parts.items
        ≡ name_word column.now.name ∷ (kind_parts column.now.kind ++ nullable_parts column.now.nullable)) }
{
    let mut parts = Vec::new(alloc);
    let name = name_word(alloc, &column.name)?;
    push_part(&mut parts, name)?;
    put_kind(alloc, &mut parts, column.kind)?;
    put_nullable(alloc, &mut parts, column.nullable)?;
    Ok(parts)
}

fn column_line(alloc: Global, column: &Column) -> Result<Vec<u8>, NoMemory>
    ensures { IfOk result (λ word. word.items ≡ column_line column.now) }
{
    let parts = column_parts(alloc, column)?;
    joined(alloc, b':', parts.as_slice())
}

fn put_columns(alloc: Global, words: &mut Vec<Bytes>, columns: &[Column]) -> Result<(), NoMemory>
    ensures { OnOk result (words.new.items ≡ words.old.items ++ column_lines columns.now) }
{
    for column in columns {
        let word = column_line(alloc, column)?;
        push_part(words, word)?;
    }
    Ok(())
}

fn key_parts(alloc: Global, columns: &[Column], key: &[u8]) -> Result<Vec<Bytes>, NoMemory>
    requires { length columns.now ≤ 32 }
    ensures { IfOk result (λ parts. parts.items ≡ map (column_word columns.now) key.now) }
{
    let mut parts = Vec::new(alloc);
    for column in key {
        let word = column_word(alloc, columns, *column)?;
        push_part(&mut parts, word)?;
    }
    Ok(parts)
}

fn key_word(alloc: Global, columns: &[Column], key: &KeyColumns) -> Result<Vec<u8>, NoMemory>
    requires { length columns.now ≤ 32 }
    ensures { IfOk result (λ word. word.items ≡ key_word columns.now key.now) }
{
    let parts = key_parts(alloc, columns, key.items())?;
    joined(alloc, b',', parts.as_slice())
}

fn put_key_words(
    alloc: Global,
    words: &mut Vec<Bytes>,
    columns: &[Column],
    keys: &[KeyColumns],
) -> Result<(), NoMemory>
    requires { length columns.now ≤ 32 }
    ensures { OnOk result (words.new.items ≡ words.old.items ++ key_words columns.now keys.now) }
{
    for key in keys {
        let word = key_word(alloc, columns, key)?;
        push_part(words, word)?;
    }
    Ok(())
}

fn put_uniques(
    alloc: Global,
    words: &mut Vec<Bytes>,
    columns: &[Column],
    keys: &[KeyColumns],
) -> Result<(), NoMemory>
    requires { length columns.now ≤ 32 }
    ensures { OnOk result (words.new.items ≡ words.old.items ++ uniques_words columns.now keys.now) }
{
    match keys {
        [] => Ok(()),
        [_, ..] => {
            put_keyword(alloc, words, b"UNIQUE")?;
            put_key_words(alloc, words, columns, keys)
        }
    }
}

fn put_primary(
    alloc: Global,
    words: &mut Vec<Bytes>,
    columns: &[Column],
    key: &KeyColumns,
) -> Result<(), NoMemory>
    requires { length columns.now ≤ 32 }
    ensures { OnOk result (words.new.items ≡ words.old.items ++ codes "KEY" ∷ key_word columns.now key.now ∷ []) }
{
    put_keyword(alloc, words, b"KEY")?;
    let word = key_word(alloc, columns, key)?;
    push_part(words, word)
}

fn put_keys(
    alloc: Global,
    words: &mut Vec<Bytes>,
    columns: &[Column],
    keys: &[KeyColumns],
) -> Result<(), NoMemory>
    requires { length columns.now ≤ 32 }
    ensures { OnOk result (words.new.items ≡ words.old.items ++ keys_words columns.now keys.now) }
{
    match keys {
        [] => Ok(()),
        [primary, uniques @ ..] => {
            put_primary(alloc, words, columns, primary)?;
            put_uniques(alloc, words, columns, uniques)
        }
    }
}

fn names_word(alloc: Global, table: &TableRow) -> Result<Vec<u8>, NoMemory>
    ensures { IfOk result (λ word. word.items ≡ names_word table.now) }
{
    let schema = name_word(alloc, &table.schema)?;
    let name = name_word(alloc, &table.name)?;
    joined_two(alloc, b'.', schema.as_slice(), name.as_slice())
}

// The keyword, the id and the names.
fn head_words(alloc: Global, table: &TableRow) -> Result<Vec<Bytes>, NoMemory>
    ensures { IfOk result (λ words. words.items ≡ codes "TABLE" ∷ decimal table.now.id ∷ names_word table.now ∷ []) }
{
    let mut words = Vec::new(alloc);
    put_keyword(alloc, &mut words, b"TABLE")?;
    let id = decimal_of(alloc, u64::from(table.id))?;
    push_part(&mut words, id)?;
    let names = names_word(alloc, table)?;
    push_part(&mut words, names)?;
    Ok(words)
}

/// The words of a table of the dictionary.
pub(crate) fn definition_words(alloc: Global, table: &TableRow) -> Result<Vec<Bytes>, NoMemory>
    ensures { IfOk result (λ words. words.items ≡ definition_words table.now) }
{
    let columns = few_columns(&table.columns);
    let mut words = head_words(alloc, table)?;
    put_keyword(alloc, &mut words, b"COLUMNS")?;
    put_columns(alloc, &mut words, columns)?;
    put_keys(alloc, &mut words, columns, table.keys.items())?;
    Ok(words)
}
