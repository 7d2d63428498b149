//! Reads a table of the dictionary: its names, its columns behind COLUMNS, and its keys behind KEY and UNIQUE.
ghost use Rattle.std.specs.Prelude.{◌≡◌, ◌≤◌, ◌∷◌, [], length, Ok, Err, IfOk, IfErr, IsTrue};
ghost use Rattle.std.specs.List.{list_all};
ghost use Rattle.redo_vec.specs.Columns.{is_kind, are_columns};
ghost use Rattle.redo_vec.specs.Forms.{rises, is_key_columns, are_keys};
ghost use Rattle.redo_vec.specs.declared.columns.Kind.{Kind};
ghost use Rattle.line_fields.specs.Given.{Gives};
ghost use Rattle.redo_lines.specs.Reading.{items_until, never, is_key, nullable_said, size_said, sized_said, kind_said, column_of_parts, column_line_said, columns_behind, with_front, key_said, uniques_said, keys_with, keys_behind, names_of_parts, definition_said};
ghost use Rattle.line_fields.specs.Known.{column_said};
ghost use Rattle.line_fields.specs.Words.{split, dot};

use line_fields::{
    LineFault, ReadFault, column_of, few_columns, is_word, name_of, number_of, split, u32_of,
};
use redo_vec::{Column, Columns, KeyColumns, KeyLists, Kind, Line30, TableRow};
use rl_value::{Bytes, MAX_COLUMNS};
use std::alloc::Global;

#[tactic(auto, unfolding(crate::specs::Reading::nullable_said))]
fn nullable_of(parts: &[Bytes]) -> Result<bool, LineFault>
    ensures { result ≡ nullable_said parts.now }
{
    match parts {
        [] => Ok(false),
        [word] => {
            if is_word(word.bytes(), b"NULL") {
                return Ok(true);
            }
            Err(LineFault::Words)
        }
        [_, _, ..] => Err(LineFault::Words),
    }
}

#[tactic(auto, unfolding(crate::specs::Reading::size_said))]
fn size_of(word: &[u8]) -> Result<u16, LineFault>
    ensures { result ≡ size_said word.now }
{
    let size = number_of(500, word)?;
    if size == 0 {
        return Err(LineFault::Number);
    }
    Ok(size as u16)
}

// The size of a type, and whether Null may stand in the column.
#[tactic(auto, unfolding(crate::specs::Reading::sized_said))]
fn sized_of(parts: &[Bytes]) -> Result<(u16, bool), LineFault>
    ensures { result ≡ sized_said parts.now }
{
    match parts {
        [] => Err(LineFault::Words),
        [word, others @ ..] => {
            let size = size_of(word.bytes())?;
            let nullable = nullable_of(others)?;
            Ok((size, nullable))
        }
    }
}

#[tactic(auto, unfolding(crate::specs::Reading::kind_said))]
fn kind_of(word: &[u8], parts: &[Bytes]) -> Result<(Kind, bool), LineFault>
    ensures { result ≡ kind_said word.now parts.now }
{
    if is_word(word, b"NUMBER") {
        let nullable = nullable_of(parts)?;
        return Ok((Kind::Number, nullable));
    }
    if is_word(word, b"TEXT") {
        let (size, nullable) = sized_of(parts)?;
        return Ok((Kind::Text(size), nullable));
    }
    if is_word(word, b"RAW") {
        let (size, nullable) = sized_of(parts)?;
        return Ok((Kind::Raw(size), nullable));
    }
    Err(LineFault::Words)
}

#[tactic(auto, unfolding(crate::specs::Reading::column_of_parts))]
fn column_of_parts(alloc: Global, parts: &[Bytes]) -> Result<Column, ReadFault>
    ensures { Gives (λ x. x) result (column_of_parts parts.now) }
{
    match parts {
        [name, kind, others @ ..] => {
            let name = name_of(alloc, name.bytes())?;
            let (kind, nullable) = kind_of(kind.bytes(), others)?;
            Ok(Column {
                name,
                kind,
                nullable,
            })
        }
        _ => Err(ReadFault::Line(LineFault::Words)),
    }
}

#[tactic(auto, unfolding(crate::specs::Reading::column_line_said))]
fn column_line_of(alloc: Global, word: &[u8]) -> Result<Column, ReadFault>
    ensures { Gives (λ x. x) result (column_line_said word.now) }
{
    let parts = split(alloc, b':', word)?;
    column_of_parts(alloc, parts.as_slice())
}

fn is_key(word: &[u8]) -> bool
    ensures { result ≡ is_key word.now }
{
    is_word(word, b"KEY")
}

// Columns up to the word KEY, and the words from it on.
fn column_list(alloc: Global, words: &[Bytes]) -> Result<(Vec<Column>, &[Bytes]), ReadFault>
    ensures { Gives (λ x. (x.0.items, x.1.now)) result (items_until is_key column_line_said words.now) }
{
    let mut columns = Vec::new(alloc);
    let mut rest = words;
    while let [word, others @ ..] = rest {
        if is_key(word.bytes()) {
            return Ok((columns, rest));
        }
        let column = column_line_of(alloc, word.bytes())?;
        columns.push(column)?;
        rest = others;
    }
    Ok((columns, rest))
}

fn kind_fits(kind: Kind) -> bool
    ensures { result ≡ is_kind kind }
{
    match kind {
        Kind::Number => true,
        Kind::Text(size) => size >= 1 && size <= 500,
        Kind::Raw(size) => size >= 1 && size <= 500,
    }
}

fn kinds_fit(columns: &[Column]) -> bool
    ensures { result ≡ list_all (λ c. is_kind c.kind) columns.now }
{
    columns.iter().all(|column| kind_fits(column.kind))
}

fn are_columns(columns: &[Column]) -> bool
    ensures { result ≡ are_columns columns.now }
{
    columns.len() >= 1 && columns.len() <= MAX_COLUMNS && kinds_fit(columns)
}

#[tactic(auto, unfolding(crate::specs::Reading::columns_behind))]
fn columns_behind(alloc: Global, words: &[Bytes]) -> Result<(Columns, &[Bytes]), ReadFault>
    ensures { Gives (λ x. (x.0, x.1.now)) result (columns_behind words.now) }
{
    match words {
        [] => Err(ReadFault::Line(LineFault::Words)),
        [word, others @ ..] => {
            if !is_word(word.bytes(), b"COLUMNS") {
                return Err(ReadFault::Line(LineFault::Words));
            }
            let (columns, rest) = column_list(alloc, others)?;
            if !are_columns(columns.as_slice()) {
                return Err(ReadFault::Line(LineFault::Columns));
            }
            Ok((Columns::of(columns), rest))
        }
    }
}

// ---- keys

fn key_list(alloc: Global, columns: &[Column], parts: &[Bytes]) -> Result<Vec<u8>, ReadFault>
    requires { length columns.now ≤ 32 }
    ensures { Gives (λ x. (x.items, [])) result (items_until never (column_said columns.now) parts.now) }
{
    let mut key = Vec::new(alloc);
    let mut rest = parts;
    while let [part, others @ ..] = rest {
        let column = column_of(columns, part.bytes())?;
        key.push(column)?;
        rest = others;
    }
    Ok(key)
}

// Whether the columns of a key rise, and are below 32.
fn is_rising(key: &[u8]) -> bool
    ensures { result ≡ rises 0 key.now }
{
    let mut from = 0u8;
    let mut rest = key;
    while let [column, others @ ..] = rest {
        if *column < from || *column >= 32 {
            return false;
        }
        from = *column + 1;
        rest = others;
    }
    true
}

fn is_key_form(key: &[u8]) -> bool
    ensures { result ≡ is_key_columns key.now }
{
    key.len() >= 1 && is_rising(key)
}

#[tactic(auto, unfolding(crate::specs::Reading::key_said))]
fn key_of(alloc: Global, columns: &[Column], word: &[u8]) -> Result<KeyColumns, ReadFault>
    requires { length columns.now ≤ 32 }
    ensures { Gives (λ x. x) result (key_said columns.now word.now) }
{
    let parts = split(alloc, b',', word)?;
    let key = key_list(alloc, columns, parts.as_slice())?;
    if !is_key_form(key.as_slice()) {
        return Err(ReadFault::Line(LineFault::Columns));
    }
    Ok(KeyColumns::of(key))
}

// The primary key, and behind it the unique keys of these words.
fn unique_list(
    alloc: Global,
    primary: KeyColumns,
    columns: &[Column],
    words: &[Bytes],
) -> Result<Vec<KeyColumns>, ReadFault>
    requires { length columns.now ≤ 32 }
    ensures { Gives (λ x. (x.items, [])) result (with_front (primary ∷ [])
        (items_until never (key_said columns.now) words.now)) }
{
    let mut keys = Vec::new(alloc);
    keys.push(primary)?;
    let mut rest = words;
    while let [word, others @ ..] = rest {
        let key = key_of(alloc, columns, word.bytes())?;
        keys.push(key)?;
        rest = others;
    }
    Ok(keys)
}

fn one_key(alloc: Global, primary: KeyColumns) -> Result<Vec<KeyColumns>, ReadFault>
    ensures kept { IfOk result (λ x. x.items ≡ primary ∷ []) }
    ensures memory { IfErr result (λ fault. fault ≡ ReadFault.Memory) }
{
    let mut keys = Vec::new(alloc);
    keys.push(primary)?;
    Ok(keys)
}

#[tactic(auto, unfolding(crate::specs::Reading::uniques_said))]
fn uniques_of(
    alloc: Global,
    primary: KeyColumns,
    columns: &[Column],
    words: &[Bytes],
) -> Result<Vec<KeyColumns>, ReadFault>
    requires { length columns.now ≤ 32 }
    ensures { Gives (λ x. x.items) result (uniques_said primary columns.now words.now) }
{
    match words {
        [] => Err(ReadFault::Line(LineFault::Words)),
        [_, ..] => unique_list(alloc, primary, columns, words),
    }
}

#[tactic(auto, unfolding(crate::specs::Reading::keys_with))]
fn keys_with(
    alloc: Global,
    primary: KeyColumns,
    columns: &[Column],
    words: &[Bytes],
) -> Result<Vec<KeyColumns>, ReadFault>
    requires { length columns.now ≤ 32 }
    ensures { Gives (λ x. x.items) result (keys_with primary columns.now words.now) }
{
    match words {
        [] => one_key(alloc, primary),
        [word, uniques @ ..] => {
            if !is_word(word.bytes(), b"UNIQUE") {
                return Err(ReadFault::Line(LineFault::Words));
            }
            uniques_of(alloc, primary, columns, uniques)
        }
    }
}

fn each_is_key(keys: &[KeyColumns]) -> bool
    ensures { result ≡ list_all is_key_columns keys.now }
{
    keys.iter().all(|key| is_key_form(key.items()))
}

// One to five keys, each of the form that it was read in.
fn are_keys(keys: &[KeyColumns]) -> bool
    ensures { result ≡ are_keys keys.now }
{
    keys.len() >= 1 && keys.len() <= 5 && each_is_key(keys)
}

#[tactic(auto, unfolding(crate::specs::Reading::keys_behind))]
fn keys_behind(alloc: Global, columns: &[Column], words: &[Bytes]) -> Result<KeyLists, ReadFault>
    requires { length columns.now ≤ 32 }
    ensures { Gives (λ x. x) result (keys_behind columns.now words.now) }
{
    match words {
        [word, primary, others @ ..] => {
            if !is_key(word.bytes()) {
                return Err(ReadFault::Line(LineFault::Words));
            }
            let primary = key_of(alloc, columns, primary.bytes())?;
            let keys = keys_with(alloc, primary, columns, others)?;
            if !are_keys(keys.as_slice()) {
                return Err(ReadFault::Line(LineFault::Columns));
            }
            Ok(KeyLists::of(keys))
        }
        _ => Err(ReadFault::Line(LineFault::Words)),
    }
}

#[tactic(auto, unfolding(crate::specs::Reading::names_of_parts))]
fn names_of_parts(alloc: Global, parts: &[Bytes]) -> Result<(Line30, Line30), ReadFault>
    ensures { Gives (λ x. (x.0, x.1)) result (names_of_parts parts.now) }
{
    match parts {
        [schema, name] => {
            let schema = name_of(alloc, schema.bytes())?;
            let name = name_of(alloc, name.bytes())?;
            Ok((schema, name))
        }
        _ => Err(ReadFault::Line(LineFault::Name)),
    }
}

fn names_of(alloc: Global, word: &[u8]) -> Result<(Line30, Line30), ReadFault>
    ensures { Gives (λ x. (x.0, x.1)) result (names_of_parts (split dot word.now)) }
{
    let parts = split(alloc, b'.', word)?;
    names_of_parts(alloc, parts.as_slice())
}

/// The table that the words behind TABLE define.
#[tactic(auto, unfolding(crate::specs::Reading::definition_said))]
pub(crate) fn definition_of(alloc: Global, words: &[Bytes]) -> Result<TableRow, ReadFault>
    ensures { Gives (λ x. x) result (definition_said words.now) }
{
    match words {
        [id, names, others @ ..] => {
            let id = u32_of(id.bytes())?;
            let (schema, name) = names_of(alloc, names.bytes())?;
            let (columns, rest) = columns_behind(alloc, others)?;
            let keys = keys_behind(alloc, few_columns(&columns), rest)?;
            Ok(TableRow {
                id,
                schema,
                name,
                columns,
                keys,
            })
        }
        _ => Err(ReadFault::Line(LineFault::Words)),
    }
}
