//! Tables of the dictionary as a record spells them: names, columns, keys.
ghost use Rattle.std.specs.Prelude.{◌≡◌, ◌+◌, ◌≤◌, ◌<◌, [], ◌∷◌, length, IfOk, IsTrue};
ghost use Rattle.redo_vec.specs.Given.{Gives};
ghost use Rattle.redo_vec.specs.Columns.{is_kind};
ghost use Rattle.redo_vec.specs.Reading.{items_from, with_front, name_at, is_size_of, kind_by_number, kind_at, flag_at, column_at, count_at, rising_at, rising_from, key_at, keys_at, columns_from, keys_from, table_at};

use crate::columns::{Column, Columns, Kind};
use crate::fault::DecodeFault;
use crate::fields::{bytes_of, fault_at, rising_of, u8_at, u16_at, u32_at};
use crate::keys::{KeyColumns, KeyLists};
use crate::line30::Line30;
use crate::table::TableRow;
use rl_value::{MAX_COLUMNS, MAX_NAME, MAX_VALUE, VecFault};
use std::alloc::Global;

#[tactic(auto, unfolding(crate::specs::Reading::name_at))]
fn name_of(alloc: Global, size: u32, bytes: &[u8]) -> Result<(Line30, &[u8]), DecodeFault>
    ensures { Gives (λ x. (x.0, x.1.now)) result (name_at size bytes.now) }
{
    let (count, rest) = u8_at(size, bytes)?;
    if count == 0 || count as usize > MAX_NAME {
        return Err(fault_at(VecFault::Size, size, bytes));
    }
    let (name, rest) = bytes_of(size, count as usize, rest)?;
    Ok((Line30::of(Vec::from_slice(alloc, name)?), rest))
}

// A number has the size 0, a text or a raw 1 to 500.
fn size_fits(kind: u8, size: u16) -> bool
    ensures { result ≡ is_size_of kind size }
{
    if kind == 1 {
        size == 0
    } else {
        size >= 1 && size as usize <= MAX_VALUE
    }
}

fn kind_with(kind: u8, size: u16) -> Kind
    ensures { result ≡ kind_by_number kind size }
{
    match kind {
        1 => Kind::Number,
        2 => Kind::Text(size),
        _ => Kind::Raw(size),
    }
}

#[tactic(auto, unfolding(crate::specs::Reading::kind_at))]
fn kind_read(size: u32, bytes: &[u8]) -> Result<(Kind, &[u8]), DecodeFault>
    ensures { Gives (λ x. (x.0, x.1.now)) result (kind_at size bytes.now) }
{
    let (kind, behind) = u8_at(size, bytes)?;
    if kind == 0 || kind > 3 {
        return Err(fault_at(VecFault::Tag, size, bytes));
    }
    let (limit, rest) = u16_at(size, behind)?;
    if !size_fits(kind, limit) {
        return Err(fault_at(VecFault::Size, size, behind));
    }
    Ok((kind_with(kind, limit), rest))
}

#[tactic(auto, unfolding(crate::specs::Reading::flag_at))]
fn flag_of(size: u32, bytes: &[u8]) -> Result<(bool, &[u8]), DecodeFault>
    ensures { Gives (λ x. (x.0, x.1.now)) result (flag_at size bytes.now) }
{
    let (flag, rest) = u8_at(size, bytes)?;
    if flag > 1 {
        return Err(fault_at(VecFault::Tag, size, bytes));
    }
    Ok((flag == 1, rest))
}

#[tactic(auto, unfolding(crate::specs::Reading::column_at))]
fn column_of(alloc: Global, size: u32, bytes: &[u8]) -> Result<(Column, &[u8]), DecodeFault>
    ensures { Gives (λ x. (x.0, x.1.now)) result (column_at size bytes.now) }
{
    let (name, rest) = name_of(alloc, size, bytes)?;
    let (kind, rest) = kind_read(size, rest)?;
    let (nullable, rest) = flag_of(size, rest)?;
    Ok((
        Column {
            name,
            kind,
            nullable,
        },
        rest,
    ))
}

// A count of columns, 1 to 32.
#[tactic(auto, unfolding(crate::specs::Reading::count_at))]
fn count_of(size: u32, bytes: &[u8]) -> Result<(u8, &[u8]), DecodeFault>
    ensures read { Gives (λ x. (x.0, x.1.now)) result (count_at size bytes.now) }
    ensures some { IfOk result (λ x. 1 ≤ x.0) }
    ensures most { IfOk result (λ x. x.0 ≤ 32) }
{
    let (count, rest) = u8_at(size, bytes)?;
    if count == 0 || count as usize > MAX_COLUMNS {
        return Err(fault_at(VecFault::Cells, size, bytes));
    }
    Ok((count, rest))
}

fn column_list(
    alloc: Global,
    size: u32,
    count: u8,
    bytes: &[u8],
) -> Result<(Vec<Column>, &[u8]), DecodeFault>
    ensures { Gives (λ x. (x.0.items, x.1.now)) result (items_from (λ _. column_at size) (λ _. 0) count 0 bytes.now) }
{
    let mut columns = Vec::with_capacity(alloc, count as usize)?;
    let mut rest = bytes;
    for _ in 0..count {
        let (column, after) = column_of(alloc, size, rest)?;
        columns.push(column)?;
        rest = after;
    }
    Ok((columns, rest))
}

#[tactic(auto, unfolding(crate::specs::Reading::columns_from))]
fn columns_of(
    alloc: Global,
    size: u32,
    count: u8,
    bytes: &[u8],
) -> Result<(Columns, &[u8]), DecodeFault>
    requires some { 1 ≤ count }
    requires most { count ≤ 32 }
    ensures { Gives (λ x. (x.0, x.1.now)) result (columns_from count size bytes.now) }
{
    let (columns, rest) = column_list(alloc, size, count, bytes)?;
    Ok((Columns::of(columns), rest))
}

fn rising_list(
    alloc: Global,
    size: u32,
    count: u8,
    bytes: &[u8],
) -> Result<(Vec<u8>, &[u8]), DecodeFault>
    ensures { Gives (λ x. (x.0.items, x.1.now)) result (items_from (rising_at size) (λ c. c + 1) count 0 bytes.now) }
{
    let mut columns = Vec::with_capacity(alloc, count as usize)?;
    let mut from = 0;
    let mut rest = bytes;
    for _ in 0..count {
        let (column, after) = rising_of(size, from, rest)?;
        from = column + 1;
        columns.push(column)?;
        rest = after;
    }
    Ok((columns, rest))
}

#[tactic(auto, unfolding(crate::specs::Reading::key_at, crate::specs::Reading::rising_from))]
fn key_of(alloc: Global, size: u32, bytes: &[u8]) -> Result<(KeyColumns, &[u8]), DecodeFault>
    ensures { Gives (λ x. (x.0, x.1.now)) result (key_at size bytes.now) }
{
    let (count, rest) = count_of(size, bytes)?;
    let (columns, rest) = rising_list(alloc, size, count, rest)?;
    Ok((KeyColumns::of(columns), rest))
}

// The primary key, and behind it so many unique keys.
fn key_list(
    alloc: Global,
    size: u32,
    primary: KeyColumns,
    count: u8,
    bytes: &[u8],
) -> Result<(Vec<KeyColumns>, &[u8]), DecodeFault>
    ensures { Gives (λ x. (x.0.items, x.1.now)) result (with_front (primary ∷ [])
        (items_from (λ _. key_at size) (λ _. 0) count 0 bytes.now)) }
{
    let mut keys = Vec::with_capacity(alloc, 1 + count as usize)?;
    keys.push(primary)?;
    let mut rest = bytes;
    for _ in 0..count {
        let (key, after) = key_of(alloc, size, rest)?;
        keys.push(key)?;
        rest = after;
    }
    Ok((keys, rest))
}

#[tactic(auto, unfolding(crate::specs::Reading::keys_at, crate::specs::Reading::keys_from))]
fn keys_of(alloc: Global, size: u32, bytes: &[u8]) -> Result<(KeyLists, &[u8]), DecodeFault>
    ensures { Gives (λ x. (x.0, x.1.now)) result (keys_at size bytes.now) }
{
    let (primary, behind) = key_of(alloc, size, bytes)?;
    let (count, rest) = u8_at(size, behind)?;
    if count > 4 {
        return Err(fault_at(VecFault::Cells, size, behind));
    }
    let (keys, rest) = key_list(alloc, size, primary, count, rest)?;
    Ok((KeyLists::of(keys), rest))
}

/// A table with its id before it.
#[tactic(auto, unfolding(crate::specs::Reading::table_at))]
pub fn table_of(alloc: Global, size: u32, bytes: &[u8]) -> Result<(TableRow, &[u8]), DecodeFault>
    ensures read { Gives (λ x. (x.0, x.1.now)) result (table_at size bytes.now) }
{
    let (id, rest) = u32_at(size, bytes)?;
    let (schema, rest) = name_of(alloc, size, rest)?;
    let (name, rest) = name_of(alloc, size, rest)?;
    let (count, rest) = count_of(size, rest)?;
    let (columns, rest) = columns_of(alloc, size, count, rest)?;
    let (keys, rest) = keys_of(alloc, size, rest)?;
    Ok((
        TableRow {
            id,
            schema,
            name,
            columns,
            keys,
        },
        rest,
    ))
}
