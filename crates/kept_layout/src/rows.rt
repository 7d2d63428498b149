//! Rows, and keys of rows, as pairs spell them: values one behind the other up to the end.
//!
//! A row has 1 to 32 values, so of bytes that spell more no further value is made. The bytes of texts and raw values are all
//! that is copied here. A pair tells no place of a fault, so the length from which such a place would be counted is 0 here.
ghost use Rattle.std.specs.Prelude.{◌≡◌, ◌++◌, ◌∷◌, [], OnOk, IfOk};
ghost use Rattle.std.specs.Option.{option_map, option_and_then};
ghost use Rattle.kept_layout.specs.Pairs.{value_in_front, as_row, row_of_bytes, place_of_key};

use crate::numbers::{behind, u32_in};
use redo_vec::{DecodeFault, value_of};
use rl_value::{MAX_COLUMNS, NoMemory, Row, Value};
use std::alloc::Global;

// The value at the front of the bytes, and the bytes behind it.
fn next_value(alloc: Global, bytes: &[u8]) -> Result<Option<(Value, &[u8])>, NoMemory>
    ensures { IfOk result (λ found. option_map (λ x. (x.0, x.1.now)) found ≡ value_in_front bytes.now) }
{
    match value_of(alloc, 0, bytes) {
        Ok((value, rest)) => Ok(Some((value, rest))),
        Err(DecodeFault::Vector { fault: _, place: _ }) => Ok(None),
        Err(DecodeFault::Memory) => Err(NoMemory),
    }
}

// The values with one more behind them.
fn push_value(values: &mut Vec<Value>, value: Value) -> Result<(), NoMemory>
    ensures { OnOk result (values.new.items ≡ values.old.items ++ value ∷ []) }
{
    match values.push(value) {
        Ok(()) => Ok(()),
        Err(_) => Err(NoMemory),
    }
}

// The values that bytes spell, up to 32.
fn value_list(alloc: Global, bytes: &[u8]) -> Result<Option<Vec<Value>>, NoMemory>
    ensures { IfOk result (λ found. option_and_then as_row (option_map (λ values. values.items) found) ≡ row_of_bytes bytes.now) }
{
    let mut values = Vec::new(alloc);
    let mut rest = bytes;
    for _ in 0..MAX_COLUMNS {
        if rest.is_empty() {
            return Ok(Some(values));
        }
        let found = next_value(alloc, rest)?;
        let Some((value, behind)) = found else {
            return Ok(None);
        };
        push_value(&mut values, value)?;
        rest = behind;
    }
    if rest.is_empty() {
        return Ok(Some(values));
    }
    Ok(None)
}

fn row_of(values: Vec<Value>) -> Option<Row>
    ensures { result ≡ as_row values.items }
{
    if values.is_empty() || values.len() > MAX_COLUMNS {
        return None;
    }
    Some(Row::of(values))
}

/// The row, or the key of a row, that bytes spell: 1 to 32 values one behind the other. None where they spell none.
pub fn row_in(alloc: Global, bytes: &[u8]) -> Result<Option<Row>, NoMemory>
    ensures exact { IfOk result (λ found. found ≡ row_of_bytes bytes.now) }
{
    let found = value_list(alloc, bytes)?;
    match found {
        None => Ok(None),
        Some(values) => Ok(row_of(values)),
    }
}

/// The table and the primary key that the key of a row spells. None where it spells none.
pub fn row_place_in(alloc: Global, key: &[u8]) -> Result<Option<(u32, Row)>, NoMemory>
    ensures exact { IfOk result (λ found. found ≡ place_of_key key.now) }
{
    if key.len() < 4 {
        return Ok(None);
    }
    let found = row_in(alloc, behind(key, 4))?;
    match found {
        None => Ok(None),
        Some(row) => Ok(Some((u32_in(key, 0), row))),
    }
}
