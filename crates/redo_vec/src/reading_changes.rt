//! Changes as a record spells them: values, cells, the change of a row.
//!
//! The bytes of texts and raw values are all that is copied here.
ghost use Rattle.std.specs.Prelude.{◌≡◌, ◌+◌, ◌-◌, ◌≤◌, ◌<◌, length, IfOk, IfErr, OnOk, IsTrue};
ghost use Rattle.redo_vec.specs.Given.{Gives};
ghost use Rattle.redo_vec.specs.Reading.{items_from, text_at, value_at, cell_at, after_cell, cells_from, cells_at, change_at};

use crate::change::{Change, Op};
use crate::fault::DecodeFault;
use crate::fields::{content_of, fault_at, rising_of, u8_at, u32_at, u64_at, xid_of};
use rl_value::{Bin, Cells, MAX_COLUMNS, Txt, TxtFault, Value, VecFault};
use std::alloc::Global;

// A text that is not UTF-8, refused where its first byte stands.
fn not_utf8(size: u32, text: &[u8], rest: &[u8]) -> DecodeFault
    ensures { result ≡ DecodeFault.Vector VecFault.Utf8 (size - (length text.now + length rest.now)) }
{
    let before = (size as usize).saturating_sub(rest.len());
    DecodeFault::Vector {
        fault: VecFault::Utf8,
        place: before.saturating_sub(text.len()) as u32,
    }
}

#[tactic(auto, unfolding(crate::specs::Reading::text_at))]
fn text_of(alloc: Global, size: u32, bytes: &[u8]) -> Result<(Value, &[u8]), DecodeFault>
    ensures { Gives (λ x. (x.0, x.1.now)) result (text_at size bytes.now) }
{
    let (content, rest) = content_of(size, bytes)?;
    match Txt::of(alloc, content) {
        Ok(text) => Ok((Value::Text(text), rest)),
        Err(TxtFault::Utf8) => Err(not_utf8(size, content, rest)),
        Err(TxtFault::Memory) => Err(DecodeFault::Memory),
        Err(_) => unreachable!(),
    }
}

fn raw_of(alloc: Global, content: &[u8]) -> Result<Value, DecodeFault>
    requires some { 1 ≤ length content.now }
    requires most { length content.now ≤ 500 }
    ensures kept { IfOk result (λ value. value ≡ Value.Raw content.now) }
    ensures memory { IfErr result (λ fault. fault ≡ DecodeFault.Memory) }
{
    match Bin::of(alloc, content) {
        Ok(raw) => Ok(Value::Raw(raw)),
        Err(TxtFault::Memory) => Err(DecodeFault::Memory),
        Err(_) => unreachable!(),
    }
}

/// A value.
#[tactic(auto, unfolding(crate::specs::Reading::value_at))]
pub fn value_of(alloc: Global, size: u32, bytes: &[u8]) -> Result<(Value, &[u8]), DecodeFault>
    ensures read { Gives (λ x. (x.0, x.1.now)) result (value_at size bytes.now) }
{
    let (tag, rest) = u8_at(size, bytes)?;
    match tag {
        0 => Ok((Value::Null, rest)),
        1 => {
            let (number, rest) = u64_at(size, rest)?;
            Ok((Value::Number(number.cast_signed()), rest))
        }
        2 => text_of(alloc, size, rest),
        3 => {
            let (content, rest) = content_of(size, rest)?;
            Ok((raw_of(alloc, content)?, rest))
        }
        _ => Err(fault_at(VecFault::Tag, size, bytes)),
    }
}

fn cell_of(
    alloc: Global,
    size: u32,
    from: u8,
    bytes: &[u8],
) -> Result<((u8, Value), &[u8]), DecodeFault>
    ensures read { Gives (λ x. (x.0, x.1.now)) result (cell_at size from bytes.now) }
    ensures below { IfOk result (λ x. x.0.0 < 32) }
{
    let (column, rest) = rising_of(size, from, bytes)?;
    let (value, rest) = value_of(alloc, size, rest)?;
    Ok(((column, value), rest))
}

// So many cells, whose columns rise.
fn cell_list(
    alloc: Global,
    size: u32,
    count: u8,
    bytes: &[u8],
) -> Result<(Vec<(u8, Value)>, &[u8]), DecodeFault>
    ensures { Gives (λ x. (x.0.items, x.1.now)) result (items_from (cell_at size) after_cell count 0 bytes.now) }
{
    let mut cells = Vec::with_capacity(alloc, count as usize)?;
    let mut from = 0;
    let mut rest = bytes;
    for _ in 0..count {
        let (cell, after) = cell_of(alloc, size, from, rest)?;
        from = cell.0 + 1;
        cells.push(cell)?;
        rest = after;
    }
    Ok((cells, rest))
}

#[tactic(auto, unfolding(crate::specs::Reading::cells_at, crate::specs::Reading::cells_from))]
fn cells_of(alloc: Global, size: u32, bytes: &[u8]) -> Result<(Cells, &[u8]), DecodeFault>
    ensures { Gives (λ x. (x.0, x.1.now)) result (cells_at size bytes.now) }
{
    let (count, rest) = u8_at(size, bytes)?;
    if count as usize > MAX_COLUMNS {
        return Err(fault_at(VecFault::Cells, size, bytes));
    }
    let (cells, rest) = cell_list(alloc, size, count, rest)?;
    Ok((Cells::of(cells), rest))
}

#[tactic(auto, unfolding(crate::specs::Reading::change_at))]
pub(crate) fn change_of(
    alloc: Global,
    size: u32,
    op: Op,
    bytes: &[u8],
) -> Result<(Change, &[u8]), DecodeFault>
    ensures { Gives (λ x. (x.0, x.1.now)) result (change_at op size bytes.now) }
{
    let (xid, rest) = xid_of(size, bytes)?;
    let (table, rest) = u32_at(size, rest)?;
    let (old, rest) = cells_of(alloc, size, rest)?;
    let (new, rest) = cells_of(alloc, size, rest)?;
    Ok((
        Change {
            xid,
            op,
            table,
            old,
            new,
        },
        rest,
    ))
}
