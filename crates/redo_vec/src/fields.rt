//! Fields of a record that take no memory: numbers, bytes, transaction ids.
//!
//! Each reader takes the record's length and the bytes from its field on, and gives the field and the bytes
//! behind it, which are never copied; or the fault with its place (specs/Reading.antt).
ghost use Rattle.std.specs.Prelude.{◌≡◌, ◌≤◌, ◌<◌, ◌^◌, ◌-◌, length, IfOk};
ghost use Rattle.std.specs.Int.{w16, w32, w64};
ghost use Rattle.redo_vec.specs.Given.{Gives};
ghost use Rattle.redo_vec.specs.Reading.{number_at, byte_at, bytes_at, rising_at, xid_at, content_at};

use crate::fault::DecodeFault;
use rl_value::{VecFault, Xid};

/// A fault of the field that begins where these bytes are left.
pub(crate) fn fault_at(fault: VecFault, size: u32, left: &[u8]) -> DecodeFault
    ensures { result ≡ DecodeFault.Vector fault (size - length left.now) }
{
    DecodeFault::Vector {
        fault,
        place: (size as usize).saturating_sub(left.len()) as u32,
    }
}

fn not_whole(size: u32) -> DecodeFault
    ensures { result ≡ DecodeFault.Vector VecFault.End size }
{
    DecodeFault::Vector {
        fault: VecFault::End,
        place: size,
    }
}

/// A byte.
pub fn u8_at(size: u32, bytes: &[u8]) -> Result<(u8, &[u8]), DecodeFault>
    ensures read { Gives (λ x. (x.0, x.1.now)) result (byte_at size bytes.now) }
{
    match bytes {
        [] => Err(not_whole(size)),
        [first, rest @ ..] => Ok((*first, rest)),
    }
}

/// A number of two bytes, big-endian.
pub fn u16_at(size: u32, bytes: &[u8]) -> Result<(u16, &[u8]), DecodeFault>
    ensures read { Gives (λ x. (x.0, x.1.now)) result (number_at w16 size bytes.now) }
{
    if bytes.len() < 2 {
        return Err(not_whole(size));
    }
    let (front, rest) = bytes.split_at(2);
    Ok((u16::from_be_bytes([front[0], front[1]]), rest))
}

/// A number of four bytes, big-endian.
pub fn u32_at(size: u32, bytes: &[u8]) -> Result<(u32, &[u8]), DecodeFault>
    ensures read { Gives (λ x. (x.0, x.1.now)) result (number_at w32 size bytes.now) }
{
    if bytes.len() < 4 {
        return Err(not_whole(size));
    }
    let (front, rest) = bytes.split_at(4);
    let number = u32::from_be_bytes([front[0], front[1], front[2], front[3]]);
    Ok((number, rest))
}

/// A number of eight bytes, big-endian.
pub fn u64_at(size: u32, bytes: &[u8]) -> Result<(u64, &[u8]), DecodeFault>
    ensures read { Gives (λ x. (x.0, x.1.now)) result (number_at w64 size bytes.now) }
{
    if bytes.len() < 8 {
        return Err(not_whole(size));
    }
    let (front, rest) = bytes.split_at(8);
    let number = u64::from_be_bytes([
        front[0], front[1], front[2], front[3], front[4], front[5], front[6], front[7],
    ]);
    Ok((number, rest))
}

/// So many bytes, lent.
pub fn bytes_of(size: u32, count: usize, bytes: &[u8]) -> Result<(&[u8], &[u8]), DecodeFault>
    ensures read { Gives (λ x. (x.0.now, x.1.now)) result (bytes_at size count bytes.now) }
{
    if bytes.len() < count {
        return Err(not_whole(size));
    }
    let (front, rest) = bytes.split_at(count);
    Ok((front, rest))
}

/// A transaction id.
#[tactic(auto, unfolding(crate::specs::Reading::xid_at))]
pub fn xid_of(size: u32, bytes: &[u8]) -> Result<(Xid, &[u8]), DecodeFault>
    ensures read { Gives (λ x. (x.0, x.1.now)) result (xid_at size bytes.now) }
{
    let (usn, rest) = u16_at(size, bytes)?;
    let (slot, rest) = u16_at(size, rest)?;
    let (sqn, rest) = u32_at(size, rest)?;
    Ok((Xid { usn, slot, sqn }, rest))
}

/// A column from this one on.
pub(crate) fn rising_of(size: u32, from: u8, bytes: &[u8]) -> Result<(u8, &[u8]), DecodeFault>
    ensures read { Gives (λ x. (x.0, x.1.now)) result (rising_at size from bytes.now) }
    ensures below { IfOk result (λ x. x.0 < 32) }
{
    let (column, rest) = u8_at(size, bytes)?;
    if column < from || column > 31 {
        return Err(fault_at(VecFault::Cells, size, bytes));
    }
    Ok((column, rest))
}

/// The bytes of a text or a raw value, lent.
#[tactic(auto, unfolding(crate::specs::Reading::content_at))]
pub(crate) fn content_of(size: u32, bytes: &[u8]) -> Result<(&[u8], &[u8]), DecodeFault>
    ensures read { Gives (λ x. (x.0.now, x.1.now)) result (content_at size bytes.now) }
    ensures some { IfOk result (λ x. 1 ≤ length x.0.now) }
    ensures most { IfOk result (λ x. length x.0.now ≤ 500) }
{
    let (count, rest) = u16_at(size, bytes)?;
    if count == 0 {
        return Err(fault_at(VecFault::Empty, size, bytes));
    }
    if count > 500 {
        return Err(fault_at(VecFault::Size, size, bytes));
    }
    bytes_of(size, count as usize, rest)
}
