//! The slots of a window in their ring: where a cut record stands, and the change of one slot in its place.

ghost use Rattle.std.specs.Prelude.{◌≡◌, ◌+◌, ◌<◌, ◌≤◌, ◌++◌, List, [], length, take, drop, slice_get, slice_set, Some, is_some, IsTrue, IfSome, IfOk, OnOk, IfNone};
ghost use Rattle.circular_buffer.specs.Buffer.{buffer};
ghost use Rattle.preparers.specs.Pieces.{is_lent_slot};
ghost use Rattle.preparers.specs.Pending.{raws_of};
ghost use Rattle.preparers.specs.Ring.{raw_at_index, lent_at, is_lent_at, prepared_at};

use crate::piece::Piece;
use crate::slot::Slot;
use circular_buffer::HeapCircularBuffer;
use redo_wire::Raw;
use rl_value::NoMemory;

// Whether a cut record stands here.
fn is_raw_at(slots: &HeapCircularBuffer<Slot>, at: usize) -> bool
    ensures { result ≡ is_some (raw_at_index slots.now.items at) }
{
    match slots.get(at) {
        Some(slot) => slot.is_raw(),
        None => false,
    }
}

/// Where the first cut record stands.
pub(crate) fn least_at(slots: &HeapCircularBuffer<Slot>) -> Option<usize>
    ensures found { IfSome result (λ at. IsTrue (is_some (raw_at_index slots.now.items at)) ×
        (raws_of (take at slots.now.items) ≡ [])) }
    ensures none { IfNone result (raws_of slots.now.items ≡ []) }
{
    for at in 0..slots.len() {
        if is_raw_at(slots, at) {
            return Some(at);
        }
    }
    None
}

/// Where the last cut record stands.
pub(crate) fn greatest_at(slots: &HeapCircularBuffer<Slot>) -> Option<usize>
    ensures found { IfSome result (λ at. IsTrue (is_some (raw_at_index slots.now.items at)) ×
        (raws_of (drop (at + 1) slots.now.items) ≡ [])) }
    ensures none { IfNone result (raws_of slots.now.items ≡ []) }
{
    let mut end = slots.len();
    while end > 0 {
        end -= 1;
        if is_raw_at(slots, end) {
            return Some(end);
        }
    }
    None
}

/// Gives away the cut record that stands here.
pub(crate) fn lend_at(slots: &mut HeapCircularBuffer<Slot>, at: usize) -> Option<Raw>
    ensures raw { result ≡ raw_at_index slots.old.items at }
    ensures lent { slots.new ≡ buffer (lent_at slots.old.items at) slots.old.capacity }
{
    slots.get_mut(at)?.lend()
}

/// Takes the piece of the record that was lent from here.
pub(crate) fn put_at(slots: &mut HeapCircularBuffer<Slot>, at: usize, piece: Piece) -> bool
    ensures taken { result ≡ is_lent_at slots.old.items at }
    ensures put { slots.new ≡ buffer (prepared_at piece slots.old.items at) slots.old.capacity }
{
    match slots.get_mut(at) {
        Some(slot) => slot.put(piece),
        None => false,
    }
}

// Puts copies of these slots behind those that are there. The ring has room for them.
fn put_copies(slots: &mut HeapCircularBuffer<Slot>, from: &[Slot]) -> Result<(), NoMemory>
    requires room { length slots.old.items + length from.now ≤ slots.old.capacity }
    ensures put { OnOk result (slots.new ≡ buffer (slots.old.items ++ from.now) slots.old.capacity) }
{
    for slot in from {
        let _ = slots.push_back(slot.copy()?);
    }
    Ok(())
}

/// An equal ring, which owns memory of its own.
pub(crate) fn copied(slots: &HeapCircularBuffer<Slot>) -> Result<HeapCircularBuffer<Slot>, NoMemory>
    ensures equal { IfOk result (λ copies. copies ≡ slots.now) }
{
    let room = slots.capacity();
    let Ok(mut copies) = HeapCircularBuffer::with_capacity(*slots.allocator(), room) else {
        return Err(NoMemory);
    };
    let (front, back) = slots.as_slices();
    put_copies(&mut copies, front)?;
    put_copies(&mut copies, back)?;
    Ok(copies)
}
