//! The prepare window: records come in by number, are decoded in any order, and go out by number.
//!
//! A record is cut, then lent to a preparer, then prepared. At most 64 are in the window. The room for all of them
//! is taken when the window is made, so that no call that changes it takes memory.

ghost use Rattle.std.specs.Prelude.{◌≡◌, ◌≤◌, [], length, All, Ok, IfOk, IfSome};
ghost use Rattle.redo_vec.specs.Cutting.{first_record};
ghost use Rattle.preparers.specs.Pending.{Pending, none_pending, posting, after_post, raws_of, least_raw, greatest_raw, after_lend, is_lent, after_prepared, drawn_piece, after_draw, IsWindow};

use crate::piece::Piece;
use crate::ring::{copied, greatest_at, least_at, lend_at, put_at};
use crate::slot::Slot;
use circular_buffer::HeapCircularBuffer;
use redo_wire::Raw;
use rl_value::NoMemory;
use std::alloc::Global;
use std::marker::Model;

/// How many records may be posted and not drawn.
pub const MAX_PENDING: u64 = 64;

/// Why a record is not posted. It comes back.
#[derive(Debug, Drop)]
pub enum Unposted {
    /// Its number is not the next one.
    NotNext(Raw),
    /// 64 records are not drawn.
    Full(Raw),
}

impl Unposted {
    /// An equal one, which owns memory of its own.
    pub fn copy(&self) -> Result<Unposted, NoMemory>
        ensures equal { IfOk result (λ unposted. unposted ≡ self.now) }
    {
        match self {
            Unposted::NotNext(raw) => Ok(Unposted::NotNext(raw.copy()?)),
            Unposted::Full(raw) => Ok(Unposted::Full(raw.copy()?)),
        }
    }
}

/// The window. To a contract it is the number of the first record that is not drawn, and how far each record from
/// it on has come.
#[derive(Drop)]
pub struct Window {
    // One more than the greatest number once that one is drawn, so a `u64` is too short.
    first: u128,
    slots: HeapCircularBuffer<Slot>,
}

impl Model for Window {
    ghost use Rattle.std.specs.Prelude.{◌≡◌};
    ghost use Rattle.preparers.specs.Pending.{Pending, pending, IsWindow};

    ghost Value = { Pending };

    ghost view = { λ w. pending w.first w.slots.items };

    ghost invariant = { λ w. (w.slots.capacity ≡ 64) × IsWindow (pending w.first w.slots.items) };
}

impl Window {
    /// A window into which the record of this number comes first.
    pub fn new(alloc: Global, next: u64) -> Result<Window, NoMemory>
        ensures empty { IfOk result (λ window. window ≡ none_pending next) }
    {
        match HeapCircularBuffer::with_capacity(alloc, MAX_PENDING as usize) {
            Ok(slots) => Ok(Window {
                first: u128::from(next),
                slots,
            }),
            Err(_) => Err(NoMemory),
        }
    }

    /// Posts a cut record. It has to be the next one, and then at most 63 may be not drawn.
    pub fn post(&mut self, raw: Raw) -> Result<(), Unposted>
        // The cutter takes its bytes as one record.
        requires whole { first_record raw.bytes ≡ Ok (raw.bytes, []) }
        ensures exact { result ≡ posting raw self.old }
        ensures posted { self.new ≡ after_post raw self.old }
    {
        if u128::from(raw.rec) != self.first + self.slots.len() as u128 {
            return Err(Unposted::NotNext(raw));
        }
        if self.slots.is_full() {
            return Err(Unposted::Full(raw));
        }
        let _ = self.slots.push_back(Slot::Raw(raw));
        Ok(())
    }

    /// Lends the cut record of least number.
    pub fn lend(&mut self) -> Option<Raw>
        ensures exact { result ≡ least_raw self.old }
        ensures lent { self.new ≡ after_lend result self.old }
        ensures least { IfSome result (λ raw. All (λ other. raw.rec ≤ other.rec) (raws_of self.old.slots)) }
        // The cutter takes its bytes as one record.
        ensures whole { IfSome result (λ raw. first_record raw.bytes ≡ Ok (raw.bytes, [])) }
        ensures stands { IsWindow self.old }
    {
        let at = least_at(&self.slots)?;
        lend_at(&mut self.slots, at)
    }

    /// Lends the cut record of greatest number.
    pub fn lend_last(&mut self) -> Option<Raw>
        ensures exact { result ≡ greatest_raw self.old }
        ensures lent { self.new ≡ after_lend result self.old }
        ensures greatest { IfSome result (λ raw. All (λ other. other.rec ≤ raw.rec) (raws_of self.old.slots)) }
        // The cutter takes its bytes as one record.
        ensures whole { IfSome result (λ raw. first_record raw.bytes ≡ Ok (raw.bytes, [])) }
        ensures stands { IsWindow self.old }
    {
        let at = greatest_at(&self.slots)?;
        lend_at(&mut self.slots, at)
    }

    /// Takes back the piece of a lent record. A piece whose number is not lent is dropped.
    pub fn prepared(&mut self, piece: Piece) -> bool
        ensures exact { result ≡ is_lent piece.rec self.old }
        ensures prepared { self.new ≡ after_prepared piece self.old }
    {
        let Some(at) = u128::from(piece.rec).checked_sub(self.first) else {
            return false;
        };
        put_at(&mut self.slots, at as usize, piece)
    }

    /// Draws the piece of the first number, where it is prepared.
    pub fn draw(&mut self) -> Option<Piece>
        ensures exact { result ≡ drawn_piece self.old }
        ensures drawn { self.new ≡ after_draw self.old }
        ensures number { IfSome result (λ piece. piece.rec ≡ self.old.first) }
    {
        let Some(Slot::Prepared(_)) = self.slots.front() else {
            return None;
        };
        let Some(Slot::Prepared(piece)) = self.slots.pop_front() else {
            unreachable!()
        };
        self.first += 1;
        Some(piece)
    }

    /// How many records are posted and not drawn.
    pub fn waiting(&self) -> u64
        ensures count { result ≡ length self.now.slots }
        ensures stands { IsWindow self.now }
    {
        self.slots.len() as u64
    }

    /// An equal one, which owns memory of its own.
    pub fn copy(&self) -> Result<Window, NoMemory>
        ensures equal { IfOk result (λ window. window ≡ self.now) }
    {
        let slots = copied(&self.slots)?;
        Ok(Window {
            first: self.first,
            slots,
        })
    }
}
