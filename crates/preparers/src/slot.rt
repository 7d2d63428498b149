//! A slot of the window: one record, as far as it has come.

ghost use Rattle.std.specs.Prelude.{◌≡◌, IfOk, is_some};
ghost use Rattle.preparers.specs.Pieces.{raw_in, lent_slot, is_lent_slot, prepared_slot};

use crate::piece::Piece;
use redo_wire::Raw;
use rl_value::NoMemory;
use std::mem;

/// How far a record has come: cut, lent to a preparer, or prepared.
#[derive(Debug, Drop)]
pub(crate) enum Slot {
    Raw(Raw),
    Lent,
    Prepared(Piece),
}

impl Slot {
    /// Whether it has a cut record.
    pub(crate) fn is_raw(&self) -> bool
        ensures { result ≡ is_some (raw_in self.now) }
    {
        matches!(self, Slot::Raw(_))
    }

    /// Gives its cut record away.
    pub(crate) fn lend(&mut self) -> Option<Raw>
        ensures raw { result ≡ raw_in self.old }
        ensures lent { self.new ≡ lent_slot self.old }
    {
        match mem::replace(self, Slot::Lent) {
            Slot::Raw(raw) => Some(raw),
            other => {
                *self = other;
                None
            }
        }
    }

    /// Takes the piece of the record that it lent.
    pub(crate) fn put(&mut self, piece: Piece) -> bool
        ensures taken { result ≡ is_lent_slot self.old }
        ensures put { self.new ≡ prepared_slot piece self.old }
    {
        if let Slot::Lent = self {
            *self = Slot::Prepared(piece);
            return true;
        }
        false
    }

    /// An equal one, which owns memory of its own.
    pub(crate) fn copy(&self) -> Result<Slot, NoMemory>
        ensures equal { IfOk result (λ slot. slot ≡ self.now) }
    {
        match self {
            Slot::Raw(raw) => Ok(Slot::Raw(raw.copy()?)),
            Slot::Lent => Ok(Slot::Lent),
            Slot::Prepared(piece) => Ok(Slot::Prepared(piece.copy()?)),
        }
    }
}
