//! A piece: a cut record with what its bytes say.
//!
//! A record that does not decode is a piece too: it ends the redo only once its turn comes.

ghost use Rattle.std.specs.Prelude.{◌≡◌, [], Ok, IfOk, IfErr};
ghost use Rattle.redo_vec.specs.Cutting.{first_record};
ghost use Rattle.preparers.specs.Pieces.{made_of, piece_of};

use redo_vec::{DecodeFault, RedoRec, decode_record};
use redo_wire::{Header, Raw};
use rl_value::{Bytes, NoMemory, VecFault};
use std::alloc::Global;

/// A prepared record. Its first four fields are those of the cut record.
#[derive(Debug, Drop)]
pub struct Piece {
    /// The record's number, from 1 over all logs of a standby.
    pub rec: u64,
    /// The header of its log.
    pub head: Header,
    /// The offset in its log just past this record, in bytes; the 40 bytes of the header count.
    pub end: u64,
    /// How many records of its log are cut with it.
    pub done: u32,
    /// What its bytes say.
    pub made: Made,
}

/// What the bytes of a cut record say.
#[derive(Debug, Drop)]
pub enum Made {
    /// The record.
    Rec(RedoRec),
    /// The first fault in byte order, and its place: its offset in the record, in bytes.
    Bad { fault: VecFault, place: u32 },
}

impl Made {
    /// An equal one, which owns memory of its own.
    pub fn copy(&self) -> Result<Made, NoMemory>
        ensures equal { IfOk result (λ made. made ≡ self.now) }
    {
        match self {
            Made::Rec(rec) => Ok(Made::Rec(rec.copy()?)),
            Made::Bad { fault, place } => Ok(Made::Bad {
                fault: *fault,
                place: *place,
            }),
        }
    }
}

impl Piece {
    /// An equal one, which owns memory of its own.
    pub fn copy(&self) -> Result<Piece, NoMemory>
        ensures equal { IfOk result (λ piece. piece ≡ self.now) }
    {
        Ok(Piece {
            rec: self.rec,
            head: self.head,
            end: self.end,
            done: self.done,
            made: self.made.copy()?,
        })
    }
}

// What these bytes say.
fn decoded(alloc: Global, bytes: &Bytes) -> Result<Made, NoMemory>
    requires whole { first_record bytes.now ≡ Ok (bytes.now, []) }
    ensures exact { IfOk result (λ made. made ≡ made_of bytes.now) }
{
    match decode_record(alloc, bytes.bytes()) {
        Ok(rec) => Ok(Made::Rec(rec)),
        Err(DecodeFault::Vector { fault, place }) => Ok(Made::Bad { fault, place }),
        Err(DecodeFault::Memory) => Err(NoMemory),
    }
}

/// Decodes a cut record. For want of memory the record comes back.
pub fn prepare(alloc: Global, raw: Raw) -> Result<Piece, (NoMemory, Raw)>
    // The cutter takes its bytes as one record.
    requires whole { first_record raw.bytes ≡ Ok (raw.bytes, []) }
    ensures exact { IfOk result (λ piece. piece ≡ piece_of raw) }
    ensures back { IfErr result (λ refused. refused.1 ≡ raw) }
{
    match decoded(alloc, &raw.bytes) {
        Ok(made) => Ok(Piece {
            rec: raw.rec,
            head: raw.head,
            end: raw.end,
            done: raw.done,
            made,
        }),
        Err(NoMemory) => Err((NoMemory, raw)),
    }
}
