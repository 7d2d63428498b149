//! Shows a log as its bytes come, in whatever pieces (specs/Streaming.antt).
//!
//! What is held is the tables that are known, at most 256, and the bytes of the record that has begun.
ghost use Rattle.std.specs.Prelude.{◌≡◌, ◌+◌, ◌++◌, ◌≤◌, [], length, take, drop, Ok, Err, None, IfOk, OnOk, IsTrue, true, false};
ghost use Rattle.std.specs.List.{AllByRecursion};
ghost use Rattle.redo_vec.specs.Cutting.{first_record};
ghost use Rattle.redo_vec.specs.Reading.{record_at};
ghost use Rattle.redo_wire.specs.Stream.{cut_of_piece, stream_after, end_fault};
ghost use Rattle.redo_text.specs.Streaming.{capped, fault_bytes, raw_text, raw_after, raws_text, raws_after, cut_text, cut_after, shown_at, piece_text, piece_after, end_text, end_ended};

use crate::fault_line::{LogFault, show_fault};
use crate::showing::show_record;
use redo_lines::push_bytes;
use redo_spec::Header;
use redo_vec::{DecodeFault, RedoRec, TableRow, decode_record};
use redo_wire::{Cutter, HEADER_LENGTH, Raw};
use rl_value::{CutFault, NoMemory, VecFault};
use std::alloc::Global;
use std::marker::Model;

const FAULT_BYTES: usize = 16;

/// What is shown so far: the tables that are known, and where the next record is.
#[derive(Debug, Drop)]
pub struct Place {
    tables: Vec<TableRow>,
    rec: u64,
    at: u64,
    ended: bool,
}

impl Model for Place {
    ghost use Rattle.redo_text.specs.Streaming.{Place as Where};

    ghost Value = { Where };

    ghost view = { λ p. record { tables = p.tables.items; rec = p.rec; at = p.at; ended = p.ended } };
}

fn sum_of(a: u64, b: u64) -> u64
    ensures { result ≡ capped (a + b) }
{
    match a.checked_add(b) {
        Some(sum) => sum,
        None => u64::MAX,
    }
}

// The bytes at a fault, as many as are shown.
fn bytes_at(bytes: &[u8], place: u32) -> &[u8]
    ensures bytes { result.now ≡ take fault_bytes (drop place bytes.now) }
    ensures few { length result.now ≤ 30 }
{
    let place = place as usize;
    if place >= bytes.len() {
        return &[];
    }
    let rest = &bytes[place..];
    if rest.len() < FAULT_BYTES {
        return rest;
    }
    &rest[..FAULT_BYTES]
}

impl Place {
    fn new(alloc: Global) -> Place
        ensures { result ≡ record { tables = []; rec = 1; at = 40; ended = false } }
    {
        Place {
            tables: Vec::new(alloc),
            rec: 1,
            at: HEADER_LENGTH as u64,
            ended: false,
        }
    }

    // A record that was read.
    fn with_record(
        self,
        alloc: Global,
        raw: &Raw,
        rec: &RedoRec,
    ) -> Result<(Place, Vec<u8>), NoMemory>
        requires read { record_at raw.now.bytes ≡ Ok rec.now }
        ensures text { IfOk result (λ x. x.1.items ≡ raw_text self raw.now (record_at raw.now.bytes)) }
        ensures after { IfOk result (λ x. x.0 ≡ raw_after self raw.now (record_at raw.now.bytes)) }
    {
        let Place {
            mut tables,
            rec: _,
            at: _,
            ended,
        } = self;
        let text = show_record(alloc, &mut tables, rec)?;
        Ok((
            Place {
                tables,
                rec: sum_of(raw.rec, 1),
                at: raw.end,
                ended,
            },
            text,
        ))
    }

    // A record that does not decode.
    fn with_fault(
        self,
        alloc: Global,
        raw: &Raw,
        fault: VecFault,
        place: u32,
    ) -> Result<(Place, Vec<u8>), NoMemory>
        requires read { record_at raw.now.bytes ≡ Err (record { fault = fault; place = place }) }
        ensures text { IfOk result (λ x. x.1.items ≡ raw_text self raw.now (record_at raw.now.bytes)) }
        ensures after { IfOk result (λ x. x.0 ≡ raw_after self raw.now (record_at raw.now.bytes)) }
    {
        let Place {
            tables,
            rec,
            at,
            ended: _,
        } = self;
        let offset = sum_of(at, u64::from(place));
        let bytes = bytes_at(raw.bytes.bytes(), place);
        let text = show_fault(alloc, raw.rec, LogFault::Vector(fault), offset, bytes)?;
        Ok((
            Place {
                tables,
                rec,
                at,
                ended: true,
            },
            text,
        ))
    }

    fn with_raw(self, alloc: Global, raw: &Raw) -> Result<(Place, Vec<u8>), NoMemory>
        requires whole { first_record raw.now.bytes ≡ Ok (raw.now.bytes, []) }
        ensures text { IfOk result (λ x. x.1.items ≡ raw_text self raw.now (record_at raw.now.bytes)) }
        ensures after { IfOk result (λ x. x.0 ≡ raw_after self raw.now (record_at raw.now.bytes)) }
    {
        match decode_record(alloc, raw.bytes.bytes()) {
            Ok(rec) => self.with_record(alloc, raw, &rec),
            Err(DecodeFault::Vector { fault, place }) => {
                self.with_fault(alloc, raw, fault, place)
            }
            Err(DecodeFault::Memory) => Err(NoMemory),
        }
    }

    // A fault of the cutter.
    fn with_cut(self, alloc: Global, cause: Option<CutFault>) -> Result<(Place, Vec<u8>), NoMemory>
        ensures text { IfOk result (λ x. x.1.items ≡ cut_text self cause) }
        ensures after { IfOk result (λ x. x.0 ≡ cut_after self cause) }
    {
        let Some(fault) = cause else {
            return Ok((self, Vec::new(alloc)));
        };
        let Place {
            tables,
            rec,
            at,
            ended,
        } = self;
        let text = if ended {
            Vec::new(alloc)
        } else {
            show_fault(alloc, rec, LogFault::Cut(fault), at, &[])?
        };
        Ok((
            Place {
                tables,
                rec,
                at,
                ended: true,
            },
            text,
        ))
    }

    fn with_raws(self, alloc: Global, raws: &[Raw]) -> Result<(Place, Vec<u8>), NoMemory>
        requires whole { AllByRecursion (λ raw. first_record raw.bytes ≡ Ok (raw.bytes, [])) raws.now }
        ensures text { IfOk result (λ x. x.1.items ≡ raws_text self raws.now) }
        ensures after { IfOk result (λ x. x.0 ≡ raws_after self raws.now) }
    {
        let mut out = Vec::new(alloc);
        let mut place = self;
        let mut rest = raws;
        while let [raw, others @ ..] = rest {
            if place.ended {
                return Ok((place, out));
            }
            let (next, text) = place.with_raw(alloc, raw)?;
            push_bytes(&mut out, text.as_slice())?;
            place = next;
            rest = others;
        }
        Ok((place, out))
    }
}

/// A log that is shown so far.
#[derive(Debug, Drop)]
pub struct Shown {
    cutter: Cutter,
    place: Place,
}

impl Model for Shown {
    ghost use Rattle.redo_text.specs.Streaming.{Shown as SoFar};

    ghost Value = { SoFar };

    ghost view = { λ s. record { stream = s.cutter; place = s.place } };
}

impl Shown {
    /// Behind the header, of which `show_header` gives the lines. It takes no memory.
    pub fn new(alloc: Global, head: Header) -> Shown
        ensures begun { result ≡ shown_at head }
    {
        Shown {
            cutter: Cutter::new(alloc, head, 1, HEADER_LENGTH as u64, 0),
            place: Place::new(alloc),
        }
    }

    /// The lines that the next bytes of the log add: those of the records that they complete, and of the first fault. After a
    /// fault they add nothing. After a refusal nothing is left to go on with.
    #[tactic(auto, using(crate::proofs::Framed::framed_whole))]
    pub fn feed(self, alloc: Global, piece: &[u8]) -> Result<(Shown, Vec<u8>), NoMemory>
        ensures text { IfOk result (λ x. x.1.items ≡ piece_text self piece.now) }
        ensures next { IfOk result (λ x. x.0 ≡ piece_after self piece.now) }
    {
        let Shown { mut cutter, place } = self;
        let fed = cutter.feed(piece)?;
        let (place, mut text) = place.with_raws(alloc, fed.raws.items())?;
        let (place, fault) = place.with_cut(alloc, fed.cause)?;
        push_bytes(&mut text, fault.as_slice())?;
        Ok((Shown { cutter, place }, text))
    }

    /// Whether a fault was shown.
    pub fn has_ended(&self) -> bool
        ensures exact { result ≡ self.now.place.ended }
    {
        self.place.ended
    }

    /// The line that the end of the log's bytes adds, where records are missing and no fault was shown; and whether a fault is
    /// shown now, by this line or an earlier one.
    pub fn finish(self, alloc: Global) -> Result<(Vec<u8>, bool), NoMemory>
        ensures text { IfOk result (λ x. x.0.items ≡ end_text self) }
        ensures ended { IfOk result (λ x. x.1 ≡ end_ended self) }
    {
        let Shown { cutter, place } = self;
        let (place, text) = place.with_cut(alloc, cutter.finish())?;
        Ok((text, place.ended))
    }
}
