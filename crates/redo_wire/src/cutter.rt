//! Cuts a log's bytes into redo records, in whatever pieces they come.
//!
//! The first fault in byte order is the one that is answered, and after it nothing more is given. Bytes of a
//! record that is not whole wait for the next piece: 65,535 of them at most. What a piece costs is linear in its
//! bytes and in those of the records that it completes. A record that stands whole in a piece is copied once, from there
//! to where it is kept; only one that two pieces share is put together first.
ghost use Rattle.std.specs.Prelude.{◌≡◌, ◌+◌, ◌-◌, ◌*◌, ◌≤◌, ◌<◌, ◌^◌, [], length, None, IfOk, OnOk, OnErr};
ghost use Rattle.redo_wire.specs.Records.{AreFramed};
ghost use Rattle.redo_wire.specs.Stream.{stream_at, cut_of_piece, stream_after, end_fault};

use crate::cutting::{LogPlace, Taken, is_front, taken_behind};
use crate::numbers::byte_in;
use crate::raw::{Fed, Raws};
use redo_spec::Header;
use rl_value::{CutFault, NoMemory};
use std::alloc::Global;
use std::marker::Model;

/// The bytes of one log as they come, behind its header.
#[derive(Debug, Drop)]
pub struct Cutter {
    head: Header,
    place: LogPlace,
    left: Vec<u8>,
    fault_told: bool,
}

impl Model for Cutter {
    ghost use Rattle.redo_wire.specs.Stream.{Stream, NumbersFit};

    ghost Value = { Stream };

    ghost view = { λ c. record { head = c.head; place = c.place; left = c.left.items; fault_told = c.fault_told } };

    ghost invariant = { λ c. NumbersFit c.head c.place };
}

fn byte_across(front: &[u8], rest: &[u8], at: usize) -> u8 {
    if at < front.len() {
        front[at]
    } else {
        byte_in(rest, at - front.len())
    }
}

// How many bytes of the piece the record that begins in the waiting ones lacks, by the length in its first four bytes. Where
// none wait it lacks none. What is given does not depend on this number; it says which bytes are copied twice.
fn lacking(waiting: &[u8], piece: &[u8]) -> usize
    ensures { result ≤ length piece.now }
{
    if waiting.is_empty() {
        return 0;
    }
    let size = u32::from_be_bytes([
        byte_across(waiting, piece, 0),
        byte_across(waiting, piece, 1),
        byte_across(waiting, piece, 2),
        byte_across(waiting, piece, 3),
    ]) as usize;
    let lacks = size.saturating_sub(waiting.len());
    if lacks < piece.len() {
        lacks
    } else {
        piece.len()
    }
}

fn nothing(alloc: Global) -> Fed
    ensures raws { result.raws ≡ [] }
    ensures cause { result.cause ≡ None }
{
    Fed {
        raws: Raws::of(Vec::new(alloc)),
        cause: None,
    }
}

impl Cutter {
    /// A cutter of the log with this header. The next record has the number `rec` over all logs, stands at the
    /// offset `at` in this log, and `done` records of this log were cut before. It takes no memory.
    pub fn new(alloc: Global, head: Header, rec: u64, at: u64, done: u32) -> Cutter
        requires done { done ≤ head.count }
        requires at { at < 2 ^ 63 }
        requires rec { rec + (head.count - done) < 2 ^ 64 }
        ensures begun { result ≡ stream_at head rec at done }
    {
        Cutter {
            head,
            place: LogPlace { rec, at, done },
            left: Vec::new(alloc),
            fault_told: false,
        }
    }

    /// Takes the next bytes of the log, and gives the records that they complete, and the first fault. After a
    /// fault it gives nothing more. The cost is linear in the bytes of the piece and of the records that it completes.
    pub fn feed(&mut self, piece: &[u8]) -> Result<Fed, NoMemory>
        ensures raws { IfOk result (λ x. x.raws ≡ (cut_of_piece self.old piece.now).raws) }
        ensures cause { IfOk result (λ x. x.cause ≡ (cut_of_piece self.old piece.now).cause) }
        // Records that stand one behind the other, each whole.
        ensures framed { IfOk result (λ x. AreFramed self.old.head self.old.place x.raws) }
        ensures next { OnOk result (self.new ≡ stream_after self.old piece.now) }
        ensures unchanged { OnErr result (self.new ≡ self.old) }
    {
        let alloc = *self.left.allocator();
        if self.fault_told {
            return Ok(nothing(alloc));
        }
        let waiting = self.left.len();
        let lacks = lacking(&self.left, piece);
        let (front, rest) = piece.split_at(lacks);
        if self.left.extend_from_slice(front).is_err() {
            return Err(NoMemory);
        }
        if rest.is_empty() && is_front(self.head, self.place, &self.left) {
            return Ok(nothing(alloc));
        }
        match taken_behind(alloc, self.head, self.place, &self.left, rest) {
            Ok(
                Taken {
                    raws,
                    place,
                    left,
                    cause,
                },
            ) => {
                self.place = place;
                self.left = left;
                self.fault_told = cause.is_some();
                Ok(Fed {
                    raws: Raws::of(raws),
                    cause,
                })
            }
            Err(NoMemory) => {
                self.left.truncate(waiting);
                Err(NoMemory)
            }
        }
    }

    /// What the end of the log's bytes tells: Truncated where they end before all of its records were cut, unless
    /// a fault was given before.
    pub fn finish(&self) -> Option<CutFault>
        ensures exact { result ≡ end_fault self.now }
    {
        if self.fault_told || self.place.done == self.head.count {
            None
        } else {
            Some(CutFault::Truncated)
        }
    }

    /// A cutter that goes on from here by itself.
    pub fn copy(&self) -> Result<Cutter, NoMemory>
        ensures equal { IfOk result (λ cutter. cutter ≡ self.now) }
    {
        match Vec::from_slice(*self.left.allocator(), self.left.as_slice()) {
            Ok(left) => Ok(Cutter {
                head: self.head,
                place: self.place,
                left,
                fault_told: self.fault_told,
            }),
            Err(_) => Err(NoMemory),
        }
    }
}
