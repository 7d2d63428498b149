//! How far the reading has come: the log that is read, and the records that are cut and not yet given.
ghost use Rattle.std.specs.Prelude.{◌≡◌};
ghost use Rattle.redo_reader.specs.Reading.{place_after_raw};
ghost use Rattle.redo_reader.specs.Steps.{stop_of};

use crate::place::Place;
use redo_wire::{Cutter, Raw};
use rl_value::{Cause, CutFault, Stop};
use std::vec::IntoIter;

/// A log that is being read.
#[derive(Drop)]
pub(crate) struct OpenLog {
    pub cutter: Cutter,
    /// The log's length in bytes, as it was registered.
    pub length: u64,
    /// Where the next block is read.
    pub offset: u64,
    /// The fault that the cutter has told. It is given behind the records that wait.
    pub cause: Option<CutFault>,
}

/// How far the reading has come. Between two logs none is open; the front is then where the next one is begun.
#[derive(Drop)]
pub(crate) struct ReadingState {
    /// Behind the last record that was given.
    pub place: Place,
    /// Before the next record. It stands in another log than the place where that one has given all.
    pub front: Place,
    pub log: Option<OpenLog>,
    /// Records of the open log that are cut and not yet given.
    pub waiting: IntoIter<Raw>,
    pub block: Vec<u8>,
}

/// What ends the redo. It is told again at each later cut.
#[derive(Clone, Copy)]
pub(crate) enum RedoEnd {
    Drained,
    Gap { low: u32, high: u32 },
    Broken { rec: u64, fault: CutFault },
}

/// What comes next.
#[derive(Drop)]
pub(crate) enum Found {
    Raw(Raw),
    End(RedoEnd),
}

/// What comes at a front between two logs.
#[derive(Drop)]
pub(crate) enum Begun {
    Log(OpenLog),
    End(RedoEnd),
}

/// What a look into the open log gave.
#[derive(Drop)]
pub(crate) enum Look {
    Raws(Vec<Raw>),
    /// The log's records are at their end, with the fault that ended them.
    LogEnd(Option<CutFault>),
}

/// The end as callers see it.
pub(crate) fn told_stop(end: RedoEnd) -> Stop
    ensures { result ≡ stop_of end }
{
    match end {
        RedoEnd::Drained => Stop::Drained,
        RedoEnd::Gap { low, high } => Stop::Gap { low, high },
        RedoEnd::Broken { rec, fault } => Stop::Malformed {
            rec,
            cause: Cause::Cut(fault),
        },
    }
}

/// The place behind a record.
pub(crate) fn place_behind(raw: &Raw) -> Place
    ensures { result ≡ place_after_raw raw.now }
{
    Place {
        seq: raw.head.seq,
        at: raw.end,
        done: raw.done,
        rec: raw.rec,
    }
}
