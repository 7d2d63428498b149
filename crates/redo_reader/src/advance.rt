//! The steps between two cuts: a log is begun, a block of it is cut into records, its end is told.
ghost use Rattle.std.specs.Prelude.{◌≡◌, ◌≢◌, ◌+◌, ◌-◌, ◌^◌, ◌<◌, ◌≤◌, [], None, Some, IfOk, IfSome, OnErr, Err, IsErrOf, length};
ghost use Rattle.std.specs.Vec.Iter.{into_iter_items};
ghost use Rattle.rl_ports.specs.Faults.{NoneCounted, Told, Rose};
ghost use Rattle.log_registry.specs.Registered.{AreToldBy};
ghost use Rattle.redo_reader.specs.declared.cut.CutError.TheVariants.{ArchiveFault as ArchiveFaulted};
ghost use Rattle.redo_reader.specs.Ahead.{ahead};
ghost use Rattle.redo_reader.specs.Reading.{LeadsOn, GivesNext};
ghost use Rattle.redo_reader.specs.Steps.{IsClosed, BeginsBy, IsReading, EndsAt, open_log_at, distance, cut_of, FirstFound};

use crate::blocks::look_on;
use crate::cut::CutError;
use crate::place::Place;
use crate::progress::{Begun, Found, Look, OpenLog, ReadingState, RedoEnd, place_behind};
use log_registry::{LogEntry, Next, Registry};
use redo_wire::{Cutter, HEADER_LENGTH};
use rl_ports::Archive;
use std::alloc::Global;

// Opens a log at this place in it.
fn open_log(alloc: Global, entry: &LogEntry, front: Place) -> OpenLog
    requires done { front.done ≤ entry.now.head.count }
    requires at { front.at < 2 ^ 62 }
    requires room { front.rec + (entry.now.head.count - front.done) < 2 ^ 63 }
    ensures { result ≡ open_log_at entry.now front }
{
    OpenLog {
        cutter: Cutter::new(alloc, entry.head, front.rec + 1, front.at, front.done),
        length: entry.length,
        offset: front.at,
        cause: None,
    }
}

// Begins the log of the front, or tells the end.
fn begin(alloc: Global, registry: &Registry, front: Place) -> Begun
    requires { IsClosed registry.now front [] }
    ensures { BeginsBy registry.now front result }
{
    match registry.next(front.seq) {
        Next::End => Begun::End(RedoEnd::Drained),
        Next::Gap { low, high } => Begun::End(RedoEnd::Gap { low, high }),
        Next::Log(entry) => Begun::Log(open_log(alloc, entry, front)),
    }
}

// One step, where nothing waits.
fn step<A: Archive>(
    archive: &mut A,
    registry: &Registry,
    reading: &mut ReadingState,
) -> Result<Option<RedoEnd>, CutError>
    requires none { into_iter_items reading.old.waiting ≡ [] }
    requires block { 0 < length reading.old.block.items }
    requires stands { IsReading (A.logs archive.old) registry.now reading.old.place reading.old.front
        (into_iter_items reading.old.waiting) reading.old.log }
    ensures stands { IsReading (A.logs archive.new) registry.now reading.new.place reading.new.front
        (into_iter_items reading.new.waiting) reading.new.log }
    ensures ends { IfOk result (λ end. IfSome end (EndsAt (A.logs archive.old) registry.now reading.old.place)) }
    ensures nearer { IfOk result (λ end. end ≡ None → distance reading.new.front reading.new.log <
        distance reading.old.front reading.old.log) }
    ensures place { reading.new.place ≡ reading.old.place }
    ensures none_lost { OnErr result (into_iter_items reading.new.waiting ≡ into_iter_items reading.old.waiting) }
    ensures block { 0 < length reading.new.block.items }
    ensures logs { A.logs archive.new ≡ A.logs archive.old }
    ensures failed { IsErrOf result ArchiveFaulted → Rose (A.faults archive.old) (A.faults archive.new) }
    ensures none_passed_over { result ≢ Err ArchiveFaulted →
        NoneCounted A.counts_failures_alone (A.faults archive.old) (A.faults archive.new) }
    ensures count { A.faults archive.old ≤ A.faults archive.new }
{
    let Some(log) = &mut reading.log else {
        match begin(*reading.block.allocator(), registry, reading.front) {
            Begun::End(end) => return Ok(Some(end)),
            Begun::Log(log) => {
                reading.log = Some(log);
                return Ok(None);
            }
        }
    };
    match look_on(archive, reading.front.seq, log, &mut reading.block)? {
        Look::Raws(raws) => {
            reading.waiting = raws.into_iter();
            Ok(None)
        }
        Look::LogEnd(Some(fault)) => Ok(Some(RedoEnd::Broken {
            rec: reading.front.rec + 1,
            fault,
        })),
        Look::LogEnd(None) => {
            if reading.front.seq == u32::MAX {
                return Ok(Some(RedoEnd::Drained));
            }
            reading.log = None;
            reading.front = Place {
                seq: reading.front.seq + 1,
                at: HEADER_LENGTH as u64,
                done: 0,
                rec: reading.front.rec,
            };
            Ok(None)
        }
    }
}

/// The next record, or what ends the redo.
pub(crate) fn advance<A: Archive>(
    archive: &mut A,
    registry: &Registry,
    reading: &mut ReadingState,
) -> Result<Found, CutError>
    requires block { 0 < length reading.old.block.items }
    requires stands { IsReading (A.logs archive.old) registry.now reading.old.place reading.old.front
        (into_iter_items reading.old.waiting) reading.old.log }
    ensures exact { Told (A.logs archive.old) (λ logs. AreToldBy logs registry.now →
        IfOk result (λ found. GivesNext (cut_of found) (ahead logs registry.now reading.old.place)
        (ahead logs registry.now reading.new.place))) }
    ensures next { IfOk result (λ found. LeadsOn (cut_of found) reading.old.place reading.new.place) }
    ensures stands { IsReading (A.logs archive.new) registry.now reading.new.place reading.new.front
        (into_iter_items reading.new.waiting) reading.new.log }
    ensures block { 0 < length reading.new.block.items }
    ensures unchanged { OnErr result (reading.new.place ≡ reading.old.place) }
    ensures waiting { FirstFound (into_iter_items reading.old.waiting) (into_iter_items reading.new.waiting)
        (archive.new ≡ archive.old) result }
    ensures none_lost { OnErr result (into_iter_items reading.new.waiting ≡ into_iter_items reading.old.waiting) }
    ensures logs { A.logs archive.new ≡ A.logs archive.old }
    ensures failed { IsErrOf result ArchiveFaulted → Rose (A.faults archive.old) (A.faults archive.new) }
    ensures none_passed_over { result ≢ Err ArchiveFaulted →
        NoneCounted A.counts_failures_alone (A.faults archive.old) (A.faults archive.new) }
    ensures count { A.faults archive.old ≤ A.faults archive.new }
{
    loop {
        if let Some(raw) = reading.waiting.next() {
            reading.place = place_behind(&raw);
            reading.front = reading.place;
            return Ok(Found::Raw(raw));
        }
        if let Some(end) = step(archive, registry, reading)? {
            return Ok(Found::End(end));
        }
    }
}
