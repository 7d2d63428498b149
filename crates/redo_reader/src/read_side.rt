//! The reading side: an archive, the registered logs, and how far they are read.
ghost use Rattle.std.specs.Prelude.{◌≡◌, ◌≢◌, [], ◌≤◌, ◌<◌, ◌+◌, ◌^◌, IfOk, OnErr, IfErr, IfSome, IsErrOf, None, Ok, Err};
ghost use Rattle.rl_ports.specs.Faults.{NoneCounted, Told, Rose};
ghost use Rattle.log_registry.specs.Registered.{AreToldBy, count_of, entry_of};
ghost use Rattle.redo_reader.specs.Ahead.{ahead};
ghost use Rattle.redo_reader.specs.Reading.{done_within, clamped_place, LeadsOn, told_end, GivesNext, GivesWaiting};
ghost use Rattle.redo_reader.specs.declared.cut.CutError.TheVariants.{ArchiveFault as ArchiveFaulted};
ghost use Rattle.redo_reader.specs.declared.cut.Cut.TheVariants.{End};

use crate::advance::advance;
use crate::cut::{Cut, CutError};
use crate::place::Place;
use crate::progress::{Found, ReadingState, RedoEnd, told_stop};
use log_registry::{Next, Registry};
use rl_ports::Archive;
use rl_value::NoMemory;
use std::alloc::Global;
use std::marker::Model;

// Bytes of a block.
const BLOCK: usize = 65_536;

// The greatest offset that a place may name.
const LAST_OFFSET: u64 = 0x3fff_ffff_ffff_ffff;

/// Reads the redo of the registered logs from a place on.
#[derive(Drop)]
pub struct ReadSide<A: Archive> {
    archive: A,
    registry: Registry,
    reading: ReadingState,
    stop: Option<RedoEnd>,
}

impl<A: Archive> Model for ReadSide<A> {
    ghost use Rattle.std.specs.Prelude.{◌<◌, length};
    ghost use Rattle.std.specs.Option.{option_map};
    ghost use Rattle.std.specs.Vec.Iter.{into_iter_items};
    ghost use Rattle.redo_reader.specs.Reading.{Reader};
    ghost use Rattle.redo_reader.specs.Steps.{IsSide, stop_of};

    ghost Value = { Reader A };

    ghost view = { λ r. record {
      archive = r.archive;
      registry = r.registry;
      place = r.reading.place;
      waiting = into_iter_items r.reading.waiting;
      stop = option_map stop_of r.stop;
    } };

    ghost invariant = { λ r. (0 < length r.reading.block.items) ×
        IsSide (A.logs r.archive) r.registry r.reading.place r.reading.front (into_iter_items r.reading.waiting)
        r.reading.log r.stop };
}

// The place that is taken for this one.
fn clamped(registry: &Registry, place: Place) -> Place
    ensures { result ≡ clamped_place registry.now place }
{
    let at = if place.at > LAST_OFFSET {
        LAST_OFFSET
    } else {
        place.at
    };
    Place {
        seq: place.seq,
        at,
        done: done_in(registry, place),
        rec: place.rec,
    }
}

// No more records of its log before the place than the log has.
fn done_in(registry: &Registry, place: Place) -> u32
    ensures { result ≡ done_within (entry_of place.seq registry.now) place.done }
{
    match registry.next(place.seq) {
        Next::Log(entry) => {
            if place.done <= entry.head.count {
                place.done
            } else {
                entry.head.count
            }
        }
        Next::End => place.done,
        Next::Gap { low: _, high: _ } => place.done,
    }
}

impl<A: Archive> ReadSide<A> {
    /// The reading side of this archive with these registered logs, before the record behind this place.
    ///
    /// A place that has more records of its log before it than the log has is taken as having all of them; an offset of 2^62 or
    /// more is taken as 2^62 - 1. Nothing is read yet. A refusal gives the archive back.
    pub fn new(
        alloc: Global,
        archive: A,
        registry: Registry,
        place: Place,
    ) -> Result<ReadSide<A>, (NoMemory, A)>
        requires room { place.rec + count_of registry < 2 ^ 63 }
        ensures begun { IfOk result (λ r. r ≡ record {
          archive = archive;
          registry = registry;
          place = clamped_place registry place;
          waiting = [];
          stop = None;
        }) }
        ensures back { IfErr result (λ e. e.1 ≡ archive) }
    {
        let Ok(block) = vec![in alloc; 0u8; BLOCK] else {
            return Err((NoMemory, archive));
        };
        let place = clamped(&registry, place);
        Ok(ReadSide {
            archive,
            registry,
            reading: ReadingState {
                place,
                front: place,
                log: None,
                waiting: Vec::new(alloc).into_iter(),
                block,
            },
            stop: None,
        })
    }

    /// The next record of the redo, or what ends it, and that again for good. It reads blocks of 65,536 bytes.
    pub fn cut(&mut self) -> Result<Cut, CutError>
        // The records that are ahead in order, and then what ends them, where the registered logs are the archive's.
        ensures exact { Told (A.logs self.old.archive) (λ logs. AreToldBy logs self.old.registry →
            IfOk result (λ cut. GivesNext cut (ahead logs self.old.registry self.old.place)
            (ahead logs self.new.registry self.new.place))) }
        ensures next { IfOk result (λ cut. LeadsOn cut self.old.place self.new.place) }
        // An end is told for good, by an archive that tells nothing too.
        ensures told { IfOk result (λ cut. self.new.stop ≡ told_end cut) }
        ensures again { IfSome self.old.stop (λ stop. IfOk result (λ cut. cut ≡ End stop)) }
        ensures unchanged { OnErr result (self.new.place ≡ self.old.place) }
        // Records that are cut are given before the archive is called again, and no refusal loses one.
        ensures waiting { self.old.stop ≡ None → GivesWaiting self.old self.new result }
        ensures none_lost { OnErr result (self.new.waiting ≡ self.old.waiting) }
        ensures kept { OnErr result (self.new.stop ≡ self.old.stop) }
        ensures registry { self.new.registry ≡ self.old.registry }
        ensures logs { A.logs self.new.archive ≡ A.logs self.old.archive }
        ensures failed { IsErrOf result ArchiveFaulted → Rose (A.faults self.old.archive) (A.faults self.new.archive) }
        // Behind any other answer the archive has counted no failure.
        ensures none_passed_over { result ≢ Err ArchiveFaulted →
            NoneCounted A.counts_failures_alone (A.faults self.old.archive) (A.faults self.new.archive) }
        ensures count { A.faults self.old.archive ≤ A.faults self.new.archive }
    {
        if let Some(end) = self.stop {
            return Ok(Cut::End(told_stop(end)));
        }
        match advance(&mut self.archive, &self.registry, &mut self.reading)? {
            Found::Raw(raw) => Ok(Cut::Raw(raw)),
            Found::End(end) => {
                self.stop = Some(end);
                Ok(Cut::End(told_stop(end)))
            }
        }
    }

    /// Gives the archive back.
    pub fn into_archive(self) -> A
        ensures same { result ≡ self.archive }
    {
        self.archive
    }
}
