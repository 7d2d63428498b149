//! Folds one log over empty tables: its records go from the reading side to the reference evaluator.
//!
//! An absent log is a gap, and a refused header a malformed first record. The database is the one that the log's own header
//! names; the log is then looked at for this database, and registered as the only one.
ghost use Rattle.std.specs.Prelude.{◌≡◌, ◌≢◌, ◌≤◌, [], ◌∷◌, IfOk, Err};
ghost use Rattle.rl_ports.specs.Faults.{NoneCounted, Told, Rose};
ghost use Rattle.redo_spec.specs.Fold.{fold_of_redo};
ghost use Rattle.redo_spec.specs.Redo.{fold_of_log};
ghost use Rattle.rl_value.specs.declared.cause.Cause.TheVariants.{Head};
ghost use Rattle.rl_value.specs.declared.verdict.Stop.TheVariants.{Malformed};
ghost use Rattle.log_registry.specs.Registered.{IsToldBy, AreToldBy, answer_of_look};
ghost use Rattle.log_registry.specs.declared.fault.RegFault.TheVariants.{ArchiveFault as ArchiveFaulted};
ghost use Rattle.redo_reader.specs.Ahead.{redo_ahead};
ghost use Rattle.primary.specs.Progress.{NoneWait};
ghost use Rattle.primary.specs.Starts.{folded_of};
ghost use Rattle.standby.specs.Folding.{progress_from, IsFoldRefused};
ghost use Rattle.standby.specs.declared.reading.FoldFault.TheVariants.{Failed as FoldFailed};

use crate::reading::{FoldFault, take_all};
use log_registry::{LogEntry, RegFault, Registry, inspect, look};
use primary::laws::{first_fold_is_of_the_redo, the_evaluator_folds};
use primary::{Evaluator, Folded, Plain};
use redo_reader::laws::the_reader_gives_the_redo;
use redo_reader::{Place, ReadSide};
use redo_wire::HEADER_LENGTH;
use rl_ports::Archive;
use rl_value::{Cause, HeadFault, NoMemory, Scn, Stop};
use std::alloc::Global;

/// What came of a fold, and the archive that was read.
#[derive(Drop)]
pub struct FoldedLog<A: Archive> {
    pub folded: Result<Folded, FoldFault>,
    pub archive: A,
}

// An evaluator before the first record of a redo over empty tables.
fn first_evaluator(alloc: Global, first: u32, base: Scn) -> Result<Evaluator, NoMemory>
    ensures begun { IfOk result (λ evaluator. evaluator ≡ progress_from first base []) }
    ensures none { IfOk result NoneWait }
{
    Evaluator::new(alloc, Plain::first(alloc, first, base))
}

// The fold of a redo without a record, of which no base is known.
fn without_records(alloc: Global, seq: u32, stop: Stop) -> Result<Folded, FoldFault>
    ensures folded { IfOk result (λ folded. folded_of folded ≡ fold_of_redo seq 0 [] stop) }
    ensures failed { result ≢ Err FoldFailed }
{
    match first_evaluator(alloc, seq, 0) {
        Ok(evaluator) => Ok(evaluator.finish(stop)),
        Err(NoMemory) => Err(FoldFault::Memory),
    }
}

fn bad_header(fault: HeadFault) -> Stop
    ensures { result ≡ Malformed 1 (Head fault) }
{
    Stop::Malformed {
        rec: 1,
        cause: Cause::Head(fault),
    }
}

// The fold of a log that is refused so.
fn refused(alloc: Global, seq: u32, fault: RegFault) -> Result<Folded, FoldFault>
    ensures folded { IfOk result (λ folded. IsFoldRefused seq fault (folded_of folded)) }
    ensures failed { result ≡ Err FoldFailed → fault ≡ ArchiveFaulted }
    ensures none { fault ≡ ArchiveFaulted → result ≡ Err FoldFailed }
{
    match fault {
        RegFault::NoLog => without_records(
            alloc,
            seq,
            Stop::Gap {
                low: seq,
                high: seq,
            },
        ),
        RegFault::BadHeader(fault) => without_records(alloc, seq, bad_header(fault)),
        RegFault::WrongDb => without_records(alloc, seq, bad_header(HeadFault::Dbid)),
        RegFault::ArchiveFault => Err(FoldFault::Failed),
    }
}

fn registry_of(alloc: Global, entry: LogEntry) -> Result<Registry, NoMemory>
    ensures { IfOk result (λ registry. registry ≡ entry ∷ []) }
{
    let mut registry = Registry::new(alloc);
    registry.insert(entry)?;
    Ok(registry)
}

// What the reading side gives from here on, folded.
fn folded_ahead<A: Archive>(alloc: Global, seq: u32, base: Scn, reader: ReadSide<A>) -> FoldedLog<A>
    requires first { reader.place.rec ≡ 0 }
    ensures folded { Told (A.logs reader.archive) (λ logs. AreToldBy logs reader.registry →
        IfOk result.folded (λ folded. folded_of folded ≡
        (let redo = redo_ahead logs reader.registry reader.place in fold_of_redo seq base redo.entries redo.stop))) }
    ensures logs { A.logs result.archive ≡ A.logs reader.archive }
    ensures failed { result.folded ≡ Err FoldFailed → Rose (A.faults reader.archive) (A.faults result.archive) }
    ensures none_passed_over { result.folded ≢ Err FoldFailed →
        NoneCounted A.counts_failures_alone (A.faults reader.archive) (A.faults result.archive) }
    ensures count { A.faults reader.archive ≤ A.faults result.archive }
{
    the_evaluator_folds();
    first_fold_is_of_the_redo();
    let mut reader = reader;
    match first_evaluator(alloc, seq, base) {
        Err(NoMemory) => FoldedLog {
            folded: Err(FoldFault::Memory),
            archive: reader.into_archive(),
        },
        Ok(evaluator) => match take_all(alloc, evaluator, &mut reader) {
            Ok((evaluator, stop)) => FoldedLog {
                folded: Ok(evaluator.finish(stop)),
                archive: reader.into_archive(),
            },
            Err(fault) => FoldedLog {
                folded: Err(fault),
                archive: reader.into_archive(),
            },
        },
    }
}

// The fold of a log that was looked at.
fn folded_entry<A: Archive>(alloc: Global, entry: LogEntry, archive: A) -> FoldedLog<A>
    ensures folded { Told (A.logs archive) (λ logs. IsToldBy logs entry →
        IfOk result.folded (λ folded. folded_of folded ≡ fold_of_log entry.head.seq (logs entry.head.seq))) }
    ensures logs { A.logs result.archive ≡ A.logs archive }
    ensures failed { result.folded ≡ Err FoldFailed → Rose (A.faults archive) (A.faults result.archive) }
    ensures none_passed_over { result.folded ≢ Err FoldFailed →
        NoneCounted A.counts_failures_alone (A.faults archive) (A.faults result.archive) }
    ensures count { A.faults archive ≤ A.faults result.archive }
{
    the_reader_gives_the_redo();
    let Ok(registry) = registry_of(alloc, entry) else {
        return FoldedLog {
            folded: Err(FoldFault::Memory),
            archive,
        };
    };
    let place = Place {
        seq: entry.head.seq,
        at: HEADER_LENGTH as u64,
        done: 0,
        rec: 0,
    };
    match ReadSide::new(alloc, archive, registry, place) {
        Err((NoMemory, archive)) => FoldedLog {
            folded: Err(FoldFault::Memory),
            archive,
        },
        // A redo follows the SCN before the first of its first log.
        Ok(reader) => folded_ahead(
            alloc,
            entry.head.seq,
            entry.head.first.saturating_sub(1),
            reader,
        ),
    }
}

// Looks at a log for the database that its own header names.
fn seen<A: Archive>(archive: &mut A, seq: u32) -> Result<LogEntry, RegFault>
    ensures exact { Told (A.logs archive.old) (λ logs. result ≢ Err ArchiveFaulted → result ≡ answer_of_look seq (logs seq)) }
    ensures of { Told (A.logs archive.old) (λ logs. IfOk result (IsToldBy logs)) }
    ensures sequence { IfOk result (λ entry. entry.head.seq ≡ seq) }
    ensures failed { result ≡ Err ArchiveFaulted → Rose (A.faults archive.old) (A.faults archive.new) }
    ensures none_passed_over { result ≢ Err ArchiveFaulted →
        NoneCounted A.counts_failures_alone (A.faults archive.old) (A.faults archive.new) }
    ensures count { A.faults archive.old ≤ A.faults archive.new }
    ensures logs { A.logs archive.new ≡ A.logs archive.old }
{
    match look(archive, seq) {
        Ok(entry) => inspect(archive, seq, entry.head.dbid),
        Err(fault) => Err(fault),
    }
}

/// The fold over empty tables of the log of this sequence, or of its absence.
pub fn folded_log<A: Archive>(alloc: Global, seq: u32, archive: A) -> FoldedLog<A>
    ensures folded { Told (A.logs archive) (λ logs.
        IfOk result.folded (λ folded. folded_of folded ≡ fold_of_log seq (logs seq))) }
    ensures logs { A.logs result.archive ≡ A.logs archive }
    ensures failed { result.folded ≡ Err FoldFailed → Rose (A.faults archive) (A.faults result.archive) }
    ensures none_passed_over { result.folded ≢ Err FoldFailed →
        NoneCounted A.counts_failures_alone (A.faults archive) (A.faults result.archive) }
    ensures count { A.faults archive ≤ A.faults result.archive }
{
    let mut archive = archive;
    match seen(&mut archive, seq) {
        Ok(entry) => folded_entry(alloc, entry, archive),
        Err(fault) => {
            let folded = refused(alloc, seq, fault);
            FoldedLog { folded, archive }
        }
    }
}
