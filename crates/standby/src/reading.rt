//! Hands the records of the redo to the evaluator one by one, as the reading side cuts them.
//!
//! A record that doesn't decode ends the redo, and so does what the reading side tells behind the last one. Where the fold
//! has ended before, by a bad record, a miss or the row limit, no more is read. No more of a log is held than the block that
//! is read, the records that it completes, and up to 65,535 bytes of a record that is not whole.
ghost use Rattle.std.specs.Prelude.{◌≡◌, ◌≢◌, ◌≤◌, ◌<◌, ◌+◌, ◌^◌, [], IfOk, OnOk, Err, None, Ok};
ghost use Rattle.rl_ports.specs.Faults.{NoneCounted, Told, Rose};
ghost use Rattle.redo_vec.specs.Cutting.{first_record};
ghost use Rattle.log_registry.specs.Registered.{AreToldBy};
ghost use Rattle.redo_reader.specs.Ahead.{redo_ahead};
ghost use Rattle.primary.specs.Progress.{recs_of, NoneWait};
ghost use Rattle.standby.specs.Folding.{TakesRaw, Steps, EndsAs, stop_behind};
ghost use Rattle.standby.specs.declared.reading.FoldFault.TheVariants.{Failed as FoldFailed};

use primary::laws::no_rows_are_sound;
use primary::{Evaluator, TakeFault};
use redo_reader::{Cut, CutError, ReadSide};
use redo_vec::{DecodeFault, decode_record};
use redo_wire::Raw;
use rl_ports::Archive;
use rl_value::{Cause, NoMemory, Stop};
use skip_guard::Skips;
use std::alloc::Global;

/// Why a log could not be folded.
#[derive(Clone, Copy, Debug)]
pub enum FoldFault {
    /// A call of the archive failed.
    Failed,
    /// There is no memory.
    Memory,
}

impl From<NoMemory> for FoldFault {
    ghost use Rattle.std.specs.Prelude.{◌≡◌};
    ghost use Rattle.standby.specs.declared.reading.FoldFault.TheVariants as faults;

    ghost from_gives = { λ _ e. e ≡ faults.Memory };

    fn from(_: NoMemory) -> FoldFault {
        FoldFault::Memory
    }
}

impl From<CutError> for FoldFault {
    ghost use Rattle.std.specs.Prelude.{◌≡◌};
    ghost use Rattle.standby.specs.Folding.{cut_fault};

    ghost from_gives = { λ fault e. e ≡ cut_fault fault };

    fn from(fault: CutError) -> FoldFault {
        match fault {
            CutError::ArchiveFault => FoldFault::Failed,
            CutError::Memory => FoldFault::Memory,
        }
    }
}

/// What became of a record.
#[derive(Drop)]
pub enum Took {
    /// The evaluator took it, and goes on.
    On,
    /// With it the evaluator has ended: no later record changes the fold.
    Ended,
    /// It doesn't decode, and the evaluator saw nothing of it.
    Undecoded(Cause),
}

// Hands a record to the evaluator, if it decodes. It gives back the evaluator, and what became of the record.
fn take_raw(alloc: Global, evaluator: Evaluator, raw: &Raw) -> Result<(Evaluator, Took), NoMemory>
    requires whole { first_record raw.now.bytes ≡ Ok (raw.now.bytes, []) }
    requires numbered { recs_of evaluator + 1 < 2 ^ 64 }
    requires none { NoneWait evaluator }
    ensures taken { IfOk result (λ handed. TakesRaw raw.now evaluator handed.0 handed.1) }
    ensures number { IfOk result (λ handed. recs_of handed.0 ≤ recs_of evaluator + 1) }
    ensures none { IfOk result (λ handed. NoneWait handed.0) }
{
    no_rows_are_sound();
    match decode_record(alloc, raw.bytes.bytes()) {
        Ok(rec) => match evaluator.take(&raw.head, rec, &Skips::new(alloc)) {
            Ok(next) => {
                if next.is_going() {
                    return Ok((next, Took::On));
                }
                Ok((next, Took::Ended))
            }
            Err(TakeFault::Unsound) => unreachable!(),
            Err(TakeFault::Memory) => Err(NoMemory),
        },
        Err(DecodeFault::Vector { fault, place }) => {
            Ok((evaluator, Took::Undecoded(Cause::Vector { fault, place })))
        }
        Err(DecodeFault::Memory) => Err(NoMemory),
    }
}

// What ends the redo with the record of this number, if it ends there. Of a fold that has ended it says nothing more.
fn stop_with(rec: u64, took: Took) -> Option<Stop>
    ensures { result ≡ stop_behind rec took }
{
    match took {
        Took::On => None,
        Took::Ended => Some(Stop::Drained),
        Took::Undecoded(cause) => Some(Stop::Malformed { rec, cause }),
    }
}

// Hands the next record to the evaluator and gives it back, or says what ends the redo.
fn take_next<A: Archive>(
    alloc: Global,
    evaluator: Evaluator,
    reader: &mut ReadSide<A>,
) -> Result<(Evaluator, Option<Stop>), FoldFault>
    requires numbered { recs_of evaluator ≤ reader.old.place.rec }
    requires none { NoneWait evaluator }
    requires room { reader.old.place.rec < 2 ^ 63 }
    ensures steps { Told (A.logs reader.old.archive) (λ logs. AreToldBy logs reader.old.registry →
        IfOk result (λ next. Steps (redo_ahead logs reader.old.registry reader.old.place)
        (redo_ahead logs reader.new.registry reader.new.place) evaluator next.0 next.1)) }
    ensures on { IfOk result (λ next. next.1 ≡ None → reader.new.place.rec ≡ reader.old.place.rec + 1) }
    ensures numbered { IfOk result (λ next. recs_of next.0 ≤ reader.new.place.rec) }
    ensures none { IfOk result (λ next. NoneWait next.0) }
    ensures room { OnOk result (reader.new.place.rec < 2 ^ 63) }
    ensures registry { reader.new.registry ≡ reader.old.registry }
    ensures logs { A.logs reader.new.archive ≡ A.logs reader.old.archive }
    ensures failed { result ≡ Err FoldFailed → Rose (A.faults reader.old.archive) (A.faults reader.new.archive) }
    ensures none_passed_over { result ≢ Err FoldFailed →
        NoneCounted A.counts_failures_alone (A.faults reader.old.archive) (A.faults reader.new.archive) }
    ensures count { A.faults reader.old.archive ≤ A.faults reader.new.archive }
{
    match reader.cut()? {
        Cut::End(stop) => Ok((evaluator, Some(stop))),
        Cut::Raw(raw) => {
            let (next, took) = take_raw(alloc, evaluator, &raw)?;
            let stop = stop_with(raw.rec, took);
            Ok((next, stop))
        }
    }
}

/// Hands the records that are ahead to the evaluator, up to the first that doesn't decode, and gives it back with what ends
/// them. Where it has ended before, later records are not read, and what is said of the redo's end no longer counts.
pub fn take_all<A: Archive>(
    alloc: Global,
    evaluator: Evaluator,
    reader: &mut ReadSide<A>,
) -> Result<(Evaluator, Stop), FoldFault>
    requires numbered { recs_of evaluator ≤ reader.old.place.rec }
    requires none { NoneWait evaluator }
    requires room { reader.old.place.rec < 2 ^ 63 }
    ensures ends { Told (A.logs reader.old.archive) (λ logs. AreToldBy logs reader.old.registry →
        IfOk result (λ ended. EndsAs (redo_ahead logs reader.old.registry reader.old.place) evaluator ended.0 ended.1)) }
    ensures logs { A.logs reader.new.archive ≡ A.logs reader.old.archive }
    ensures failed { result ≡ Err FoldFailed → Rose (A.faults reader.old.archive) (A.faults reader.new.archive) }
    ensures none_passed_over { result ≢ Err FoldFailed →
        NoneCounted A.counts_failures_alone (A.faults reader.old.archive) (A.faults reader.new.archive) }
    ensures count { A.faults reader.old.archive ≤ A.faults reader.new.archive }
{
    let mut fold = evaluator;
    loop {
        let (next, end) = take_next(alloc, fold, reader)?;
        fold = next;
        if let Some(stop) = end {
            return Ok((fold, stop));
        }
    }
}
