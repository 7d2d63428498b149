//! The command `fold SEQ`: folds one log over empty tables, and prints what comes out.
//!
//! The whole text is built before its first byte is written. So a fold that is refused has written its last line alone.
ghost use Rattle.std.specs.Prelude.{◌≡◌, ◌≤◌, ◌≢◌, ◌↔◌, IfOk, Err};
ghost use Rattle.rl_ports.specs.Faults.{NoneCounted, Rose, Told};
ghost use Rattle.standby.specs.Printout.{IsPrintoutOf, IsWritten, IsPrefixWritten};
ghost use Rattle.standby.specs.declared.reading.FoldFault.TheVariants.{Failed as FoldFailed, Memory as FoldMemory};
ghost use Rattle.standby.specs.Answers.{Comes, IsEnd, Prints, PrintsPrefix, SaysFault, fault_line, end_status};

use crate::finished::Finished;
use crate::folding::{FoldedLog, folded_log};
use crate::printing::text_of;
use crate::reading::FoldFault;
use crate::say::{refuse, say};
use primary::Folded;
use rl_base::Status;
use rl_ports::{Archive, Sink};
use rl_value::{NoMemory, Stop, Verdict};
use std::alloc::Global;

// The status of a run that ends so.
fn status_of(end: &Verdict) -> Status
    ensures { result ≡ end_status end.now }
{
    match end {
        Verdict::Stopped(stop) => match stop {
            Stop::Drained => Status::Done,
            Stop::Gap { low: _, high: _ } => Status::Gap,
            Stop::Malformed { rec: _, cause: _ } => Status::Malformed,
        },
        Verdict::Mismatch {
            scn: _,
            pos: _,
            table: _,
            miss: _,
        } => Status::Mismatch,
        Verdict::RowLimit { scn: _ } => Status::RowLimit,
    }
}

// What a fold ends as, and what it prints.
#[derive(Drop)]
struct Printout {
    status: Status,
    text: Vec<u8>,
}

fn printed(alloc: Global, folded: &Result<Folded, FoldFault>) -> Result<Printout, FoldFault>
    ensures printout { IfOk result (IsPrintoutOf folded.now) }
    ensures failed { (result ≡ Err FoldFailed) ↔ (folded.now ≡ Err FoldFailed) }
{
    match folded {
        Err(fault) => Err(*fault),
        Ok(folded) => match text_of(alloc, folded) {
            Err(NoMemory) => Err(FoldFault::Memory),
            Ok(text) => Ok(Printout {
                status: status_of(&folded.end),
                text,
            }),
        },
    }
}

// Writes the lines of a fold, or why there is none.
fn answer<O: Sink>(out: &mut O, printout: Result<Printout, FoldFault>) -> Status
    requires ended { IfOk printout (λ p. IsEnd p.status) }
    ensures comes { Comes result }
    ensures ends { IsEnd result → IsWritten printout result (O.written out.old) (O.written out.new) }
    ensures usage { result ≢ Status.Usage }
    ensures not_built { result ≢ Status.NotBuilt }
    ensures archive_fault { (result ≡ Status.ArchiveFault) ↔ (printout ≡ Err FoldFailed) }
    ensures memory { (result ≡ Status.Memory) ↔ (printout ≡ Err FoldMemory) }
    ensures sink_rose { result ≡ Status.SinkFault → Rose (O.faults out.old) (O.faults out.new) }
    ensures sink_not_passed_over { IsEnd result → NoneCounted O.counts_failures_alone (O.faults out.old) (O.faults out.new) }
    ensures sink_fault { result ≡ Status.SinkFault → IsPrefixWritten printout (O.written out.old) (O.written out.new) }
    ensures last_line { SaysFault (fault_line result) (O.written out.old) (O.written out.new)
        (Rose (O.faults out.old) (O.faults out.new)) }
    ensures sink_count { O.faults out.old ≤ O.faults out.new }
{
    match printout {
        Ok(Printout { status, text }) => match say(out, &text) {
            Ok(()) => status,
            Err(_) => Status::SinkFault,
        },
        Err(FoldFault::Failed) => {
            refuse(out, b"FAULT ARCHIVE\n");
            Status::ArchiveFault
        }
        Err(FoldFault::Memory) => {
            refuse(out, b"FAULT MEMORY\n");
            Status::Memory
        }
    }
}

/// Folds the log of this sequence and prints its lines.
pub fn fold<O: Sink, A: Archive>(alloc: Global, seq: u32, out: &mut O, archive: A) -> Finished<A>
    ensures logs { A.logs result.archive ≡ A.logs archive }
    ensures archive_count { A.faults archive ≤ A.faults result.archive }
    ensures sink_count { O.faults out.old ≤ O.faults out.new }

    ensures comes { Comes result.status }
    ensures ends { IsEnd result.status →
        Told (A.logs archive) (λ logs. Prints logs seq result.status (O.written out.old) (O.written out.new)) }
    ensures usage { result.status ≢ Status.Usage }
    ensures not_built { result.status ≢ Status.NotBuilt }
    ensures archive_fault { result.status ≡ Status.ArchiveFault → Rose (A.faults archive) (A.faults result.archive) }
    ensures archive_not_passed_over { result.status ≢ Status.ArchiveFault →
        NoneCounted A.counts_failures_alone (A.faults archive) (A.faults result.archive) }
    ensures sink_not_passed_over { IsEnd result.status →
        NoneCounted O.counts_failures_alone (O.faults out.old) (O.faults out.new) }
    ensures sink_rose { result.status ≡ Status.SinkFault → Rose (O.faults out.old) (O.faults out.new) }
    ensures sink_fault { result.status ≡ Status.SinkFault → Told (A.logs archive)
        (λ logs. PrintsPrefix logs seq (O.written out.old) (O.written out.new)) }
    ensures last_line { SaysFault (fault_line result.status) (O.written out.old) (O.written out.new)
        (Rose (O.faults out.old) (O.faults out.new)) }
{
    let FoldedLog { folded, archive } = folded_log(alloc, seq, archive);
    let printout = printed(alloc, &folded);
    Finished {
        status: answer(out, printout),
        archive,
    }
}
