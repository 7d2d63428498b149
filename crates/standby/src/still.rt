//! The top call that waits for nobody.
//!
//! What it promises is `specs/Headline.antt`, in the words of the table of answers, `specs/Answers.antt`.
//! So far `fold` alone is built; `run`, `mine` and `load` are answered NotBuilt.
ghost use Rattle.std.specs.Prelude.{◌≡◌, ◌≤◌};
ghost use Rattle.standby.specs.Command.{command_of};
ghost use Rattle.standby.specs.Headline.{Claim};
ghost use Rattle.standby.specs.Devices.{ComeBack};

use crate::command::Command;
use crate::ended::Ended;
use crate::finished::Finished;
use crate::fold::fold;
use crate::say::refuse;
use crate::words::command;
use rl_base::Status;
use rl_ports::{Archive, Keeper, Sink, Source, Spill};
use rl_value::Bytes;
use std::alloc::Global;

/// Does what the words ask, which are those of the command line without the program's name.
///
/// All lines go to the sink, and so do the last lines of refusals; one that the sink does not take leaves the status as
/// it is. The source, the spill store and the keeper are not called by any command that is built so far.
/// Want of memory may end a fold at any place before its first line.
pub fn sqlapply_still<I: Source, O: Sink, A: Archive, S: Spill, K: Keeper>(
    alloc: Global,
    words: &[Bytes],
    input: &mut I,
    out: &mut O,
    archive: A,
    spill: S,
    keeper: K,
) -> Ended<A, S, K>
    // Every device comes back.
    ensures input { input.new ≡ input.old }
    ensures devices { ComeBack A.logs A.faults archive result.archive spill result.spill keeper result.keeper }
    ensures sink_count { O.faults out.old ≤ O.faults out.new }

    // How it ends, and what is written. Memory has no cause.
    ensures claim { Claim (command_of words.now) (A.logs archive) result.status (O.written out.old) (O.written out.new)
        (record { failures_alone = A.counts_failures_alone; before = A.faults archive; now = A.faults result.archive })
        (record { failures_alone = O.counts_failures_alone; before = O.faults out.old; now = O.faults out.new }) }
{
    match command(words) {
        Command::Fold(seq) => {
            let Finished { status, archive } = fold(alloc, seq, out, archive);
            Ended {
                status,
                archive,
                spill,
                keeper,
            }
        }
        Command::Later => {
            refuse(out, b"FAULT NOTBUILT\n");
            Ended {
                status: Status::NotBuilt,
                archive,
                spill,
                keeper,
            }
        }
        Command::Wrong => {
            refuse(out, b"FAULT USAGE\n");
            Ended {
                status: Status::Usage,
                archive,
                spill,
                keeper,
            }
        }
    }
}
