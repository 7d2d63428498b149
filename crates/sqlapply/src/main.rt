//! The program: does what its words ask, over the files of the current folder and the standard streams.
//!
//! All lines go to the standard output, also those of refusals. The exit code is the status's. It is 15 too where memory for
//! the words or the devices is refused. What a person should know beside that goes to the standard error (`help.rt`).
#![tactic(auto)]

mod help;
mod sentence;
#[cfg(test)]
mod tests;
mod words;

ghost use Rattle.std.specs.Prelude.{◌≡◌};
ghost use Rattle.std.specs.Process.{exit_status};
ghost use Rattle.standby.specs.Command.{command_of};
ghost use Rattle.sqlapply.specs.Exit.{EndsWith};

use file_ports::{FileArchive, StdSink, StdSource};
use help::{tell, tell_memory};
use rl_base::Status;
use rl_ports::{Archive, Sink, Source};
use rl_value::Bytes;
use standby::{Ended, Unused, refuse, sqlapply_still};
use std::alloc::Global;
use std::process::ExitCode;
use words::words_of;

fn main(rt: HostRuntime) -> ExitCode {
    let Ok(mut out) = StdSink::new(&rt) else {
        tell_memory(&rt);
        return ExitCode::from(Status::Memory.code());
    };
    let (Ok(words), Ok(mut input), Ok(archive)) = (
        words_of(&rt, rt.alloc()),
        StdSource::new(&rt),
        FileArchive::new(&rt),
    ) else {
        refuse(&mut out, b"FAULT MEMORY\n");
        tell_memory(&rt);
        return ExitCode::from(Status::Memory.code());
    };
    let (code, _) = run(rt.alloc(), &words, &mut input, &mut out, archive);
    tell(&rt, code, &words);
    code
}

// Does what the words ask, and gives the exit code of its status, and the archive back.
fn run<I: Source, O: Sink, A: Archive>(
    alloc: Global,
    words: &[Bytes],
    input: &mut I,
    out: &mut O,
    archive: A,
) -> (ExitCode, A)
    ensures code { EndsWith (command_of words.now) (A.logs archive) (exit_status result.0) (O.written out.old) (O.written out.new)
        (record { failures_alone = A.counts_failures_alone; before = A.faults archive; now = A.faults result.1 })
        (record { failures_alone = O.counts_failures_alone; before = O.faults out.old; now = O.faults out.new }) }
    ensures input { input.new ≡ input.old }
{
    let Ended {
        status,
        archive,
        spill: _,
        keeper: _,
    } = sqlapply_still(alloc, words, input, out, archive, Unused, Unused);
    (ExitCode::from(status.code()), archive)
}
