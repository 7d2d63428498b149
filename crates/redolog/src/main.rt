//! The program: a log from its text, and the text of a log, from the standard input to the standard output.
//!
//! What a person should know beside that goes to the standard error.
#![tactic(auto)]

mod exit;
mod output;
mod refusal;
mod sentence;
mod showing;
#[cfg(test)]
mod tests;
mod words;
mod writing;

ghost use Rattle.std.specs.Prelude.{◌≡◌, ◌≢◌, ◌≤◌, Err};
ghost use Rattle.std.specs.Process.{exit_status};
ghost use Rattle.rl_ports.specs.Faults.{NoneCounted, Rose, Told};
ghost use Rattle.redolog.specs.Exit.{code_of};
ghost use Rattle.redolog.specs.Showing.{log_text, head_text, has_fault, has_head_fault, Shows};
ghost use Rattle.redolog.specs.Writing.{Writes};
ghost use Rattle.redolog.specs.declared.refusal.Refusal.TheVariants as refusals;
ghost use Rattle.redolog.specs.declared.refusal.StreamFault.TheVariants as streams;

use exit::code_of;
use file_ports::{StdSink, StdSource};
use refusal::{Refusal, StreamFault};
use rl_ports::{Sink, Source};
use sentence::tell;
use showing::{head, show};
use std::alloc::Global;
use std::io::Eprint;
use std::process::ExitCode;
use words::{Command, command_of};
use writing::write;

// Does what the words ask.
fn run<I: Source, O: Sink>(
    alloc: Global,
    command: Command,
    input: &mut I,
    out: &mut O,
) -> Result<(), Refusal>
    ensures written { command ≡ Command.Write →
        Told (I.left input.old) (λ text. Writes text (O.written out.old) (O.written out.new) result) }
    ensures shown { command ≡ Command.Show → Told (I.left input.old)
        (λ bytes. Shows (log_text bytes) (has_fault bytes) (O.written out.old) (O.written out.new) result) }
    ensures head { command ≡ Command.Head → Told (I.left input.old)
        (λ bytes. Shows (head_text bytes) (has_head_fault bytes) (O.written out.old) (O.written out.new) result) }
    ensures wrong { command ≡ Command.Wrong → result ≡ Err refusals.Usage }
    ensures input_failed { result ≡ Err (refusals.Stream streams.Input) → Rose (I.faults input.old) (I.faults input.new) }
    ensures input_answered { result ≢ Err (refusals.Stream streams.Input) →
        NoneCounted I.counts_failures_alone (I.faults input.old) (I.faults input.new) }
    ensures input_count { I.faults input.old ≤ I.faults input.new }
    ensures output_failed { result ≡ Err (refusals.Stream streams.Output) → Rose (O.faults out.old) (O.faults out.new) }
    ensures output_answered { result ≢ Err (refusals.Stream streams.Output) →
        NoneCounted O.counts_failures_alone (O.faults out.old) (O.faults out.new) }
    ensures output_count { O.faults out.old ≤ O.faults out.new }
{
    match command {
        Command::Write => write(alloc, input, out),
        Command::Show => show(alloc, input, out),
        Command::Head => head(alloc, input, out),
        Command::Wrong => Err(Refusal::Usage),
    }
}

// Says why a command did not end as asked, and gives the exit code of its end.
fn ended<R: Eprint>(rt: &R, end: Result<(), Refusal>) -> ExitCode
    ensures code { exit_status result ≡ code_of end }
{
    if let Err(refusal) = &end {
        tell(rt, *refusal);
    }
    ExitCode::from(code_of(end))
}

fn main(rt: HostRuntime) -> ExitCode {
    let (Ok(mut input), Ok(mut out)) = (StdSource::new(&rt), StdSink::new(&rt)) else {
        return ended(&rt, Err(Refusal::Stream(StreamFault::Memory)));
    };
    let end = run(rt.alloc(), command_of(&rt), &mut input, &mut out);
    ended(&rt, end)
}
