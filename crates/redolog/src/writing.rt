//! `redolog write`: the log that a text says.
//!
//! Nothing is written where a line is bad, so the text is read to its end, and the log's bytes are made, before the first is
//! written.
ghost use Rattle.std.specs.Prelude.{◌≡◌, ◌≢◌, ◌≤◌, ◌<◌, length, IfOk, OnErr, Ok, Err};
ghost use Rattle.rl_ports.specs.Faults.{NoneCounted, Rose, Told};
ghost use Rattle.redo_spec.specs.Log.{Log, IsSpelled};
ghost use Rattle.redo_text.specs.Text.{log_said};
ghost use Rattle.redolog.specs.Writing.{Writes, TextOf, LogOf};
ghost use Rattle.redolog.specs.declared.refusal.Refusal.TheVariants as refusals;
ghost use Rattle.redolog.specs.declared.refusal.StreamFault.TheVariants as streams;

use crate::output::say;
use crate::refusal::{Refusal, StreamFault};
use redo_text::{WriteFault, write_log};
use rl_ports::{Sink, Source};
use rl_text::{ReadFault, read_all};
use std::alloc::Global;

/// A text has at most this many bytes.
pub const MOST_TEXT: u64 = 1_073_741_824;

// The whole text.
fn text_of<I: Source>(alloc: Global, input: &mut I) -> Result<Vec<u8>, Refusal>
    ensures text { Told (I.left input.old) (λ text. TextOf (λ v. v.items) text result) }
    ensures no_output { result ≢ Err (refusals.Stream streams.Output) }
    ensures input_failed { result ≡ Err (refusals.Stream streams.Input) → Rose (I.faults input.old) (I.faults input.new) }
    ensures input_answered { result ≢ Err (refusals.Stream streams.Input) →
        NoneCounted I.counts_failures_alone (I.faults input.old) (I.faults input.new) }
    ensures input_count { I.faults input.old ≤ I.faults input.new }
{
    let text = match read_all(alloc, input, MOST_TEXT) {
        Ok(text) => text,
        Err(ReadFault::SourceFault) => return Err(Refusal::Stream(StreamFault::Input)),
        Err(ReadFault::Memory) => return Err(Refusal::Stream(StreamFault::Memory)),
    };
    if text.len() as u64 > MOST_TEXT {
        return Err(Refusal::Long);
    }
    Ok(text)
}

fn log_of(alloc: Global, text: &[u8]) -> Result<Vec<u8>, Refusal>
    ensures log { LogOf (λ v. v.items) text.now result }
    ensures no_input { result ≢ Err (refusals.Stream streams.Input) }
    ensures no_output { result ≢ Err (refusals.Stream streams.Output) }
{
    match write_log(alloc, text) {
        Ok(log) => Ok(log),
        Err(WriteFault::Line { line, fault }) => Err(Refusal::Line { line, fault }),
        Err(WriteFault::Memory) => Err(Refusal::Stream(StreamFault::Memory)),
    }
}

/// Writes the log that the text says, or nothing where its first bad line is told.
pub fn write<I: Source, O: Sink>(alloc: Global, input: &mut I, out: &mut O) -> Result<(), Refusal>
    ensures written { Told (I.left input.old) (λ text. Writes text (O.written out.old) (O.written out.new) result) }
    ensures input_failed { result ≡ Err (refusals.Stream streams.Input) → Rose (I.faults input.old) (I.faults input.new) }
    ensures input_answered { result ≢ Err (refusals.Stream streams.Input) →
        NoneCounted I.counts_failures_alone (I.faults input.old) (I.faults input.new) }
    ensures input_count { I.faults input.old ≤ I.faults input.new }
    ensures output_failed { result ≡ Err (refusals.Stream streams.Output) → Rose (O.faults out.old) (O.faults out.new) }
    ensures output_answered { result ≢ Err (refusals.Stream streams.Output) →
        NoneCounted O.counts_failures_alone (O.faults out.old) (O.faults out.new) }
    ensures output_count { O.faults out.old ≤ O.faults out.new }
{
    let text = text_of(alloc, input)?;
    let log = log_of(alloc, text.as_slice())?;
    match say(out, log.as_slice()) {
        Ok(()) => Ok(()),
        Err(_) => Err(Refusal::Stream(StreamFault::Output)),
    }
}
