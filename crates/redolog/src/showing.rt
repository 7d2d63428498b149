//! `redolog show` and `redolog head`: a log as the text that says it.
//!
//! The log is read in blocks, and what is held goes with one block and one record. It is told as damaged exactly where a fault
//! was shown.
ghost use Rattle.std.specs.Prelude.{◌≡◌, ◌≢◌, ◌+◌, ◌≤◌, length, take, drop, slice_index, [], true, false, IfOk, OnOk, Some, Err};
ghost use Rattle.std.specs.Int.{w32};
ghost use Rattle.std.specs.Io.KnownBytes.{Appends};
ghost use Rattle.rl_ports.specs.Faults.{NoneCounted, Rose, Told};
ghost use Rattle.rl_value.specs.Outcome.{refused_by};
ghost use Rattle.redo_vec.specs.Cutting.{number_in};
ghost use Rattle.redo_spec.specs.LogHeader.{header_in};
ghost use Rattle.redo_text.specs.Streaming.{end_text, end_ended};
ghost use Rattle.redolog.specs.Showing.{own_fault, front_text, head_there, head_text, rest_text, log_text, rest_ended, has_head_fault, has_fault, Shows};
ghost use Rattle.redolog.specs.declared.refusal.Refusal.TheVariants as refusals;
ghost use Rattle.redolog.specs.declared.refusal.StreamFault.TheVariants as streams;

use crate::output::say;
use crate::refusal::{Refusal, StreamFault};
use redo_spec::Header;
use redo_text::{
    LogFault, Shown, a_fault_is_shown_where_there_is_one, pieces_are_shown_as_one, show_fault,
    show_header,
};
use redo_wire::read_header;
use rl_ports::{Sink, Source};
use rl_text::{ReadFault, read_all};
use rl_value::{HeadFault, NoMemory};
use std::alloc::Global;

/// The place of the last byte of a header.
const HEADER_LAST: u64 = 39;

/// The log is read in blocks of this many bytes and one.
const BLOCK_LAST: u64 = 65_535;

/// How many bytes are shown at a fault of the header.
const FAULT_BYTES: usize = 16;

// The next bytes of the log, one more than this, and fewer only at its end.
fn front<I: Source>(alloc: Global, input: &mut I, last: u64) -> Result<Vec<u8>, StreamFault>
    ensures bytes { Told (I.left input.old) (λ all. IfOk result (λ front. front.items ≡ take (last + 1) all)) }
    ensures left { Told (I.left input.old) (λ all. OnOk result (I.left input.new ≡ Some (drop (last + 1) all))) }
    ensures no_output { result ≢ Err streams.Output }
    ensures input_failed { result ≡ Err streams.Input → Rose (I.faults input.old) (I.faults input.new) }
    ensures input_answered { result ≢ Err streams.Input →
        NoneCounted I.counts_failures_alone (I.faults input.old) (I.faults input.new) }
    ensures input_count { I.faults input.old ≤ I.faults input.new }
{
    match read_all(alloc, input, last) {
        Ok(bytes) => Ok(bytes),
        Err(ReadFault::SourceFault) => Err(StreamFault::Input),
        Err(ReadFault::Memory) => Err(StreamFault::Memory),
    }
}

fn byte_in(bytes: &[u8], at: usize) -> u8
    ensures { result ≡ slice_index bytes.now at }
{
    if at < bytes.len() { bytes[at] } else { 0 }
}

fn behind(bytes: &[u8], at: usize) -> &[u8]
    ensures { result.now ≡ drop at bytes.now }
{
    if at < bytes.len() {
        &bytes[at..]
    } else {
        &bytes[bytes.len()..]
    }
}

// The sequence that the header names.
fn sequence_in(bytes: &[u8]) -> u32
    ensures { result ≡ number_in w32 12 bytes.now }
{
    let rest = behind(bytes, 12);
    u32::from_be_bytes([
        byte_in(rest, 0),
        byte_in(rest, 1),
        byte_in(rest, 2),
        byte_in(rest, 3),
    ])
}

#[tactic(auto, unfolding(crate::specs::Showing::own_fault))]
fn head_of(bytes: &[u8]) -> Result<Header, HeadFault>
    ensures { result ≡ refused_by (own_fault bytes.now) (header_in bytes.now) }
{
    read_header(bytes, sequence_in(bytes))
}

fn first_bytes(bytes: &[u8]) -> &[u8]
    ensures bytes { result.now ≡ take 16 bytes.now }
    ensures few { length result.now ≤ 30 }
{
    if bytes.len() < FAULT_BYTES {
        return bytes;
    }
    &bytes[..FAULT_BYTES]
}

// The lines of the header, and the header; or the line of its fault.
fn head_lines(alloc: Global, bytes: &[u8]) -> Result<(Vec<u8>, Option<Header>), NoMemory>
    ensures text { IfOk result (λ x. x.0.items ≡ front_text bytes.now) }
    ensures head { IfOk result (λ x. x.1 ≡ head_there (own_fault bytes.now) bytes.now) }
{
    match head_of(bytes) {
        Ok(head) => Ok((show_header(alloc, head)?, Some(head))),
        Err(fault) => {
            let line = show_fault(alloc, 1, LogFault::Head(fault), 0, first_bytes(bytes))?;
            Ok((line, None))
        }
    }
}

// Shows the header, and gives it; or shows its fault.
fn show_head<I: Source, O: Sink>(
    alloc: Global,
    input: &mut I,
    out: &mut O,
) -> Result<Option<Header>, StreamFault>
    ensures shown { Told (I.left input.old) (λ bytes. OnOk result
        (Appends (O.written out.old) (O.written out.new) (head_text bytes))) }
    ensures head { Told (I.left input.old) (λ bytes. IfOk result
        (λ head. head ≡ head_there (own_fault (take 40 bytes)) (take 40 bytes))) }
    ensures left { Told (I.left input.old) (λ bytes. OnOk result (I.left input.new ≡ Some (drop 40 bytes))) }
    ensures input_failed { result ≡ Err streams.Input → Rose (I.faults input.old) (I.faults input.new) }
    ensures input_answered { result ≢ Err streams.Input →
        NoneCounted I.counts_failures_alone (I.faults input.old) (I.faults input.new) }
    ensures input_count { I.faults input.old ≤ I.faults input.new }
    ensures output_failed { result ≡ Err streams.Output → Rose (O.faults out.old) (O.faults out.new) }
    ensures output_answered { result ≢ Err streams.Output →
        NoneCounted O.counts_failures_alone (O.faults out.old) (O.faults out.new) }
    ensures output_count { O.faults out.old ≤ O.faults out.new }
{
    let bytes = front(alloc, input, HEADER_LAST)?;
    let (text, head) = head_lines(alloc, bytes.as_slice())?;
    say(out, text.as_slice())?;
    Ok(head)
}

// Shows the header alone, or its fault, and whether it has one.
fn show_front<I: Source, O: Sink>(
    alloc: Global,
    input: &mut I,
    out: &mut O,
) -> Result<bool, StreamFault>
    ensures shown { Told (I.left input.old) (λ bytes. OnOk result
        (Appends (O.written out.old) (O.written out.new) (head_text bytes))) }
    ensures faulty { Told (I.left input.old) (λ bytes. IfOk result (λ faulty. faulty ≡ has_head_fault bytes)) }
    ensures input_failed { result ≡ Err streams.Input → Rose (I.faults input.old) (I.faults input.new) }
    ensures input_answered { result ≢ Err streams.Input →
        NoneCounted I.counts_failures_alone (I.faults input.old) (I.faults input.new) }
    ensures input_count { I.faults input.old ≤ I.faults input.new }
    ensures output_failed { result ≡ Err streams.Output → Rose (O.faults out.old) (O.faults out.new) }
    ensures output_answered { result ≢ Err streams.Output →
        NoneCounted O.counts_failures_alone (O.faults out.old) (O.faults out.new) }
    ensures output_count { O.faults out.old ≤ O.faults out.new }
{
    let head = show_head(alloc, input, out)?;
    match head {
        Some(_) => Ok(false),
        None => Ok(true),
    }
}

// What the end of the log tells, and whether a fault was shown.
fn finish<O: Sink>(alloc: Global, log: Shown, out: &mut O) -> Result<bool, StreamFault>
    ensures shown { OnOk result (Appends (O.written out.old) (O.written out.new) (end_text log)) }
    ensures faulty { IfOk result (λ faulty. faulty ≡ end_ended log) }
    ensures no_input { result ≢ Err streams.Input }
    ensures output_failed { result ≡ Err streams.Output → Rose (O.faults out.old) (O.faults out.new) }
    ensures output_answered { result ≢ Err streams.Output →
        NoneCounted O.counts_failures_alone (O.faults out.old) (O.faults out.new) }
    ensures output_count { O.faults out.old ≤ O.faults out.new }
{
    let (text, faulty) = log.finish(alloc)?;
    say(out, text.as_slice())?;
    Ok(faulty)
}

fn has_none(bytes: &[u8]) -> bool
    ensures none { result ≡ true → bytes.now ≡ [] }
    ensures some { result ≡ false → 1 ≤ length bytes.now }
{
    match bytes {
        [] => true,
        [_, ..] => false,
    }
}

// Shows the records, block by block, and whether they end with a fault.
fn show_blocks<I: Source, O: Sink>(
    alloc: Global,
    begun: Shown,
    input: &mut I,
    out: &mut O,
) -> Result<bool, StreamFault>
    ensures shown { Told (I.left input.old) (λ all. OnOk result
        (Appends (O.written out.old) (O.written out.new) (rest_text begun all))) }
    ensures faulty { Told (I.left input.old) (λ all. IfOk result (λ faulty. faulty ≡ rest_ended begun all)) }
    ensures input_failed { result ≡ Err streams.Input → Rose (I.faults input.old) (I.faults input.new) }
    ensures input_answered { result ≢ Err streams.Input →
        NoneCounted I.counts_failures_alone (I.faults input.old) (I.faults input.new) }
    ensures input_count { I.faults input.old ≤ I.faults input.new }
    ensures output_failed { result ≡ Err streams.Output → Rose (O.faults out.old) (O.faults out.new) }
    ensures output_answered { result ≢ Err streams.Output →
        NoneCounted O.counts_failures_alone (O.faults out.old) (O.faults out.new) }
    ensures output_count { O.faults out.old ≤ O.faults out.new }
{
    pieces_are_shown_as_one();
    a_fault_is_shown_where_there_is_one();
    let mut log = begun;
    for _ in 0..u64::MAX {
        let block = front(alloc, input, BLOCK_LAST)?;
        let bytes = block.as_slice();
        if has_none(bytes) {
            return finish(alloc, log, out);
        }
        let (next, text) = log.feed(alloc, bytes)?;
        say(out, text.as_slice())?;
        if next.has_ended() {
            return Ok(true);
        }
        log = next;
    }
    // No log has so many blocks; the answer without a cause stands for it.
    Err(StreamFault::Memory)
}

// Shows the header and the records, up to the first fault, and whether there is one.
fn show_all<I: Source, O: Sink>(
    alloc: Global,
    input: &mut I,
    out: &mut O,
) -> Result<bool, StreamFault>
    ensures shown { Told (I.left input.old) (λ bytes. OnOk result
        (Appends (O.written out.old) (O.written out.new) (log_text bytes))) }
    ensures faulty { Told (I.left input.old) (λ bytes. IfOk result (λ faulty. faulty ≡ has_fault bytes)) }
    ensures input_failed { result ≡ Err streams.Input → Rose (I.faults input.old) (I.faults input.new) }
    ensures input_answered { result ≢ Err streams.Input →
        NoneCounted I.counts_failures_alone (I.faults input.old) (I.faults input.new) }
    ensures input_count { I.faults input.old ≤ I.faults input.new }
    ensures output_failed { result ≡ Err streams.Output → Rose (O.faults out.old) (O.faults out.new) }
    ensures output_answered { result ≢ Err streams.Output →
        NoneCounted O.counts_failures_alone (O.faults out.old) (O.faults out.new) }
    ensures output_count { O.faults out.old ≤ O.faults out.new }
{
    a_fault_is_shown_where_there_is_one();
    match show_head(alloc, input, out)? {
        Some(head) => show_blocks(alloc, Shown::new(alloc, head), input, out),
        None => Ok(true),
    }
}

/// Shows the header alone, or its fault; Damaged exactly where it has one.
pub fn head<I: Source, O: Sink>(alloc: Global, input: &mut I, out: &mut O) -> Result<(), Refusal>
    ensures shown { Told (I.left input.old)
        (λ bytes. Shows (head_text bytes) (has_head_fault bytes) (O.written out.old) (O.written out.new) result) }
    ensures input_failed { result ≡ Err (refusals.Stream streams.Input) → Rose (I.faults input.old) (I.faults input.new) }
    ensures input_answered { result ≢ Err (refusals.Stream streams.Input) →
        NoneCounted I.counts_failures_alone (I.faults input.old) (I.faults input.new) }
    ensures input_count { I.faults input.old ≤ I.faults input.new }
    ensures output_failed { result ≡ Err (refusals.Stream streams.Output) → Rose (O.faults out.old) (O.faults out.new) }
    ensures output_answered { result ≢ Err (refusals.Stream streams.Output) →
        NoneCounted O.counts_failures_alone (O.faults out.old) (O.faults out.new) }
    ensures output_count { O.faults out.old ≤ O.faults out.new }
{
    let faulty = show_front(alloc, input, out)?;
    if faulty {
        return Err(Refusal::Damaged);
    }
    Ok(())
}

/// Shows the header and the records, up to the first fault; Damaged exactly where there is one.
pub fn show<I: Source, O: Sink>(alloc: Global, input: &mut I, out: &mut O) -> Result<(), Refusal>
    ensures shown { Told (I.left input.old)
        (λ bytes. Shows (log_text bytes) (has_fault bytes) (O.written out.old) (O.written out.new) result) }
    ensures input_failed { result ≡ Err (refusals.Stream streams.Input) → Rose (I.faults input.old) (I.faults input.new) }
    ensures input_answered { result ≢ Err (refusals.Stream streams.Input) →
        NoneCounted I.counts_failures_alone (I.faults input.old) (I.faults input.new) }
    ensures input_count { I.faults input.old ≤ I.faults input.new }
    ensures output_failed { result ≡ Err (refusals.Stream streams.Output) → Rose (O.faults out.old) (O.faults out.new) }
    ensures output_answered { result ≢ Err (refusals.Stream streams.Output) →
        NoneCounted O.counts_failures_alone (O.faults out.old) (O.faults out.new) }
    ensures output_count { O.faults out.old ≤ O.faults out.new }
{
    let faulty = show_all(alloc, input, out)?;
    if faulty {
        return Err(Refusal::Damaged);
    }
    Ok(())
}
