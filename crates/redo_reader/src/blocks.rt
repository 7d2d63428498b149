//! Reads a block of the open log, and cuts it into records.
ghost use Rattle.std.specs.Prelude.{◌≡◌, ◌≢◌, ◌+◌, ◌<◌, ◌≤◌, None, false, length, is_some, IfOk, OnOk, OnErr, Err, IsErrOf};
ghost use Rattle.rl_ports.specs.Faults.{NoneCounted, Told, Rose, ReadsFrom};
ghost use Rattle.redo_wire.specs.Stream.{cut_of_piece, empty_cut};
ghost use Rattle.redo_reader.specs.declared.cut.CutError.TheVariants.{ArchiveFault as ArchiveFaulted};
ghost use Rattle.redo_reader.specs.Steps.{IsFed, Shows};

use crate::cut::CutError;
use crate::progress::{Look, OpenLog};
use redo_wire::{Raw, pieces_do_not_matter};
use rl_ports::{Archive, Failed};
use rl_value::NoMemory;

// Reads so many bytes of a log at most to the front of the block, and says how many.
fn read_block<A: Archive>(
    archive: &mut A,
    seq: u32,
    offset: u64,
    block: &mut [u8],
    most: usize,
) -> Result<usize, Failed>
    requires within { most ≤ length block.old }
    requires some { 0 < most }
    ensures bound { IfOk result (λ count. count ≤ most) }
    ensures size { length block.new ≡ length block.old }
    ensures bytes { Told (A.logs archive.old) (λ logs. IfOk result (ReadsFrom (logs seq) offset block.new)) }
    ensures logs { A.logs archive.new ≡ A.logs archive.old }
    ensures failed { OnErr result (Rose (A.faults archive.old) (A.faults archive.new)) }
    ensures none_passed_over { OnOk result (NoneCounted A.counts_failures_alone (A.faults archive.old) (A.faults archive.new)) }
    ensures count { A.faults archive.old ≤ A.faults archive.new }
{
    archive.read(seq, offset, &mut block[..most])
}

// Cuts the next piece of the log into records. A refusal leaves the log as it was.
fn feed(log: &mut OpenLog, piece: &[u8]) -> Result<Vec<Raw>, NoMemory>
    requires room { log.old.offset + length piece.now ≤ log.old.length }
    ensures fed { IfOk result (λ raws. IsFed log.old log.new piece.now raws.items) }
    ensures unchanged { OnErr result (log.new ≡ log.old) }
{
    pieces_do_not_matter();
    let fed = log.cutter.feed(piece)?;
    log.offset += piece.len() as u64;
    log.cause = fed.cause;
    Ok(fed.raws.into_items())
}

// How many bytes of the log the next block may have.
fn room_for(log: &OpenLog, block: &[u8]) -> usize
    requires { log.now.offset < log.now.length }
    ensures within { result ≤ length block.now }
    ensures left { log.now.offset + result ≤ log.now.length }
    ensures some { 0 < length block.now → 0 < result }
{
    let left = log.length - log.offset;
    if left < block.len() as u64 {
        left as usize
    } else {
        block.len()
    }
}

/// Looks further into the open log, of which nothing waits. A refusal leaves it as it was.
pub(crate) fn look_on<A: Archive>(
    archive: &mut A,
    seq: u32,
    log: &mut OpenLog,
    block: &mut [u8],
) -> Result<Look, CutError>
    requires block { 0 < length block.old }
    requires fault_told { log.old.cutter.fault_told ≡ is_some log.old.cause }
    ensures shows { IfOk result (Shows (A.logs archive.old) seq log.old log.new) }
    ensures size { length block.new ≡ length block.old }
    ensures unchanged { OnErr result (log.new ≡ log.old) }
    ensures logs { A.logs archive.new ≡ A.logs archive.old }
    ensures failed { IsErrOf result ArchiveFaulted → Rose (A.faults archive.old) (A.faults archive.new) }
    ensures none_passed_over { result ≢ Err ArchiveFaulted →
        NoneCounted A.counts_failures_alone (A.faults archive.old) (A.faults archive.new) }
    ensures count { A.faults archive.old ≤ A.faults archive.new }
{
    if log.cause.is_some() {
        return Ok(Look::LogEnd(log.cause));
    }
    if log.offset < log.length {
        let most = room_for(log, block);
        let count = read_block(archive, seq, log.offset, block, most)?;
        if count > 0 {
            let raws = feed(log, &block[..count])?;
            return Ok(Look::Raws(raws));
        }
    }
    Ok(Look::LogEnd(log.cutter.finish()))
}
