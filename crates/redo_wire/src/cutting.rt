//! Cuts records off the front of bytes.
//!
//! A record: length (4 bytes, of the whole record), SCN (8), number of vectors (2), the vectors. Big-endian.
//! Of a record that is not whole nothing is cut off: more bytes may follow.
ghost use Rattle.std.specs.Prelude.{◌≡◌, ◌+◌, ◌-◌, ◌*◌, ◌≤◌, ◌<◌, ◌^◌, ◌++◌, [], ◌∷◌, length, take, drop, MatchResult, IfOk, IsTrue, Ok, Err, None, Some, ◌==◌, if◌then◌else◌};
ghost use Rattle.redo_vec.specs.Cutting.{first_record};
ghost use Rattle.rl_value.specs.declared.cause.CutFault.TheVariants.{Truncated, Trailing};
ghost use Rattle.redo_wire.specs.Stream.{NumbersFit, told_of, raw_of_bytes, log_place_behind, left_after, cut_off, with_raws};
ghost use Rattle.redo_wire.specs.Taken.{cut_of_taken};

use crate::numbers::{u16_in, u32_in};
use crate::raw::Raw;
use redo_spec::Header;
use redo_vec::{MAX_RECORD, MAX_VECTORS, MIN_RECORD};
use rl_value::{Bytes, CutFault, NoMemory};
use std::alloc::Global;

/// Where the next record of a log stands: its number, its offset in the log, and how many records of the log
/// stand before it.
#[derive(Clone, Copy, Debug, PartialEq, Eq)]
pub(crate) struct LogPlace {
    pub rec: u64,
    pub at: u64,
    pub done: u32,
}

// The place behind a record of so many bytes.
fn place_behind(place: LogPlace, size: usize) -> LogPlace
    requires rec { place.rec + 1 < 2 ^ 64 }
    requires at { place.at + size < 2 ^ 64 }
    requires done { place.done + 1 < 2 ^ 32 }
    ensures { result ≡ record { rec = place.rec + 1; at = place.at + size; done = place.done + 1 } }
{
    LogPlace {
        rec: place.rec + 1,
        at: place.at + size as u64,
        done: place.done + 1,
    }
}

/// How long the first record is. Truncated says that no whole record is there.
pub(crate) fn first_of(bytes: &[u8]) -> Result<usize, CutFault>
    ensures first { MatchResult result (λ size. first_record bytes.now ≡ Ok (take size bytes.now, drop size bytes.now))
        (λ fault. first_record bytes.now ≡ Err fault) }
    ensures whole { IfOk result (λ size. size ≤ length bytes.now) }
    ensures short { IfOk result (λ size. size ≤ MAX_RECORD) }
{
    let size = u32_in(bytes, 0) as usize;
    let count = u16_in(bytes, 12);
    if bytes.len() < 4 {
        return Err(CutFault::Truncated);
    }
    if size < MIN_RECORD || size > MAX_RECORD {
        return Err(CutFault::Length);
    }
    if bytes.len() < size {
        return Err(CutFault::Truncated);
    }
    if count == 0 || count as usize > MAX_VECTORS {
        return Err(CutFault::Count);
    }
    Ok(size)
}

/// What bytes give: the records that are cut off them, the place behind these, the bytes that wait for more, and the
/// first fault.
#[derive(Drop)]
pub(crate) struct Taken {
    pub raws: Vec<Raw>,
    pub place: LogPlace,
    pub left: Vec<u8>,
    pub cause: Option<CutFault>,
}

// What is told of a record that cannot be cut off: of one that is not whole nothing, since it may become so.
fn told(fault: CutFault) -> Option<CutFault>
    ensures { result ≡ told_of fault }
{
    match fault {
        CutFault::Truncated => None,
        CutFault::Length => Some(CutFault::Length),
        CutFault::Count => Some(CutFault::Count),
        CutFault::Trailing => Some(CutFault::Trailing),
    }
}

fn raw_of(alloc: Global, head: Header, place: LogPlace, bytes: &[u8]) -> Result<Raw, NoMemory>
    requires at { place.at + length bytes.now < 2 ^ 64 }
    requires done { place.done + 1 < 2 ^ 32 }
    ensures { IfOk result (λ raw. raw ≡ raw_of_bytes head place bytes.now) }
{
    match Vec::from_slice(alloc, bytes) {
        Ok(kept) => Ok(Raw {
            rec: place.rec,
            head,
            end: place.at + bytes.len() as u64,
            done: place.done + 1,
            bytes: Bytes::of(kept),
        }),
        Err(_) => Err(NoMemory),
    }
}

// The bytes of a record that is not whole.
fn waiting(alloc: Global, bytes: &[u8]) -> Result<Vec<u8>, NoMemory>
    ensures { IfOk result (λ left. left.items ≡ bytes.now) }
{
    match Vec::from_slice(alloc, bytes) {
        Ok(left) => Ok(left),
        Err(_) => Err(NoMemory),
    }
}

// The cut ends before these bytes, of which none is a whole record.
fn stop(
    alloc: Global,
    raws: Vec<Raw>,
    place: LogPlace,
    bytes: &[u8],
    cause: Option<CutFault>,
) -> Result<Taken, NoMemory>
    ensures { IfOk result (λ taken. cut_of_taken taken ≡
        record { raws = raws.items; place = place; left = left_after cause bytes.now; cause = cause }) }
{
    let left = match cause {
        Some(_) => Vec::new(alloc),
        None => waiting(alloc, bytes)?,
    };
    Ok(Taken {
        raws,
        place,
        left,
        cause,
    })
}

// What is told of bytes behind the last record of a log.
fn trailing(rest: &[u8]) -> Option<CutFault>
    ensures { result ≡ (if length rest.now == 0 then None else Some Trailing) }
{
    if rest.is_empty() {
        None
    } else {
        Some(CutFault::Trailing)
    }
}

/// Cuts off what is whole, up to the first fault. The records stand behind those that were cut before.
pub(crate) fn taken_off(
    alloc: Global,
    head: Header,
    start: LogPlace,
    before: Vec<Raw>,
    bytes: &[u8],
) -> Result<Taken, NoMemory>
    requires { NumbersFit head start }
    ensures cut { IfOk result (λ taken. with_raws before.items (cut_off head (head.count - start.done) start bytes.now) ≡
        cut_of_taken taken) }
    ensures ready { IfOk result (λ taken. NumbersFit head taken.place) }
{
    let mut raws = before;
    let mut place = start;
    let mut used = 0;
    while place.done < head.count {
        let rest = &bytes[used..];
        match first_of(rest) {
            Ok(size) => {
                let raw = raw_of(alloc, head, place, &rest[..size])?;
                if raws.push(raw).is_err() {
                    return Err(NoMemory);
                }
                place = place_behind(place, size);
                used += size;
            }
            Err(fault) => return stop(alloc, raws, place, rest, told(fault)),
        }
    }
    let rest = &bytes[used..];
    stop(alloc, raws, place, rest, trailing(rest))
}

// These bytes are one whole record.
fn is_one(bytes: &[u8]) -> bool
    ensures { IsTrue result → first_record bytes.now ≡ Ok (bytes.now, []) }
{
    match first_of(bytes) {
        Ok(size) => size == bytes.len(),
        Err(_) => false,
    }
}

/// These bytes wait for more: they are the front of a record of the log.
pub(crate) fn is_front(head: Header, place: LogPlace, bytes: &[u8]) -> bool
    ensures { IsTrue result → cut_off head (head.count - place.done) place bytes.now ≡
        record { raws = []; place = place; left = bytes.now; cause = None } }
{
    place.done < head.count && is_truncated(bytes)
}

// No whole record is there, and none of its tests has failed so far.
fn is_truncated(bytes: &[u8]) -> bool
    ensures { IsTrue result → first_record bytes.now ≡ Err Truncated }
{
    match first_of(bytes) {
        Err(CutFault::Truncated) => true,
        Err(CutFault::Length) | Err(CutFault::Count) | Err(CutFault::Trailing) | Ok(_) => false,
    }
}

// The record of these bytes, as the first of a list.
fn first(alloc: Global, head: Header, place: LogPlace, bytes: &[u8]) -> Result<Vec<Raw>, NoMemory>
    requires at { place.at + length bytes.now < 2 ^ 64 }
    requires done { place.done + 1 < 2 ^ 32 }
    ensures { IfOk result (λ raws. raws.items ≡ raw_of_bytes head place bytes.now ∷ []) }
{
    let raw = raw_of(alloc, head, place, bytes)?;
    let mut raws = Vec::new(alloc);
    match raws.push(raw) {
        Ok(()) => Ok(raws),
        Err(_) => Err(NoMemory),
    }
}

// These bytes one behind the other.
fn joined(alloc: Global, front: &[u8], rest: &[u8]) -> Result<Vec<u8>, NoMemory>
    ensures { IfOk result (λ all. all.items ≡ front.now ++ rest.now) }
{
    let mut all = waiting(alloc, front)?;
    match all.extend_from_slice(rest) {
        Ok(()) => Ok(all),
        Err(_) => Err(NoMemory),
    }
}

/// What bytes give behind those that wait. Where these are one whole record, or none, no byte of `rest` is copied but into
/// its record.
pub(crate) fn taken_behind(
    alloc: Global,
    head: Header,
    start: LogPlace,
    waiting: &[u8],
    rest: &[u8],
) -> Result<Taken, NoMemory>
    requires { NumbersFit head start }
    ensures cut { IfOk result (λ taken. cut_off head (head.count - start.done) start (waiting.now ++ rest.now) ≡
        cut_of_taken taken) }
    ensures ready { IfOk result (λ taken. NumbersFit head taken.place) }
{
    if waiting.is_empty() {
        return taken_off(alloc, head, start, Vec::new(alloc), rest);
    }
    if start.done < head.count && is_one(waiting) {
        let before = first(alloc, head, start, waiting)?;
        return taken_off(
            alloc,
            head,
            place_behind(start, waiting.len()),
            before,
            rest,
        );
    }
    let all = joined(alloc, waiting, rest)?;
    taken_off(alloc, head, start, Vec::new(alloc), &all)
}
