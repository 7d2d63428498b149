//! A first log: the first fault of its header and records, its records in pieces of each length, and copies.
use crate::shelf::{FIRST, log_of};
use redo_wire::*;
use rl_value::{CutFault, HeadFault};
use std::alloc::Global;
use std::test::Fail;

const HEAD: Header = Header {
    seq: 1,
    dbid: 9,
    first: 100,
    next: 200,
    count: 3,
};

// The first log with one byte changed.
fn changed(alloc: Global, at: usize, byte: u8) -> Result<Vec<u8>, Fail> {
    let mut log = log_of(alloc, FIRST)?;
    if let Some(old) = log.get_mut(at) {
        *old = byte;
    }
    Ok(log)
}

// The bytes up to a place, and those behind it; all or none where there are fewer.
fn front(bytes: &[u8], at: usize) -> &[u8] {
    if at < bytes.len() {
        &bytes[..at]
    } else {
        bytes
    }
}

fn behind(bytes: &[u8], at: usize) -> &[u8] {
    if at < bytes.len() { &bytes[at..] } else { &[] }
}

// The records of the first log.
fn records(alloc: Global) -> Result<Vec<u8>, Fail> {
    let log = log_of(alloc, FIRST)?;
    Ok(Vec::from_slice(alloc, behind(log.as_slice(), HEADER_LENGTH))?)
}

#[test]
fn the_first_fault_of_a_header(rt: HostRuntime) -> Result<(), Fail> {
    let mut log = log_of(rt.alloc(), FIRST)?;
    assert!(rt; read_header(log.as_slice(), 1) == Ok(HEAD));
    log.truncate(39);
    assert!(rt; read_header(log.as_slice(), 1) == Err(HeadFault::Short));
    let cases = [
        (0, 0, HeadFault::Magic),
        (5, 2, HeadFault::Version),
        (7, 2, HeadFault::Thread),
        (15, 2, HeadFault::Sequence),
        (23, 0, HeadFault::Range),
        (31, 100, HeadFault::Range),
        (35, 0, HeadFault::Records),
        (39, 1, HeadFault::Reserved),
    ];
    for (at, byte, fault) in cases {
        let log = changed(rt.alloc(), at, byte)?;
        assert!(rt; read_header(log.as_slice(), 1) == Err(fault), "at {at}");
    }
    Ok(())
}

// The records begin at 40, 75 and 123: the length is in their bytes 0 to 3, the number of vectors in 12 and 13.
#[test]
fn the_first_fault_of_the_records(rt: HostRuntime) -> Result<(), Fail> {
    let truncated = Some(CutFault::Truncated);
    let cases = [
        (43, 14, 0, Some(CutFault::Length), None),
        (41, 1, 0, Some(CutFault::Length), None),
        (53, 0, 0, Some(CutFault::Count), None),
        (87, 1, 1, Some(CutFault::Count), None),
        (126, 24, 2, None, truncated),
        (126, 22, 3, Some(CutFault::Trailing), None),
    ];
    for (at, byte, count, cause, end) in cases {
        let log = changed(rt.alloc(), at, byte)?;
        let mut cutter = Cutter::new(rt.alloc(), HEAD, 1, 40, 0);
        let Ok(fed) = cutter.feed(behind(log.as_slice(), HEADER_LENGTH)) else {
            return Err(Fail::from("no memory"));
        };
        assert_eq!(rt; fed.raws.items().len(), count, "at {at}");
        assert_eq!(rt; fed.cause, cause, "at {at}");
        assert_eq!(rt; cutter.finish(), end, "at {at}");
    }
    Ok(())
}

// The numbers, ends and bytes of the records, in pieces of each length from 1 on.
#[test]
fn pieces_of_each_length_give_the_same_records(rt: HostRuntime) -> Result<(), Fail> {
    let log = records(rt.alloc())?;
    for size in 1..107 {
        let mut cutter = Cutter::new(rt.alloc(), HEAD, 1, 40, 0);
        let mut ends = Vec::new(rt.alloc());
        let mut bytes = Vec::new(rt.alloc());
        for piece in log.chunks(size) {
            let Ok(fed) = cutter.feed(piece) else {
                return Err(Fail::from("no memory"));
            };
            assert_eq!(rt; fed.cause, None, "in pieces of {size}");
            for raw in fed.raws.items() {
                ends.push((raw.rec, raw.end, raw.done))?;
                bytes.extend_from_slice(raw.bytes.bytes())?;
            }
        }
        assert_eq!(rt;
            ends.as_slice(),
            [(1, 75, 1), (2, 123, 2), (3, 146, 3)].as_slice()
        );
        assert!(rt; bytes.as_slice() == log.as_slice());
        assert_eq!(rt; cutter.finish(), None);
    }
    Ok(())
}

// The number, the end and the count of each record.
fn places(alloc: Global, raws: &Raws) -> Result<Vec<(u64, u64, u32)>, Fail> {
    let mut places = Vec::new(alloc);
    for raw in raws.items() {
        places.push((raw.rec, raw.end, raw.done))?;
    }
    Ok(places)
}

// What the records are at these numbers, ends and counts.
fn are_at(alloc: Global, raws: &Raws, want: &[(u64, u64, u32)]) -> Result<bool, Fail> {
    Ok(places(alloc, raws)?.as_slice() == want)
}

// A copy of the only record is at its place, and has its bytes.
fn is_copied(raws: &Raws, bytes: &[u8]) -> Result<bool, Fail> {
    let [raw] = raws.items() else {
        return Ok(false);
    };
    let raw = raw.copy()?;
    Ok(
        raw.rec == 1
            && raw.end == 75
            && raw.done == 1
            && raw.head == HEAD
            && raw.bytes.bytes() == bytes,
    )
}

#[test]
fn a_copy_has_the_same_records(rt: HostRuntime) -> Result<(), Fail> {
    let alloc = rt.alloc();
    let log = records(alloc)?;
    let mut cutter = Cutter::new(alloc, HEAD, 1, 40, 0);
    let first = front(log.as_slice(), 35);
    let fed = cutter.feed(first)?;
    assert!(rt; are_at(alloc, &fed.raws, &[(1, 75, 1)])?);
    let again = fed.copy()?;
    assert!(rt; again.cause.is_none());
    assert!(rt; are_at(alloc, &again.raws, &[(1, 75, 1)])?);
    let raws = again.raws.copy()?;
    assert!(rt; are_at(alloc, &raws, &[(1, 75, 1)])?);
    assert!(rt; is_copied(&raws, first)?);
    Ok(())
}

// A cutter and its copy each go on from where they stand: the first record, and a part of the second.
#[test]
fn a_copy_goes_on_by_itself(rt: HostRuntime) -> Result<(), Fail> {
    let alloc = rt.alloc();
    let log = records(alloc)?;
    let mut cutter = Cutter::new(alloc, HEAD, 1, 40, 0);
    let _ = cutter.feed(front(log.as_slice(), 60))?;
    let mut copy = cutter.copy()?;
    let others = [(2, 123, 2), (3, 146, 3)];
    let fed = copy.feed(behind(log.as_slice(), 60))?;
    assert!(rt; are_at(alloc, &fed.raws, &others)?);
    assert!(rt; copy.finish().is_none());
    assert!(rt; cutter.finish() == Some(CutFault::Truncated));
    let fed = cutter.feed(behind(log.as_slice(), 60))?;
    assert!(rt; are_at(alloc, &fed.raws, &others)?);
    Ok(())
}
