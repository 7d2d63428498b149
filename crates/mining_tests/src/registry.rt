//! Looks at five logs, in whole and in short reads and with a fault at each call; gaps, ends and copies of three logs.
ghost use Rattle.std.specs.Prelude.{◌≡◌};

use crate::shelf::{FIRST, Shelf};
use log_registry::*;
use redo_wire::Header;
use rl_value::HeadFault;
use std::alloc::Global;
use std::test::Fail;

const OF_DATABASE_8: &str = "LOG 3\nDBID 8\nFIRST 100\nNEXT 200\nRECORD 100\nDICTEND\n";

const FOURTH: &str = "LOG 4\nDBID 9\nFIRST 100\nNEXT 200\nRECORD 100\nDICTEND\n";

// Log 1 is of database 9, log 2 has the header of log 1, log 3 is of database 8, log 4 has 39 bytes. A read gives so many bytes at
// most.
fn shelf_of(alloc: Global, most: usize, fails_at: u64) -> Result<Shelf, Fail> {
    let mut shelf = Shelf::new(alloc, most, fails_at);
    shelf.put(1, FIRST, 146)?;
    shelf.put(2, FIRST, 146)?;
    shelf.put(3, OF_DATABASE_8, 146)?;
    shelf.put(4, FOURTH, 39)?;
    Ok(shelf)
}

fn entry(seq: u32) -> LogEntry
    ensures { result.head.seq ≡ seq }
{
    LogEntry {
        head: Header {
            seq,
            dbid: 9,
            first: 100,
            next: 200,
            count: 3,
        },
        length: 146,
    }
}

fn looked(
    alloc: Global,
    most: usize,
    fails_at: u64,
    seq: u32,
) -> Result<Result<LogEntry, RegFault>, Fail> {
    let mut shelf = shelf_of(alloc, most, fails_at)?;
    Ok(inspect(&mut shelf, seq, 9))
}

#[test]
fn a_log_is_refused_for_its_first_fault(rt: HostRuntime) -> Result<(), Fail> {
    let cases = [
        (1, Ok(entry(1))),
        (2, Err(RegFault::BadHeader(HeadFault::Sequence))),
        (3, Err(RegFault::WrongDb)),
        (4, Err(RegFault::BadHeader(HeadFault::Short))),
        (7, Err(RegFault::NoLog)),
    ];
    for (seq, want) in cases {
        // In whole, and in short reads.
        for most in [146, 7] {
            assert!(rt; looked(rt.alloc(), most, 0, seq)? == want, "log {seq}");
        }
    }
    Ok(())
}

// The length is asked first; then come six reads of at most seven bytes.
#[test]
fn a_fault_of_any_call_is_told(rt: HostRuntime) -> Result<(), Fail> {
    for call in 1..8 {
        let want = Err(RegFault::ArchiveFault);
        assert!(rt; looked(rt.alloc(), 7, call, 1)? == want, "call {call}");
    }
    assert!(rt; looked(rt.alloc(), 7, 8, 1)? == Ok(entry(1)));
    Ok(())
}

// A log or a gap, with its ends; nothing at the end.
fn seen(next: Next<'_>) -> Option<(bool, u32, u32)> {
    match next {
        Next::Log(entry) => Some((true, entry.head.seq, entry.head.seq)),
        Next::End => None,
        Next::Gap { low, high } => Some((false, low, high)),
    }
}

fn three_logs(alloc: Global) -> Result<Registry, Fail> {
    let mut registry = Registry::new(alloc);
    for seq in [5, 1, 2] {
        if !registry.has(seq) && registry.insert(entry(seq)).is_err() {
            return Err(Fail::from("no memory"));
        }
    }
    Ok(registry)
}

#[test]
fn a_gap_has_both_its_ends(rt: HostRuntime) -> Result<(), Fail> {
    let registry = three_logs(rt.alloc())?;
    let cases = [
        (0, Some((false, 0, 0))),
        (1, Some((true, 1, 1))),
        (2, Some((true, 2, 2))),
        (3, Some((false, 3, 4))),
        (4, Some((false, 4, 4))),
        (5, Some((true, 5, 5))),
        (6, None),
    ];
    for (seq, want) in cases {
        assert_eq!(rt; seen(registry.next(seq)), want, "from {seq}");
        assert_eq!(rt;
            registry.has(seq),
            seq == 1 || seq == 2 || seq == 5,
            "log {seq}"
        );
    }
    Ok(())
}

#[test]
fn a_copy_has_the_same_logs_in_order(rt: HostRuntime) -> Result<(), Fail> {
    let registry = three_logs(rt.alloc())?;
    let Ok(copy) = registry.copy() else {
        return Err(Fail::from("no memory"));
    };
    let mut logs = copy.entries();
    for seq in [1, 2, 5] {
        assert_eq!(rt; logs.next().map(|entry| entry.head.seq), Some(seq));
    }
    assert!(rt; logs.next().is_none());
    Ok(())
}
