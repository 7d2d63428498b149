//! Readings of small logs: a gap, a record without its last byte, copies, and a fault at each of the archive's calls.
ghost use Rattle.std.specs.Prelude.{◌≤◌, ◌<◌, ◌+◌, ◌*◌, ◌^◌, length, IfOk};
ghost use Rattle.log_registry.specs.Registered.{count_of};

use crate::shelf::Shelf;
use log_registry::{LogEntry, Registry, inspect};
use redo_reader::*;
use redo_wire::HEADER_LENGTH;
use rl_value::{Cause, CutFault, Stop};
use std::alloc::Global;
use std::test::Fail;

// Each record has 23 bytes: a length, an SCN, the number of vectors and one vector of 9 bytes.
const LOG_1: &str = "LOG 1\nDBID 9\nFIRST 100\nNEXT 200\n\
    RECORD 101\nCOMMIT 1.2.3\nRECORD 101\nCOMMIT 1.2.3\nRECORD 101\nCOMMIT 1.2.3\n";

const LOG_2: &str = "LOG 2\nDBID 9\nFIRST 100\nNEXT 200\n\
    RECORD 101\nCOMMIT 1.2.3\nRECORD 101\nCOMMIT 1.2.3\n";

const LOG_5: &str = "LOG 5\nDBID 9\nFIRST 100\nNEXT 200\n\
    RECORD 101\nCOMMIT 1.2.3\nRECORD 101\nCOMMIT 1.2.3\n";

// Five records, of which the last is kept without its last byte.
const LOG_8: &str = "LOG 8\nDBID 9\nFIRST 100\nNEXT 200\n\
    RECORD 101\nCOMMIT 1.2.3\nRECORD 101\nCOMMIT 1.2.3\nRECORD 101\nCOMMIT 1.2.3\n\
    RECORD 101\nCOMMIT 1.2.3\nRECORD 101\nCOMMIT 1.2.3\n";

fn shelf_of(alloc: Global, most: usize, fails_at: u64) -> Result<Shelf, Fail> {
    let mut shelf = Shelf::new(alloc, most, fails_at);
    shelf.put(1, LOG_1, 109)?;
    shelf.put(2, LOG_2, 86)?;
    shelf.put(5, LOG_5, 86)?;
    shelf.put(8, LOG_8, 154)?;
    Ok(shelf)
}

#[derive(Clone, Copy, Debug, PartialEq, Eq)]
enum Seen {
    Record(u64, u32),
    Drained,
    Missing(u32, u32),
    Cut(u64, CutFault),
    Faulted,
    Other,
}

fn seen_of(cut: Result<Cut, CutError>) -> Seen {
    match cut {
        Ok(Cut::Raw(raw)) => Seen::Record(raw.rec, raw.head.seq),
        Ok(Cut::End(Stop::Drained)) => Seen::Drained,
        Ok(Cut::End(Stop::Gap { low, high })) => Seen::Missing(low, high),
        Ok(
            Cut::End(
                Stop::Malformed {
                    rec,
                    cause: Cause::Cut(fault),
                },
            ),
        ) => Seen::Cut(rec, fault),
        Err(CutError::ArchiveFault) => Seen::Faulted,
        _ => Seen::Other,
    }
}

fn register(registry: &mut Registry, entry: LogEntry) -> Result<(), Fail>
    ensures { count_of registry.new ≤ count_of registry.old + 2 ^ 32 }
{
    if registry.has(entry.head.seq) {
        return Ok(());
    }
    match registry.insert(entry) {
        Ok(()) => Ok(()),
        Err(_) => Err(Fail::from("no memory")),
    }
}

fn registry_of(alloc: Global, logs: &[u32]) -> Result<Registry, Fail>
    requires { length logs.now ≤ 3 }
    ensures { IfOk result (λ registry. count_of registry ≤ 3 * 2 ^ 32) }
{
    let mut shelf = shelf_of(alloc, 40, 0)?;
    let mut registry = Registry::new(alloc);
    for seq in logs {
        let Ok(entry) = inspect(&mut shelf, *seq, 9) else {
            return Err(Fail::from("no log"));
        };
        register(&mut registry, entry)?;
    }
    Ok(registry)
}

fn reader_of(
    alloc: Global,
    logs: &[u32],
    most: usize,
    fails_at: u64,
    place: Place,
) -> Result<ReadSide<Shelf>, Fail>
    requires logs { length logs.now ≤ 3 }
    requires place { place.rec < 10 }
{
    let registry = registry_of(alloc, logs)?;
    let shelf = shelf_of(alloc, most, fails_at)?;
    match ReadSide::new(alloc, shelf, registry, place) {
        Ok(reader) => Ok(reader),
        Err(_) => Err(Fail::from("no memory")),
    }
}

const START: Place = Place {
    seq: 1,
    at: HEADER_LENGTH as u64,
    done: 0,
    rec: 0,
};

#[test]
fn a_gap_ends_the_records_for_good(rt: HostRuntime) -> Result<(), Fail> {
    let want = [
        Seen::Record(1, 1),
        Seen::Record(2, 1),
        Seen::Record(3, 1),
        Seen::Record(4, 2),
        Seen::Record(5, 2),
        Seen::Missing(3, 4),
        Seen::Missing(3, 4),
    ];
    for most in [1, 7, 200] {
        let mut reader = reader_of(rt.alloc(), &[1, 2, 5], most, 0, START)?;
        for cut in want {
            assert_eq!(rt; seen_of(reader.cut()), cut, "reads of {most} bytes");
        }
    }
    Ok(())
}

#[test]
fn a_record_without_its_last_byte_is_malformed(rt: HostRuntime) -> Result<(), Fail> {
    let place = Place {
        seq: 8,
        at: HEADER_LENGTH as u64,
        done: 0,
        rec: 0,
    };
    let mut reader = reader_of(rt.alloc(), &[8], 200, 0, place)?;
    for rec in 1..5 {
        assert_eq!(rt; seen_of(reader.cut()), Seen::Record(rec, 8));
    }
    for _ in 0..2 {
        assert_eq!(rt; seen_of(reader.cut()), Seen::Cut(5, CutFault::Truncated));
    }
    Ok(())
}

#[test]
fn a_copy_tells_what_its_original_tells(rt: HostRuntime) -> Result<(), Fail> {
    let mut reader = reader_of(rt.alloc(), &[2, 5], 200, 0, Place { seq: 2, ..START })?;
    for want in [Seen::Record(1, 2), Seen::Record(2, 2), Seen::Missing(3, 4)] {
        let Ok(cut) = reader.cut() else {
            return Err(Fail::from("no memory"));
        };
        let Ok(copy) = cut.copy() else {
            return Err(Fail::from("no memory"));
        };
        assert_eq!(rt; seen_of(Ok(copy)), want);
        assert_eq!(rt; seen_of(Ok(cut)), want);
    }
    Ok(())
}

// From the second record of log 1 on, in short reads of which one fails.
#[test]
fn a_fault_is_told_and_then_the_reading_goes_on(rt: HostRuntime) -> Result<(), Fail> {
    let place = Place {
        seq: 1,
        at: 63,
        done: 1,
        rec: 1,
    };
    let want = [
        Seen::Record(2, 1),
        Seen::Record(3, 1),
        Seen::Record(4, 2),
        Seen::Record(5, 2),
        Seen::Drained,
    ];
    for fails_at in 1..10 {
        let mut reader = reader_of(rt.alloc(), &[1, 2], 11, fails_at, place)?;
        let mut faulted = false;
        for cut in want {
            let mut found = seen_of(reader.cut());
            if found == Seen::Faulted {
                faulted = true;
                found = seen_of(reader.cut());
            }
            assert_eq!(rt; found, cut, "call {fails_at}");
        }
        assert!(rt; faulted, "call {fails_at}");
    }
    Ok(())
}
