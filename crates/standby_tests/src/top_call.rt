//! Whole commands over small devices: ends of a fold but the row limit, all kinds of words, devices that fail.
//!
//! Expected lines and statuses come from the formats and the table of answers (docs/FORMATS.md, README.md).
ghost use Rattle.std.specs.Prelude.{None, Some, true, false, refl};

use redo_text::write_log;
use rl_ports::{Archive, Failed, Sink, Source};
use rl_value::Bytes;
use standby::{Unused, sqlapply_still};
use std::alloc::Global;
use std::process::Abort;
use std::test::Fail;

/// The first log: T.A with one number column ID, and a transaction that inserts 7.
const FIRST: &str = "LOG 1\nDBID 9\nFIRST 100\nNEXT 200\n\
    RECORD 100\nTABLE 1 T.A COLUMNS ID:NUMBER KEY ID\nDICTEND\n\
    RECORD 101\nSTART 1.2.3\nINSERT 1.2.3 T.A NEW ID=7\nRECORD 102\nCOMMIT 1.2.3\n";

/// The same log, but its last vector is a ROLLBACK.
const ROLLED_BACK: &str = "LOG 1\nDBID 9\nFIRST 100\nNEXT 200\n\
    RECORD 100\nTABLE 1 T.A COLUMNS ID:NUMBER KEY ID\nDICTEND\n\
    RECORD 101\nSTART 1.2.3\nINSERT 1.2.3 T.A NEW ID=7\nRECORD 102\nROLLBACK 1.2.3\n";

/// HR.EMP (ID, NAME, EMAIL): a transaction inserts a row, changes its name, takes the change back, and commits.
const UNDONE: &str = "LOG 1\nDBID 9\nFIRST 100\nNEXT 200\nRECORD 100\n\
    TABLE 1 HR.EMP COLUMNS ID:NUMBER NAME:TEXT:30:NULL EMAIL:TEXT:30:NULL KEY ID UNIQUE EMAIL\nDICTEND\n\
    RECORD 101\nSTART 1.1.1\nINSERT 1.1.1 HR.EMP NEW ID=1 NAME='Ann' EMAIL=NULL\n\
    RECORD 102\nUPDATE 1.1.1 HR.EMP OLD ID=1 NAME='Ann' NEW NAME='Bob'\n\
    RECORD 103\nUNDO 1.1.1\nRECORD 104\nCOMMIT 1.1.1\n";

/// HR.EMP: two transactions insert a row of the same key, and neither has ended.
const LOCKED: &str = "LOG 1\nDBID 9\nFIRST 100\nNEXT 200\nRECORD 100\n\
    TABLE 1 HR.EMP COLUMNS ID:NUMBER NAME:TEXT:30:NULL EMAIL:TEXT:30:NULL KEY ID UNIQUE EMAIL\nDICTEND\n\
    RECORD 101\nSTART 1.1.1\nINSERT 1.1.1 HR.EMP NEW ID=1 NAME=NULL EMAIL=NULL\n\
    RECORD 102\nSTART 2.1.1\nINSERT 2.1.1 HR.EMP NEW ID=1 NAME=NULL EMAIL=NULL\n";

/// HR.EMP: the record that ends the dictionary has two transactions besides, which insert a row of the same key.
const LOCKED_AT_ONCE: &str = "LOG 1\nDBID 9\nFIRST 100\nNEXT 200\nRECORD 100\n\
    TABLE 1 HR.EMP COLUMNS ID:NUMBER NAME:TEXT:30:NULL EMAIL:TEXT:30:NULL KEY ID UNIQUE EMAIL\nDICTEND\n\
    START 1.1.1\nINSERT 1.1.1 HR.EMP NEW ID=1 NAME=NULL EMAIL=NULL\n\
    START 2.1.1\nINSERT 2.1.1 HR.EMP NEW ID=1 NAME=NULL EMAIL=NULL\n";

/// HR.EMP: a transaction updates a row that is not there, and commits.
const ABSENT: &str = "LOG 1\nDBID 9\nFIRST 100\nNEXT 200\nRECORD 100\n\
    TABLE 1 HR.EMP COLUMNS ID:NUMBER NAME:TEXT:30:NULL EMAIL:TEXT:30:NULL KEY ID UNIQUE EMAIL\nDICTEND\n\
    RECORD 101\nSTART 1.1.1\nUPDATE 1.1.1 HR.EMP OLD ID=1 NAME='O''Neil' EMAIL=NULL NEW NAME=NULL EMAIL='o@x'\n\
    RECORD 102\nCOMMIT 1.1.1\n";

const LINES: &str = "APPLIED_SCN 102\nTABLE T.A 1\nROW 7\nEND 102 1 DRAINED\n";

/// What the archive has under sequence 1. It has nothing under any other.
#[derive(Clone, Copy, Debug, PartialEq, Eq)]
enum Held {
    First,
    /// The first log without its last byte.
    CutShort,
    /// The first log, of which a length of 4,096 is told.
    SaidLonger,
    /// The log that a text says.
    Other(&'static str),
    /// Each call fails.
    Failing,
}

/// An archive of at most one log. It tells nothing.
#[derive(Drop)]
struct Shelf {
    held: Held,
    bytes: Vec<u8>,
    faults: u64,
}

impl Shelf {
    fn of(alloc: Global, held: Held) -> Result<Shelf, Fail> {
        let text = match held {
            Held::Other(text) => text,
            _ => FIRST,
        };
        let mut bytes = write_log(alloc, text.as_bytes())?;
        if held == Held::CutShort {
            let _last = bytes.pop();
        }
        Ok(Shelf {
            held,
            bytes,
            faults: 0,
        })
    }
}

impl Archive for Shelf {
    ghost tells = { false };

    ghost logs = { λ _. None };

    ghost counts_failures_alone = { true };

    ghost faults = { λ shelf. shelf.faults };

    ghost telling = { λ _. refl };

    fn length(&mut self, seq: u32) -> Result<Option<u64>, Failed> {
        match self.held {
            Held::Failing => {
                self.faults = self.faults.saturating_add(1);
                Err(Failed)
            }
            Held::SaidLonger => Ok(Some(4096)),
            _ if seq == 1 => Ok(Some(self.bytes.len() as u64)),
            _ => Ok(None),
        }
    }

    fn read(&mut self, _seq: u32, at: u64, into: &mut [u8]) -> Result<usize, Failed> {
        if at >= self.bytes.len() as u64 {
            return Ok(0);
        }
        let rest = &self.bytes[at as usize..];
        let count = rest.len().min(into.len());
        into[..count].copy_from_slice(&rest[..count]);
        Ok(count)
    }
}

/// A sink with room for so many bytes. It tells what was written.
#[derive(Drop)]
struct Paper {
    bytes: Vec<u8>,
    room: usize,
    faults: u64,
}

impl Sink for Paper {
    ghost written = { λ paper. Some paper.bytes.items };

    ghost counts_failures_alone = { true };

    ghost faults = { λ paper. paper.faults };

    fn write(&mut self, from: &[u8]) -> Result<usize, Failed> {
        let count = from.len().min(self.room);
        if count > 0 && self.bytes.extend_from_slice(&from[..count]).is_ok() {
            self.room -= count;
            return Ok(count);
        }
        self.faults = self.faults.saturating_add(1);
        Err(Failed)
    }
}

/// A source that no command calls so far.
#[derive(Drop)]
struct NoSource;

impl Source for NoSource {
    ghost left = { λ _. None };

    ghost counts_failures_alone = { true };

    ghost faults = { λ _. 0 };

    fn read(&mut self, _into: &mut [u8]) -> Result<usize, Failed> {
        Ok(0)
    }
}

/// A command, what it finds, and what must come: the status's code and all that is written.
#[derive(Clone, Copy)]
struct Case {
    words: &'static [&'static str],
    held: Held,
    room: usize,
    code: u8,
    text: &'static str,
}

/// A case whose sink has room for all.
fn with_room(words: &'static [&'static str], held: Held, code: u8, text: &'static str) -> Case {
    Case {
        words,
        held,
        room: 1000,
        code,
        text,
    }
}

fn check(rt: &impl Abort, alloc: Global, case: &Case) -> Result<(), Fail> {
    let mut words = Vec::new(alloc);
    for word in case.words {
        words.push(Bytes::of(Vec::from_slice(alloc, word.as_bytes())?))?;
    }
    let mut out = Paper {
        bytes: Vec::new(alloc),
        room: case.room,
        faults: 0,
    };
    let shelf = Shelf::of(alloc, case.held)?;
    let ended = sqlapply_still(
        alloc,
        &words,
        &mut NoSource,
        &mut out,
        shelf,
        Unused,
        Unused,
    );
    let found = ended.status.code();
    assert_eq!(rt;
        found,
        case.code,
        "words {:?}, log {:?}",
        case.words, case.held
    );
    assert_eq!(rt;
        out.bytes.as_slice(),
        case.text.as_bytes(),
        "words {:?}, log {:?}",
        case.words,
        case.held
    );
    Ok(())
}

#[test]
fn ends_of_a_fold_have_their_status_and_lines(rt: HostRuntime) -> Result<(), Fail> {
    let cases = [
        with_room(&["fold", "1"], Held::First, 0, LINES),
        with_room(
            &["fold", "1"],
            Held::Other(ROLLED_BACK),
            0,
            "APPLIED_SCN 99\nTABLE T.A 0\nEND 99 0 DRAINED\n",
        ),
        with_room(
            &["fold", "1"],
            Held::CutShort,
            9,
            "APPLIED_SCN 99\nTABLE T.A 0\nEND 99 0 MALFORMED 3 TRUNCATED\n",
        ),
        with_room(
            &["fold", "2"],
            Held::First,
            8,
            "APPLIED_SCN 0\nEND 0 0 GAP 2 2\n",
        ),
        // What comes before a read of 0 bytes is the log.
        with_room(&["fold", "1"], Held::SaidLonger, 0, LINES),
        // Its header has another sequence.
        with_room(
            &["fold", "2"],
            Held::SaidLonger,
            9,
            "APPLIED_SCN 0\nEND 0 0 MALFORMED 1 HEADER SEQUENCE\n",
        ),
        with_room(
            &["fold", "1"],
            Held::Other(UNDONE),
            0,
            "APPLIED_SCN 104\nTABLE HR.EMP 1\nROW 1 'Ann' NULL\nEND 104 1 DRAINED\n",
        ),
        with_room(
            &["fold", "1"],
            Held::Other(LOCKED),
            9,
            "APPLIED_SCN 99\nTABLE HR.EMP 0\nEND 99 0 MALFORMED 3 LOCK HR.EMP 0 (1) 1.1.1\n",
        ),
        // No table is shown, and still the lock's is named.
        with_room(
            &["fold", "1"],
            Held::Other(LOCKED_AT_ONCE),
            9,
            "APPLIED_SCN 99\nEND 99 0 MALFORMED 1 LOCK HR.EMP 0 (1) 1.1.1\n",
        ),
        with_room(
            &["fold", "1"],
            Held::Other(ABSENT),
            10,
            "APPLIED_SCN 99\nTABLE HR.EMP 0\nEND 99 0 MISMATCH 102 2.2 HR.EMP ABSENT (1)\n",
        ),
    ];
    for case in &cases {
        check(&rt, rt.alloc(), case)?;
    }
    Ok(())
}

#[test]
fn words_that_are_no_command_are_refused(rt: HostRuntime) -> Result<(), Fail> {
    let cases: [&'static [&'static str]; 8] = [
        &[],
        &["fold"],
        &["fold", "0"],
        &["fold", "01"],
        &["fold", "4294967296"],
        &["fold", "1", "2"],
        &["fold", "+1"],
        &["Fold", "1"],
    ];
    for words in cases {
        check(
            &rt,
            rt.alloc(),
            &with_room(words, Held::First, 2, "FAULT USAGE\n"),
        )?;
    }
    Ok(())
}

#[test]
fn later_commands_are_not_built(rt: HostRuntime) -> Result<(), Fail> {
    let cases: [&'static [&'static str]; 4] = [
        &["run"],
        &["mine", "1", "1"],
        &["load", "0", "1"],
        &["run", "x"],
    ];
    for words in cases {
        check(
            &rt,
            rt.alloc(),
            &with_room(words, Held::First, 17, "FAULT NOTBUILT\n"),
        )?;
    }
    Ok(())
}

#[test]
fn a_device_that_fails_is_named(rt: HostRuntime) -> Result<(), Fail> {
    let cases = [
        with_room(&["fold", "1"], Held::Failing, 3, "FAULT ARCHIVE\n"),
        // The words go before the archive.
        with_room(&["fold", "0"], Held::Failing, 2, "FAULT USAGE\n"),
        Case {
            words: &["fold", "1"],
            held: Held::First,
            room: 20,
            code: 5,
            text: "APPLIED_SCN 102\nTABL",
        },
        // A last line that is refused leaves the status as it is.
        Case {
            words: &["fold", "1"],
            held: Held::Failing,
            room: 5,
            code: 3,
            text: "FAULT",
        },
    ];
    for case in &cases {
        check(&rt, rt.alloc(), case)?;
    }
    Ok(())
}
