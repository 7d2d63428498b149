//! Whole commands over devices in memory: that memory is enough, and the exit code of each end but want of memory.
//!
//! The log is the first one of examples/; its text and the lines of its faults come from docs/FORMATS.md.
use crate::exit::code_of;
use crate::run;
use crate::words::Command;
use rl_mem::{MemSink, MemSource};
use std::alloc::Global;
use std::test::Fail;

const TEXT: &str =
    "LOG 1\nDBID 9\nFIRST 100\nNEXT 200\nRECORD 100\nTABLE 1 T.A COLUMNS ID:NUMBER KEY ID\nDICTEND\n\
    RECORD 101\nSTART 1.2.3\nINSERT 1.2.3 T.A NEW ID=7\nRECORD 102\nCOMMIT 1.2.3\n";

const HEAD: &str = "LOG 1\nDBID 9\nFIRST 100\nNEXT 200\n";

/// What is shown of the log without its last byte.
const CUT_OFF: &str =
    "LOG 1\nDBID 9\nFIRST 100\nNEXT 200\nRECORD 100\nTABLE 1 T.A COLUMNS ID:NUMBER KEY ID\nDICTEND\n\
    RECORD 101\nSTART 1.2.3\nINSERT 1.2.3 T.A NEW ID=7\nFAULT 3 TRUNCATED 123\n";

/// What is shown of its first 39 bytes.
const SHORT: &str = "FAULT 1 HEADER SHORT 0 X'53524C31000100010000000900000001'\n";

/// The device whose first call fails.
#[derive(Clone, Copy, PartialEq, Eq)]
enum Failing {
    None,
    Input,
    Output,
}

// The calls of a device that fail.
fn calls(alloc: Global, first: bool) -> Result<Vec<u64>, Fail> {
    let mut calls = Vec::new(alloc);
    if first {
        calls.push(1)?;
    }
    Ok(calls)
}

// The exit code, and what is written.
fn done(
    alloc: Global,
    command: Command,
    bytes: &[u8],
    failing: Failing,
) -> Result<(u8, Vec<u8>), Fail> {
    let input_calls = calls(alloc, failing == Failing::Input)?;
    let out_calls = calls(alloc, failing == Failing::Output)?;
    let mut input = MemSource::new(Vec::from_slice(alloc, bytes)?, input_calls);
    let mut out = MemSink::new(alloc, 1000, out_calls)?;
    let end = run(alloc, command, &mut input, &mut out);
    let written = Vec::from_slice(alloc, out.bytes())?;
    Ok((code_of(end), written))
}

fn front(bytes: &[u8], count: usize) -> &[u8] {
    if count < bytes.len() {
        return &bytes[..count];
    }
    bytes
}

#[test]
fn each_end_has_its_exit_code(rt: HostRuntime) -> Result<(), Fail> {
    let alloc = rt.alloc();
    let (_, log) = done(alloc, Command::Write, TEXT.as_bytes(), Failing::None)?;
    let log = log.as_slice();
    let twice = b"LOG 1\nLOG 1".as_slice();
    let cases = [
        (Command::Show, log, Failing::None, 0, TEXT),
        (Command::Head, log, Failing::None, 0, HEAD),
        (Command::Show, front(log, 145), Failing::None, 9, CUT_OFF),
        (Command::Head, front(log, 145), Failing::None, 0, HEAD),
        (Command::Show, front(log, 39), Failing::None, 9, SHORT),
        (Command::Head, front(log, 39), Failing::None, 9, SHORT),
        (Command::Write, twice, Failing::None, 11, ""),
        (Command::Wrong, log, Failing::None, 2, ""),
        (Command::Show, log, Failing::Input, 4, ""),
        (Command::Head, log, Failing::Output, 5, ""),
    ];
    for (command, bytes, failing, code, text) in cases {
        let (found, written) = done(alloc, command, bytes, failing)?;
        let held = found == code && written.as_slice() == text.as_bytes();
        assert!(rt; held, "{command:?} ended with {found}, not {code}");
    }
    Ok(())
}
