//! Folds the logs of the examples and compares each with its text, so that what `examples/` shows stays true.
//!
//! For each example it prints the name, whether the text says the log, the lines of the fold, and the exit code.
#![tactic(auto)]

use file_ports::{FileArchive, StdSink, StdSource};
use redo_text::write_log;
use rl_value::Bytes;
use standby::{Ended, Unused, sqlapply_still};
use std::alloc::{AllocError, Global};
use std::fs::Files;
use std::{fs, io};

/// An example: the log that is folded, and a text with the log that it says.
#[derive(Clone, Copy)]
struct Example {
    name: &'static str,
    seq: &'static str,
    text: &'static str,
    log: &'static str,
}

const EXAMPLES: [Example; 5] = [
    Example {
        name: "first_log",
        seq: "1",
        text: "log_1.txt",
        log: "redo/log_1.srl",
    },
    Example {
        name: "an_undone_update",
        seq: "2",
        text: "log_2.txt",
        log: "redo/log_2.srl",
    },
    Example {
        name: "a_gap",
        seq: "4",
        text: "log_3.txt",
        log: "redo/log_3.srl",
    },
    Example {
        name: "a_locked_key",
        seq: "5",
        text: "log_5.txt",
        log: "redo/log_5.srl",
    },
    Example {
        name: "a_damaged_record",
        seq: "6",
        text: "log_6.txt",
        log: "redo/log_6.srl",
    },
];

// What the text says of the log beside it.
fn comparison(alloc: Global, text: &[u8], log: &[u8]) -> &'static str {
    match write_log(alloc, text) {
        Err(_) => "the text says no log",
        Ok(bytes) => {
            if bytes.as_slice() == log {
                "the text says this log"
            } else {
                "the text says another log"
            }
        }
    }
}

fn word(alloc: Global, text: &str) -> Result<Bytes, AllocError> {
    Ok(Bytes::of(Vec::from_slice(alloc, text.as_bytes())?))
}

// The words of the command that folds this log.
fn fold_words(alloc: Global, seq: &str) -> Result<Vec<Bytes>, AllocError> {
    let fold = word(alloc, "fold")?;
    let seq = word(alloc, seq)?;
    Ok(vec![in alloc; fold, seq]?)
}

// Folds the log as `sqlapply` does, and gives the exit code. None where there is no memory for the words or the devices.
fn fold<R: Files + Input + Print + AllocGlobal>(rt: &R, seq: &str) -> Option<u8> {
    let alloc = rt.alloc();
    let (Ok(words), Ok(mut out), Ok(mut input), Ok(archive)) = (
        fold_words(alloc, seq),
        StdSink::new(rt),
        StdSource::new(rt),
        FileArchive::new(rt),
    ) else {
        return None;
    };
    let Ended { status, .. } = sqlapply_still(
        alloc, &words, &mut input, &mut out, archive, Unused, Unused,
    );
    Some(status.code())
}

fn show<R: Files + Input + Print + AllocGlobal>(rt: &R, example: Example) -> io::Result<()> {
    let text = fs::read(rt, example.text)?;
    let log = fs::read(rt, example.log)?;
    let said = comparison(rt.alloc(), &text, &log);
    println!(rt; "{}: {said}", example.name)?;
    match fold(rt, example.seq) {
        None => println!(rt; "out of memory")?,
        Some(code) => println!(rt; "exit code {code}")?,
    }
    Ok(())
}

fn main(rt: HostRuntime) -> io::Result<()> {
    for example in EXAMPLES {
        show(&rt, example)?;
    }
    Ok(())
}
