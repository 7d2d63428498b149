//! The words of the command line, also long ones; and the sentence of each status.
use crate::help::{Request, request_of};
use crate::sentence::{sentence_of, status_of};
use crate::words::words_of as words_in;
use rl_value::Bytes;
use std::alloc::{AllocError, Global};
use std::env::{Env, FillError};
use std::process::ExitCode;
use std::test::Fail;

/// A command line of words of these lengths, each of the byte `w` alone.
#[derive(Clone, Copy)]
struct Lengths {
    lengths: [usize; 5],
}

impl Env for Lengths {
    fn arg(&self, i: usize, buf: &mut [u8]) -> Result<usize, FillError> {
        let Some(length) = self.lengths.get(i) else {
            return Err(FillError::NotPresent);
        };
        if *length > buf.len() {
            return Err(FillError::TooLong);
        }
        buf[..*length].fill(b'w');
        Ok(*length)
    }

    fn var(&self, _name: &str, _buf: &mut [u8]) -> Result<usize, FillError> {
        Err(FillError::NotPresent)
    }

    fn var_at(&self, _i: usize, _buf: &mut [u8]) -> Result<usize, FillError> {
        Err(FillError::NotPresent)
    }
}

#[test]
fn words_of_each_length_are_taken_whole(rt: HostRuntime) -> Result<(), Fail> {
    let line = Lengths {
        lengths: [8, 0, 64, 65, 200],
    };
    let words = words_in(&line, rt.alloc())?;
    assert_eq!(rt; words.len(), 4);
    for (word, length) in words.iter().zip([0, 64, 65, 200]) {
        assert_eq!(rt; word.bytes().len(), length);
        assert!(rt; word.bytes().iter().all(|byte| *byte == b'w'));
    }
    Ok(())
}

// The words of a line, which have one space between them.
fn words_in_line(alloc: Global, line: &str) -> Result<Vec<Bytes>, AllocError> {
    let mut words = Vec::new(alloc);
    for word in line.split_ascii_whitespace() {
        words.push(Bytes::of(Vec::from_slice(alloc, word.as_bytes())?))?;
    }
    Ok(words)
}

// What is said of a command that ended with this exit code; nothing where it has no sentence.
fn said(alloc: Global, line: &str, code: u8) -> Result<String, AllocError> {
    let words = words_in_line(alloc, line)?;
    let Some(status) = status_of(ExitCode::from(code)) else {
        return String::from_str(alloc, "no status");
    };
    match sentence_of(&status, &words) {
        Some(sentence) => sentence.to_string(alloc),
        None => String::from_str(alloc, ""),
    }
}

#[test]
fn each_status_has_its_sentence(rt: HostRuntime) -> Result<(), Fail> {
    let cases = [
        ("fold 7", 0, ""),
        ("", 2, "no command is given"),
        (
            "fold 07",
            2,
            "fold takes one log sequence number, 1 to 4294967295 in decimal, without a sign or a leading zero",
        ),
        ("flod 7", 2, "there is no command \"flod\""),
        ("fl\u{1b}d", 2, "there is no command \"fl\\x1bd\""),
        (
            "fold 7",
            3,
            "redo/log_7.srl can't be read; it must be a regular file that this user may read",
        ),
        (
            "fold 7",
            5,
            "the standard output can't be written; its lines are cut short",
        ),
        (
            "fold 7",
            8,
            "redo/log_7.srl isn't there; it is looked for in the current folder",
        ),
        (
            "fold 7",
            9,
            "redo/log_7.srl is damaged: see the END line, which names the record and the cause",
        ),
        (
            "fold 7",
            10,
            "redo/log_7.srl has an apply conflict: see the END line, which names the change and what it misses",
        ),
        (
            "fold 7",
            14,
            "redo/log_7.srl makes more than 1048576 rows: see the END line, which has the SCN of the commit",
        ),
        ("fold 7", 15, "out of memory"),
        (
            "mine 1 7",
            17,
            "the command mine isn't built yet; fold is the only one so far",
        ),
        // No command ends with these so far.
        ("fold 7", 1, "no status"),
        ("fold 7", 11, "no status"),
    ];
    for (line, code, want) in cases {
        let found = said(rt.alloc(), line, code)?;
        assert_eq!(rt; found.as_str(), want, "of {line}, {code}");
    }
    Ok(())
}

#[test]
fn help_and_version_are_asked_by_the_first_word(rt: HostRuntime) -> Result<(), Fail> {
    for line in ["help", "--help", "-h", "help fold"] {
        let words = words_in_line(rt.alloc(), line)?;
        assert!(rt; matches!(request_of(&words), Request::Help), "by {line}");
    }
    for line in ["", "fold 1", "fold help", "HELP", "-v"] {
        let words = words_in_line(rt.alloc(), line)?;
        assert!(rt; matches!(request_of(&words), Request::Command), "by {line}");
    }
    let words = words_in_line(rt.alloc(), "--version")?;
    assert!(rt; matches!(request_of(&words), Request::Version));
    Ok(())
}
