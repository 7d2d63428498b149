//! What the program says on the standard error, for the person at the terminal: a page of usage, its version, or the sentence
//! that says why a command did not end as asked.
//!
//! Programs read the standard output and the exit code, which nothing here changes: a write to the standard error that fails is
//! passed over. Words for help and for the version are none of the commands, so they end as Usage.
use crate::sentence::{sentence_of, status_of};
use rl_base::Status;
use rl_value::Bytes;
use std::process::ExitCode;

/// The commands, the files, the exit codes, an example, and where the manual is.
const PAGE: &str = "\
Usage: sqlapply fold SEQ

Folds the archived redo log with the log sequence number SEQ over empty tables
and prints them. SEQ is 1 to 4294967295, without a sign or a leading zero.
It reads the file redo/log_SEQ.srl of the current folder, and changes no file.
The commands run, mine and load aren't built yet.

Exit code, why, and the last line on the standard output:
   0  the log is folded to its end              END scn commits DRAINED
   2  the words are none of the commands        FAULT USAGE
   3  the log can't be read                     FAULT ARCHIVE
   5  the standard output can't be written      cut short
   8  the log isn't there                       END .. GAP SEQ SEQ
   9  the log is damaged                        END .. MALFORMED record cause
  10  a change doesn't fit the rows             END .. MISMATCH scn change ..
  14  the tables would pass 1048576 rows        END .. ROWLIMIT scn
  15  out of memory                             FAULT MEMORY
  17  the command isn't built yet               FAULT NOTBUILT

Example: cd examples/first_log && ../../sqlapply fold 1
Manual:  docs/MANUAL.md
";

/// The program, its version, and the toolchain that it is proved with.
const VERSION: &str = "sqlapply 0.1, proved with rattle-kit-13f logic dac8208d650f15bf";

/// What the words ask of the program itself.
#[derive(Clone, Copy)]
pub enum Request {
    /// The page of usage.
    Help,
    /// The version.
    Version,
    /// A command, or none that there is.
    Command,
}

/// What the first of the words asks.
pub fn request_of(words: &[Bytes]) -> Request {
    let [first, ..] = words else {
        return Request::Command;
    };
    match first.bytes() {
        b"help" | b"--help" | b"-h" => Request::Help,
        b"--version" => Request::Version,
        _ => Request::Command,
    }
}

// Says the sentence of this status, if it has one.
fn tell_status<R: Eprint>(rt: &R, status: &Status, words: &[Bytes]) {
    if let Some(sentence) = sentence_of(status, words) {
        let _ = eprintln!(rt; "sqlapply: {sentence}");
    }
}

/// Says that memory ran out before the words were known.
pub fn tell_memory<R: Eprint>(rt: &R) {
    tell_status(rt, &Status::Memory, &[]);
}

// Says why a command ended so, if it isn't done, and how commands are written where these words are none.
fn tell_end<R: Eprint>(rt: &R, code: ExitCode, words: &[Bytes]) {
    let Some(status) = status_of(code) else {
        return;
    };
    tell_status(rt, &status, words);
    if let Status::Usage = status {
        let _ = eprint!(rt; "\n{PAGE}");
    }
}

/// Says what the person who wrote these words should know, now that they ended with this code.
pub fn tell<R: Eprint>(rt: &R, code: ExitCode, words: &[Bytes]) {
    match request_of(words) {
        Request::Help => {
            let _ = eprint!(rt; "{PAGE}");
        }
        Request::Version => {
            let _ = eprintln!(rt; "{VERSION}");
        }
        Request::Command => tell_end(rt, code, words),
    }
}
