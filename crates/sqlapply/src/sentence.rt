//! Why a command did not end as asked: one sentence for each status but Done.
//!
//! A sentence names the log's file or the word, and says where the last line on the standard output says more.
//! A name is shown in ASCII, other bytes of it as in a Rust literal, so that it can do nothing to a terminal.
ghost use Rattle.std.specs.Prelude.{◌≡◌, ◌↔◌, None, IfSome};
ghost use Rattle.std.specs.Process.{exit_status};
ghost use Rattle.rl_base.specs.Status.{code_of};

use rl_base::Status;
use rl_value::Bytes;
use std::fmt;
use std::fmt::{Display, Formatter};
use std::process::ExitCode;

/// A sentence with a name in it.
#[derive(Clone, Copy, Drop)]
pub struct Sentence<'w> {
    before: &'static str,
    name: &'w [u8],
    after: &'static str,
}

impl Display for Sentence<'_> {
    fn fmt<W: fmt::Write>(&self, f: &mut Formatter<W>) -> fmt::Result {
        let before = self.before;
        let name = self.name.escape_ascii();
        let after = self.after;
        write!(f, "{before}{name}{after}")
    }
}

// A sentence without a name.
fn plain<'w>(text: &'static str) -> Sentence<'w> {
    Sentence {
        before: text,
        name: b"",
        after: "",
    }
}

// A sentence that begins with the file of the log that the words of a fold name.
fn of_log<'w>(words: &'w [Bytes], after: &'static str) -> Sentence<'w> {
    match words {
        [_, seq, ..] => Sentence {
            before: "redo/log_",
            name: seq.bytes(),
            after,
        },
        _ => Sentence {
            before: "redo/log_SEQ",
            name: b"",
            after,
        },
    }
}

// What is wrong with words that begin so and are none of the commands.
fn of_wrong(first: &[u8]) -> Sentence<'_> {
    if first == b"fold".as_slice() {
        return plain(
            "fold takes one log sequence number, 1 to 4294967295 in decimal, without a sign or a leading zero",
        );
    }
    Sentence {
        before: "there is no command \"",
        name: first,
        after: "\"",
    }
}

// What is wrong with words that are none of the commands.
fn of_usage(words: &[Bytes]) -> Sentence<'_> {
    match words {
        [] => plain("no command is given"),
        [first, ..] => of_wrong(first.bytes()),
    }
}

// What is said of a command that isn't built yet.
fn of_later(words: &[Bytes]) -> Sentence<'_> {
    match words {
        [first, ..] => Sentence {
            before: "the command ",
            name: first.bytes(),
            after: " isn't built yet; fold is the only one so far",
        },
        [] => plain("the command isn't built yet"),
    }
}

/// Why the command of these words ended with this status.
pub fn sentence_of<'w>(status: &Status, words: &'w [Bytes]) -> Option<Sentence<'w>>
    ensures none_for_done_alone { (result ≡ None) ↔ (status.now ≡ Status.Done) }
{
    match status {
        Status::Done => None,
        Status::Usage => Some(of_usage(words)),
        Status::ArchiveFault => Some(of_log(
            words,
            ".srl can't be read; it must be a regular file that this user may read",
        )),
        Status::SourceFault => Some(plain("the standard input can't be read")),
        Status::SinkFault => Some(plain(
            "the standard output can't be written; its lines are cut short",
        )),
        Status::KeeperFault => Some(plain("the durable store can't be read or written")),
        Status::SpillFault => Some(plain("the spill store can't be read or written")),
        Status::Gap => Some(of_log(
            words,
            ".srl isn't there; it is looked for in the current folder",
        )),
        Status::Malformed => Some(of_log(
            words,
            ".srl is damaged: see the END line, which names the record and the cause",
        )),
        Status::Mismatch => Some(of_log(
            words,
            ".srl has an apply conflict: see the END line, which names the change and what it misses",
        )),
        Status::BadStatement(_) => Some(plain("the script has a line that is no statement")),
        Status::BadKeeper { .. } => Some(plain("the durable store is damaged")),
        Status::NeedsThreads(_) => Some(plain("the script has a statement that needs threads")),
        Status::RowLimit => Some(of_log(
            words,
            ".srl makes more than 1048576 rows: see the END line, which has the SCN of the commit",
        )),
        Status::Memory => Some(plain("out of memory")),
        Status::BadSpill(_) => Some(plain("the spill store is damaged")),
        Status::NotBuilt => Some(of_later(words)),
    }
}

/// The status with this exit code, if it is one that comes so far.
pub fn status_of(code: ExitCode) -> Option<Status>
    ensures same_code { IfSome result (λ status. code_of status ≡ exit_status code) }
{
    let statuses = [
        Status::Done,
        Status::Usage,
        Status::ArchiveFault,
        Status::SinkFault,
        Status::Gap,
        Status::Malformed,
        Status::Mismatch,
        Status::RowLimit,
        Status::Memory,
        Status::NotBuilt,
    ];
    for status in statuses {
        if ExitCode::from(status.code()) == code {
            return Some(status);
        }
    }
    None
}
