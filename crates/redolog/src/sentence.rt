//! What is said on the standard error.
use crate::refusal::{Refusal, StreamFault};
use redo_text::LineFault;
use std::io::Eprint;

/// The page of usage.
const USAGE: &str = "\
Usage: redolog write < TEXT > LOG
       redolog show < LOG > TEXT
       redolog head < LOG

write makes the archived log that a text says, or names its first bad line and
writes nothing. show prints a log as such a text, up to its first fault; head
prints the header alone.

Exit code: 0 done; 2 usage; 4 the input can't be read; 5 the output can't be
written; 9 the log is damaged; 11 a bad line, or a text of over 1 GiB;
15 out of memory.";

fn why(fault: LineFault) -> &'static str {
    match fault {
        LineFault::Words => "the words are none of a line",
        LineFault::Number => "a number or a transaction id is none, or out of its range",
        LineFault::Literal => "a value is no literal",
        LineFault::NoTable => "no table of this name was said before",
        LineFault::NoColumn => "the table has no column of this name",
        LineFault::Columns => "columns don't rise, or there are too many or none",
        LineFault::Name => "a name is none, and not 1 to 30 bytes as X'HEX'",
        LineFault::Order => "the line may not stand here",
        LineFault::Twice => "the line was given before",
        LineFault::Long => "the record has more than 65536 bytes",
        LineFault::Many => "the record has more than 255 vectors, or the log too many records",
        LineFault::Empty => "the record before has no vector, or there is no record",
    }
}

fn why_no_further(fault: StreamFault) -> &'static str {
    match fault {
        StreamFault::Input => "the standard input can't be read",
        StreamFault::Output => "the standard output can't be written",
        StreamFault::Memory => "out of memory",
    }
}

/// Says why a command did not end as asked. A write to the standard error that fails is passed over.
pub fn tell<R: Eprint>(rt: &R, refusal: Refusal) {
    match refusal {
        Refusal::Usage => {
            let _ = eprintln!(rt; "{USAGE}");
        }
        Refusal::Line { line, fault } => {
            let why = why(fault);
            let _ = eprintln!(rt; "redolog: line {line}: {why}");
        }
        Refusal::Long => {
            let _ = eprintln!(rt; "redolog: the text has more than 1 GiB");
        }
        Refusal::Damaged => {
            let _ = eprintln!(rt; "redolog: the log has a fault, which the last line names");
        }
        Refusal::Stream(fault) => {
            let why = why_no_further(fault);
            let _ = eprintln!(rt; "redolog: {why}");
        }
    }
}
