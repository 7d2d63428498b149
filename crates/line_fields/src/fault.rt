//! Why a line is bad: its first fault from left to right, or want of memory.
ghost use Rattle.std.specs.Prelude.{◌≡◌};
ghost use Rattle.line_fields.specs.declared.fault.ReadFault.TheVariants as reads;

use rl_value::NoMemory;
use std::alloc::{AllocError, AllocFailed};

/// Why a line is bad.
#[derive(Clone, Copy, Debug, PartialEq, Eq)]
pub enum LineFault {
    /// The words are not those of a line: a keyword that is none, too many words or too few, an empty word, a cell that
    /// is no column and value, or a keyword with no cell or no key behind it.
    Words,
    /// A number is not in decimal without a sign or a leading zero, or out of its range; a transaction id is not three
    /// numbers; or the size of a type is not 1 to 500. Or no SCN is above the greatest one, where one above it is meant.
    Number,
    /// A value is no literal.
    Literal,
    /// No table of this name was said before.
    NoTable,
    /// The table has no column of this name.
    NoColumn,
    /// Columns do not rise or are over 31, a table has not 1 to 32 of them, or it has more than four unique keys.
    Columns,
    /// A schema, a table or a column of a TABLE line is neither a name nor 1 to 30 bytes in hexadecimal.
    Name,
    /// A line that may not stand there: LOG is not the first line, a line of the heading stands behind a RECORD or another line
    /// before the first one, or DBID was not said before the first RECORD.
    Order,
    /// A line of the heading says what an earlier one did.
    Twice,
    /// With this vector the record has more than 65,536 bytes.
    Long,
    /// A record has more than 255 vectors, or a log more than 4,294,967,295 records.
    Many,
    /// The record before this line, or before the end, has no vector; or the text ends without a record.
    Empty,
}

/// Why a line is not read.
#[derive(Clone, Copy, Debug, PartialEq, Eq)]
pub enum ReadFault {
    /// The first fault of the line.
    Line(LineFault),
    /// There is no memory.
    Memory,
}

impl From<LineFault> for ReadFault {
    ghost from_gives = { λ fault e. e ≡ reads.Line fault };

    fn from(fault: LineFault) -> ReadFault {
        ReadFault::Line(fault)
    }
}

impl From<NoMemory> for ReadFault {
    ghost from_gives = { λ _ e. e ≡ reads.Memory };

    fn from(_e: NoMemory) -> ReadFault {
        ReadFault::Memory
    }
}

impl From<AllocError> for ReadFault {
    ghost from_gives = { λ _ e. e ≡ reads.Memory };

    fn from(_e: AllocError) -> ReadFault {
        ReadFault::Memory
    }
}

impl<T: Drop> From<AllocFailed<T>> for ReadFault {
    ghost from_gives = { λ _ e. e ≡ reads.Memory };

    fn from(_e: AllocFailed<T>) -> ReadFault {
        ReadFault::Memory
    }
}
