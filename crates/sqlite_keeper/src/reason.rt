//! Why a call on the file failed, for the person at the terminal.
//!
//! No contract speaks of a reason but of `Memory`: want of memory is no failure of the file, and is not counted.
use sqlite::{Error, ErrorCode};
use std::fmt;
use std::fmt::{Display, Formatter};

/// Why a call failed. It is shown as a sentence without a full stop.
#[derive(Clone, Copy, Debug, PartialEq, Eq)]
pub enum Reason {
    /// Another program, or another keeper, has the file open.
    InUse,
    /// The file or its log is not there and can't be made, or is nothing that this user may read and write: a folder, a link, a
    /// file with two names, or one beside which a program left a rollback journal.
    NotOpened,
    /// The file holds no SQLite database, or one whose rows break its own schema.
    NoDatabase,
    /// Its pages are damaged.
    Damaged,
    /// The table in the place of `kept` has other columns.
    OtherTable,
    /// There is no room on the disk.
    DiskFull,
    /// The disk did not read, write or sync.
    Disk,
    /// There is no memory, or a pair is larger than SQLite takes. It is no failure, and nothing was changed.
    Memory,
}

impl Display for Reason {
    fn fmt<W: fmt::Write>(&self, f: &mut Formatter<W>) -> fmt::Result {
        f.write_str(match self {
            Reason::InUse =>
                "standby.db is open in another program, and only one may use it at a time",
            Reason::NotOpened =>
                "standby.db can't be opened or made; it must be a regular file that this user may read and write",
            Reason::NoDatabase =>
                "standby.db is no SQLite database, or its rows break its own schema",
            Reason::Damaged => "standby.db is damaged",
            Reason::OtherTable => "standby.db has another table in the place of kept",
            Reason::DiskFull => "the disk of standby.db is full",
            Reason::Disk => "the disk of standby.db can't be read or written",
            Reason::Memory => "out of memory",
        })
    }
}

/// The reason behind an error of a call on the file.
pub fn reason_of(error: Error) -> Reason {
    let Error::SqliteFailure(code) = error else {
        return Reason::OtherTable;
    };
    match code {
        ErrorCode::OutOfMemory | ErrorCode::TooBig => Reason::Memory,
        ErrorCode::DatabaseBusy => Reason::InUse,
        ErrorCode::CannotOpen => Reason::NotOpened,
        ErrorCode::NotADatabase => Reason::NoDatabase,
        ErrorCode::DatabaseCorrupt => Reason::Damaged,
        ErrorCode::DiskFull => Reason::DiskFull,
        ErrorCode::SystemIoFailure | ErrorCode::Closed => Reason::Disk,
        _ => Reason::OtherTable,
    }
}
