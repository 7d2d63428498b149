//! How a command ends: its status, which the program gives as its exit code.
//!
//! A status says where the command ended and carries what its last line has to print. Statuses for faults of a
//! device come only where that device's count of faults rose.

ghost use Rattle.std.specs.Prelude.{◌≡◌, ◌<◌, IfOk};
ghost use Rattle.rl_base.specs.Status.{code_of};

use rl_value::{Bytes, NoMemory};

/// How a command ends.
#[derive(Debug, Drop)]
pub enum Status {
    /// All was done.
    Done,
    /// The words are none of the program's commands.
    Usage,
    /// A call of the archive failed.
    ArchiveFault,
    /// A call of the source failed.
    SourceFault,
    /// A call of the sink failed, or it took nothing.
    SinkFault,
    /// A call of the durable store failed.
    KeeperFault,
    /// A call of the spill store failed.
    SpillFault,
    /// The last run ended at a gap of the archived logs.
    Gap,
    /// The last run ended at a malformed record.
    Malformed,
    /// The last run ended at an apply conflict.
    Mismatch,
    /// The line of this number, from 1, is the first that is no statement.
    BadStatement(u32),
    /// The first key of the durable store that is not of its layout, with its area.
    BadKeeper { area: u8, key: Bytes },
    /// The statement at this line, from 1, wants threads, and the caller has none.
    NeedsThreads(u32),
    /// The last run ended since there would be too many rows.
    RowLimit,
    /// There was no memory.
    Memory,
    /// The spill store gave other bytes than those that were put under this id.
    BadSpill(u64),
    /// What is asked for is not built yet.
    NotBuilt,
}

impl Status {
    /// The program's exit code.
    pub fn code(&self) -> u8
        ensures exact { result ≡ code_of self.now }
    {
        match self {
            Status::Done => 0,
            Status::Usage => 2,
            Status::ArchiveFault => 3,
            Status::SourceFault => 4,
            Status::SinkFault => 5,
            Status::KeeperFault => 6,
            Status::SpillFault => 7,
            Status::Gap => 8,
            Status::Malformed => 9,
            Status::Mismatch => 10,
            Status::BadStatement(_) => 11,
            Status::BadKeeper { .. } => 12,
            Status::NeedsThreads(_) => 13,
            Status::RowLimit => 14,
            Status::Memory => 15,
            Status::BadSpill(_) => 16,
            Status::NotBuilt => 17,
        }
    }

    /// An equal one, which owns memory of its own.
    pub fn copy(&self) -> Result<Status, NoMemory>
        ensures equal { IfOk result (λ status. status ≡ self.now) }
    {
        match self {
            Status::Done => Ok(Status::Done),
            Status::Usage => Ok(Status::Usage),
            Status::ArchiveFault => Ok(Status::ArchiveFault),
            Status::SourceFault => Ok(Status::SourceFault),
            Status::SinkFault => Ok(Status::SinkFault),
            Status::KeeperFault => Ok(Status::KeeperFault),
            Status::SpillFault => Ok(Status::SpillFault),
            Status::Gap => Ok(Status::Gap),
            Status::Malformed => Ok(Status::Malformed),
            Status::Mismatch => Ok(Status::Mismatch),
            Status::BadStatement(line) => Ok(Status::BadStatement(*line)),
            Status::BadKeeper { area, key } => {
                let key = key.copy()?;
                Ok(Status::BadKeeper { area: *area, key })
            }
            Status::NeedsThreads(line) => Ok(Status::NeedsThreads(*line)),
            Status::RowLimit => Ok(Status::RowLimit),
            Status::Memory => Ok(Status::Memory),
            Status::BadSpill(id) => Ok(Status::BadSpill(*id)),
            Status::NotBuilt => Ok(Status::NotBuilt),
        }
    }
}
