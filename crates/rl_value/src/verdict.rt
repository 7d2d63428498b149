//! How the redo ends, and how a run over it ends.
//!
//! A miss or the row limit goes before any end of the redo, since its COMMIT stands before that end.

ghost use Rattle.std.specs.Prelude.{◌≡◌, ◌<◌, IfOk};

use crate::cause::Cause;
use crate::memory::NoMemory;
use crate::miss::Miss;
use crate::pos::Pos;
use crate::scn::Scn;

/// How the redo of the registered logs ends.
#[derive(Debug, Drop)]
pub enum Stop {
    /// All registered logs were read, and none is missing below the last.
    Drained,
    /// An archive gap: the sequences `low` to `high` are missing, both included.
    Gap { low: u32, high: u32 },
    /// The record of this number is malformed. Records count from 1 over all logs.
    Malformed { rec: u64, cause: Cause },
}

/// How a run ends.
#[derive(Debug, Drop)]
pub enum Verdict {
    /// All that the redo holds up to its end was applied.
    Stopped(Stop),
    /// A change of the first commit that is not applied, with the SCN of that commit, does not find the rows as they were logged.
    Mismatch {
        scn: Scn,
        pos: Pos,
        table: u32,
        miss: Miss,
    },
    /// The first commit that is not applied, with this SCN, would leave too many rows.
    RowLimit {
        scn: Scn,
    },
}

impl Stop {
    /// An equal one, which owns memory of its own.
    pub fn copy(&self) -> Result<Stop, NoMemory>
        ensures equal { IfOk result (λ stop. stop ≡ self.now) }
    {
        match self {
            Stop::Drained => Ok(Stop::Drained),
            Stop::Gap { low, high } => Ok(Stop::Gap {
                low: *low,
                high: *high,
            }),
            Stop::Malformed { rec, cause } => {
                let cause = cause.copy()?;
                Ok(Stop::Malformed { rec: *rec, cause })
            }
        }
    }
}

impl Verdict {
    /// An equal one, which owns memory of its own.
    pub fn copy(&self) -> Result<Verdict, NoMemory>
        ensures equal { IfOk result (λ verdict. verdict ≡ self.now) }
    {
        match self {
            Verdict::Stopped(stop) => Ok(Verdict::Stopped(stop.copy()?)),
            Verdict::Mismatch {
                scn,
                pos,
                table,
                miss,
            } => {
                let miss = miss.copy()?;
                Ok(Verdict::Mismatch {
                    scn: *scn,
                    pos: *pos,
                    table: *table,
                    miss,
                })
            }
            Verdict::RowLimit { scn } => Ok(Verdict::RowLimit { scn: *scn }),
        }
    }
}
