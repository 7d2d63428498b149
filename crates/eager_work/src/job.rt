//! A job: a chunk of changes that is to be tried ahead of its commit; and its outcome.
ghost use Rattle.std.specs.Prelude.{◌≡◌, ◌++◌, IfOk, IfErr, map};
ghost use Rattle.redo_spec.specs.Tables.{definitions_of};
ghost use Rattle.row_apply.specs.Overlaid.{overlaid};
ghost use Rattle.row_apply.specs.Soundness.{AreSound};
ghost use Rattle.lcr.specs.Chunks.{placed};
ghost use Rattle.eager_work.specs.Attempts.{writes, attempted_all, marks, placed_marks};
ghost use Rattle.eager_work.specs.Jobs.{no_pos, last_from};

use crate::work::Work;
use lcr::{Chunk, Lcr};
use redo_dict::Dict;
use rl_value::{NoMemory, Pos, Xid};
use row_apply::Rows;
use skip_guard::Skips;

/// The next changes of a transaction that are to be tried.
#[derive(Drop)]
pub struct Job {
    /// Its number among the jobs of the run.
    pub id: u64,
    /// The position of the transaction's START.
    pub start: Pos,
    pub xid: Xid,
    pub chunk: Chunk,
    /// The commits that have to be applied before: tables of a lower count won't do.
    pub water: u64,
    /// What was made of the changes before the chunk.
    pub before: Work,
}

impl Job {
    /// An equal one, which shares what is done.
    pub fn copy(&self) -> Result<Job, NoMemory>
        ensures equal { IfOk result (λ job. job ≡ self.now) }
    {
        let chunk = self.chunk.copy()?;
        let before = self.before.snapshot()?;
        Ok(Job {
            id: self.id,
            start: self.start,
            xid: self.xid,
            chunk,
            water: self.water,
            before,
        })
    }
}

/// What came of a job.
#[derive(Drop)]
pub struct Outcome {
    /// The job's number.
    pub id: u64,
    /// The job's transaction, by the position of its START.
    pub start: Pos,
    /// The position of the last change of the chunk.
    pub last: Pos,
    /// The count at whose tables the changes were tried.
    pub n: u64,
    /// The work with the chunk's changes.
    pub after: Work,
}

impl Outcome {
    /// An equal one, which shares what is done.
    pub fn copy(&self) -> Result<Outcome, NoMemory>
        ensures equal { IfOk result (λ outcome. outcome ≡ self.now) }
    {
        let after = self.after.snapshot()?;
        Ok(Outcome {
            id: self.id,
            start: self.start,
            last: self.last,
            n: self.n,
            after,
        })
    }
}

// The position of the last change.
fn last_of(items: &[Lcr]) -> Pos
    ensures { result ≡ last_from no_pos (map placed items.now) }
{
    let mut last = Pos { rec: 0, vec: 0 };
    let mut rest = items;
    while let [lcr, others @ ..] = rest {
        last = lcr.pos;
        rest = others;
    }
    last
}

/// Tries the job's changes, in their order, over the base with what the work before them left in place. The dictionary is that
/// of the base. Where memory wants the job comes back as it was. Where the base, or the base with the work in place, isn't sound,
/// what comes of a change is not told. It costs what its changes cost; behind an UNDO, or from a snapshot, a walk over the work.
pub fn run_job<R: Rows>(
    job: Job,
    base: &R,
    n: u64,
    dict: &Dict,
    skips: &Skips,
) -> Result<Outcome, (NoMemory, Job)>
    requires definitions { definitions_of (R.tables base.now) ≡ dict.now.tables }
    ensures worked { AreSound (R.tables base.now) → AreSound (overlaid (R.tables base.now) (writes job.before)) →
        IfOk result (λ o. o.after ≡ attempted_all dict.now.tables skips.now n (R.tables base.now) job.before job.chunk) }
    ensures marked { IfOk result (λ o. marks o.after ≡ marks job.before ++ placed_marks n job.chunk) }
    ensures id { IfOk result (λ o. o.id ≡ job.id) }
    ensures start { IfOk result (λ o. o.start ≡ job.start) }
    ensures last { IfOk result (λ o. o.last ≡ last_from no_pos job.chunk) }
    ensures count { IfOk result (λ o. o.n ≡ n) }
    ensures back { IfErr result (λ refused. refused.1 ≡ job) }
{
    let mut job = job;
    let lcrs = job.chunk.items();
    let last = last_of(lcrs);
    match job.before.with_chunk(base, n, dict, skips, lcrs) {
        Ok(after) => Ok(Outcome {
            id: job.id,
            start: job.start,
            last,
            n,
            after,
        }),
        Err(NoMemory) => Err((NoMemory, job)),
    }
}
