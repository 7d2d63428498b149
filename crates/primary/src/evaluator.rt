//! The evaluator, which takes the records of a redo one by one.
ghost use Rattle.std.specs.Prelude.{◌≡◌, ◌+◌, ◌<◌, ◌≤◌, ◌^◌, [], IfOk, OnOk, Err, true, false};
ghost use Rattle.redo_spec.specs.Tables.{assembled};
ghost use Rattle.row_apply.specs.Soundness.{AreSound};
ghost use Rattle.plain_store.specs.Kept.{AreKept};
ghost use Rattle.primary.specs.Progress.{is_going, recs_of, OnGoing, RowsAreSound, progress_after_record, end_of};
ghost use Rattle.primary.specs.Starts.{IsStart, first_progress, folded_of};
ghost use Rattle.primary.specs.declared.fault.TakeFault.TheVariants.{Unsound};

use crate::fault::TakeFault;
use crate::live_changes::LiveChanges;
use crate::plain::{Folded, Plain};
use crate::running::Running;
use plain_store::{KeepFault, Kept, PlainTables, UniqueIndex, keep};
use redo_dict::Dict;
use redo_law::Law;
use redo_spec::Header;
use redo_vec::RedoRec;
use rl_value::{NoMemory, Stop, Verdict};
use skip_guard::Skips;
use std::alloc::Global;
use std::marker::Model;

/// A fold between two records. It is seen as how far it has come.
#[derive(Drop)]
pub struct Evaluator {
    run: Running,
    end: Option<Verdict>,
}

impl Model for Evaluator {
    ghost use Rattle.std.specs.Prelude.{◌≡◌, None};
    ghost use Rattle.row_apply.specs.Soundness.{AreSound};
    ghost use Rattle.primary.specs.Progress.{Progress};
    ghost use Rattle.primary.specs.Running.{IsRunning, progress_of, tables_of};

    ghost Value = { Progress };

    ghost view = { λ e. progress_of e.end e.run };

    // What a fold leaves that has ended are sound tables too.
    ghost invariant = { λ e. (e.end ≡ None → IsRunning e.run) × AreSound (tables_of e.run) };
}

impl Evaluator {
    /// A fold that begins so: no record is taken yet. Where there is no memory, the start is dropped.
    pub fn new(alloc: Global, start: Plain) -> Result<Evaluator, NoMemory>
        requires fits { IsStart start [] }
        ensures begun { IfOk result (λ fold. fold ≡ first_progress start) }
    {
        let Plain {
            law,
            before,
            n,
            scn,
            tables,
        } = start;
        let rec = law.rec;
        let law = match Law::new(alloc, law) {
            Ok(law) => law,
            Err(_) => return Err(NoMemory),
        };
        let whole = law.dict().finished();
        let Kept { index, count } = kept_first(alloc, law.dict(), &tables)?;
        let run = Running {
            alloc,
            law,
            rec,
            live: LiveChanges::new(alloc),
            made: before,
            n,
            scn,
            tables,
            index,
            count,
            whole,
        };
        Ok(Evaluator { run, end: None })
    }

    /// Takes the next record of the redo, in a log of this header, and gives back the fold. Where it has ended, with a bad
    /// record, a miss or the row limit, later records change nothing. After a fault there is no fold any more.
    #[tactic(auto, using(crate::proofs::StepLaws::recs_after))]
    pub fn take(self, head: &Header, rec: RedoRec, skips: &Skips) -> Result<Evaluator, TakeFault>
        requires few { recs_of self + 1 < 2 ^ 64 }
        ensures taken { IfOk result (λ fold. fold ≡ progress_after_record skips.now (head.now, rec) self) }
        ensures records { IfOk result (λ fold. recs_of fold ≤ recs_of self + 1) }
        ensures sound { OnOk result (RowsAreSound (head.now, rec) self) }
        ensures unsound { result ≡ Err Unsound → RowsAreSound (head.now, rec) self → ⊥ }
    {
        let Evaluator { mut run, end } = self;
        if end.is_some() {
            return Ok(Evaluator { run, end });
        }
        let end = run.step(head, rec, skips)?;
        Ok(Evaluator { run, end })
    }

    /// The fold goes on: it has not ended with a bad record, a miss or the row limit.
    pub fn is_going(&self) -> bool
        ensures going { result ≡ is_going self.now }
    {
        self.end.is_none()
    }

    /// The fold, where the redo's records end so. Another fold may begin with its rows.
    pub fn finish(self, stop: Stop) -> Folded
        ensures shown { folded_of result ≡ end_of stop self }
        ensures sound { AreSound (folded_of result).tables }
        ensures dictionary { OnGoing self (λ a. result.dict ≡ a.standing.dictionary) }
        ensures whole { OnGoing self (λ a. result.whole ≡ a.standing.dictionary.finished) }
        ensures waiting { OnGoing self (λ a. result.whole ≡ false → result.tables ≡ a.waiting) }
    {
        let Evaluator { run, end } = self;
        let Running {
            alloc: _,
            law,
            rec: _,
            live: _,
            made: _,
            n,
            scn,
            tables,
            index: _,
            count: _,
            whole,
        } = run;
        let dict = law.into_dict();
        match end {
            None => Folded {
                n,
                scn,
                tables,
                dict,
                whole,
                end: Verdict::Stopped(stop),
            },
            Some(end) => Folded {
                n,
                scn,
                tables,
                dict,
                whole,
                end,
            },
        }
    }
}

// What is kept beside the rows of a start: nothing yet, where they wait for the dictionary.
fn kept_first(alloc: Global, dict: &Dict, tables: &PlainTables) -> Result<Kept, NoMemory>
    requires sound { dict.now.finished ≡ true → AreSound (assembled dict.now.tables tables.now) }
    ensures kept { IfOk result (λ kept. dict.now.finished ≡ true → AreKept dict.now.tables tables.now kept.index kept.count) }
{
    if !dict.finished() {
        return Ok(Kept {
            index: UniqueIndex::new(alloc),
            count: 0,
        });
    }
    match keep(alloc, dict, tables) {
        Ok(kept) => Ok(kept),
        Err(KeepFault::Unsound) => unreachable!(),
        Err(KeepFault::Memory) => Err(NoMemory),
    }
}
