//! The work of a transaction that is not committed yet.
//!
//! A work is seen as its attempts, the oldest first: what came of each change, and at which count. What it keeps lies in parts,
//! one a chunk, which a snapshot shares: it costs two counts a chunk, and what is done with it never reaches this work.
ghost use Rattle.std.specs.Prelude.{◌≡◌, ◌≤◌, ◌++◌, [], IfOk, IfSome, Some, None, map, take, length};
ghost use Rattle.redo_spec.specs.Tables.{definitions_of};
ghost use Rattle.row_apply.specs.Overlaid.{overlaid};
ghost use Rattle.row_apply.specs.Soundness.{AreSound};
ghost use Rattle.row_apply.specs.Written.{writes_in};
ghost use Rattle.lcr.specs.Chunks.{placed};
ghost use Rattle.eager_work.specs.Attempts.{attempts_undone, stuck, writes, attempted_all, marks, placed_marks};
ghost use Rattle.eager_work.specs.Keeping.{missed_by, joined, attempts_kept, put_parts};
ghost use Rattle.eager_work.specs.Trying.{attempts_with, IsOver, IsFree};

use crate::gathering::gathered;
use crate::part::{Part, copied_parts, settled, with_part};
use crate::tries::{Tries, try_all};
use crate::waiting::{Conflict, Waiting, copied_conflict, copied_waiting};
use lcr::Lcr;
use redo_dict::Dict;
use rl_value::{Miss, NoMemory, Pos};
use row_apply::{Overlay, Rows, Writes};
use skip_guard::Skips;
use std::alloc::Global;
use std::marker::Model;

/// What was made of a transaction's changes ahead of its commit. Nobody else sees it until the commit is published.
#[derive(Drop)]
pub struct Work {
    pub(crate) alloc: Global,
    pub(crate) parts: Vec<Part>,
    /// How many of the changes of the parts no UNDO took back.
    pub(crate) standing: usize,
    pub(crate) conflict: Option<Conflict>,
    pub(crate) waiting: Vec<Waiting>,
    /// What the changes that stand left, as rows over others. None behind an UNDO and in a snapshot: it is made anew where the
    /// work goes on.
    pub(crate) over: Option<Overlay>,
}

impl Model for Work {
    ghost use Rattle.std.specs.Prelude.{◌≡◌, ◌≤◌, List, [], length, IfSome, None};
    ghost use Rattle.row_apply.specs.Written.{writes_in};
    ghost use Rattle.eager_work.specs.Attempts.{Attempt};

    ghost Value = { List Attempt };

    ghost use Rattle.eager_work.specs.Keeping.{joined, attempts_kept, put_parts};

    ghost view = { λ w. attempts_kept w.parts.items w.standing w.conflict w.waiting.items };

    ghost invariant = { λ w. (w.standing ≤ length (joined w.parts.items)) × (w.conflict ≡ None → w.waiting.items ≡ []) ×
        IfSome w.over (λ o. o ≡ writes_in (put_parts [] w.parts.items w.standing)) };
}

impl Work {
    /// No work. It takes no memory yet.
    pub fn new(alloc: Global) -> Work
        ensures empty { result ≡ [] }
    {
        Work {
            alloc,
            parts: Vec::new(alloc),
            standing: 0,
            conflict: None,
            waiting: Vec::new(alloc),
            over: None,
        }
    }

    /// An equal work, which shares what is done.
    pub fn snapshot(&self) -> Result<Work, NoMemory>
        ensures equal { IfOk result (λ work. work ≡ self.now) }
    {
        let parts = copied_parts(&self.parts)?;
        let conflict = copied_conflict(&self.conflict)?;
        let waiting = copied_waiting(&self.waiting)?;
        Ok(Work {
            alloc: self.alloc,
            parts,
            standing: self.standing,
            conflict,
            waiting,
            over: None,
        })
    }

    /// Takes the last change's effect back, or its miss. It takes no memory.
    pub fn undo_one(&mut self)
        ensures undone { self.new ≡ attempts_undone self.old }
    {
        if self.waiting.pop().is_some() {
            return;
        }
        if self.conflict.take().is_some() {
            return;
        }
        self.over = None;
        self.standing = self.standing.saturating_sub(1);
    }

    /// The change at which the work is stuck: its position, its table, and the first conflict. It takes no memory.
    pub fn stuck(&self) -> Option<(Pos, u32, &Miss)>
        ensures some { IfSome result (λ s. stuck self.now ≡ Some (missed_by s.0 s.1 s.2.now)) }
        ensures none { result ≡ None → stuck self.now ≡ None }
    {
        match &self.conflict {
            None => None,
            Some(conflict) => Some((conflict.pos, conflict.table, &conflict.miss)),
        }
    }

    /// What the changes left, under each row key the last of it. It walks over the whole work.
    pub fn writes(&self) -> Result<Writes, NoMemory>
        ensures gathered { IfOk result (λ w. w ≡ writes self.now) }
    {
        gathered(self.alloc, self.parts.as_slice(), self.standing)
    }

    /// The work with these changes tried behind those that it has. This work stays as it was; the rows that it kept for going on
    /// pass over to the other.
    pub(crate) fn with_chunk<R: Rows>(
        &mut self,
        base: &R,
        n: u64,
        dict: &Dict,
        skips: &Skips,
        lcrs: &[Lcr],
    ) -> Result<Work, NoMemory>
        requires definitions { definitions_of (R.tables base.now) ≡ dict.now.tables }
        ensures worked { AreSound (R.tables base.now) → AreSound (overlaid (R.tables base.now) (writes self.old)) →
            IfOk result (λ work. work ≡ attempted_all dict.now.tables skips.now n (R.tables base.now) self.old
            (map placed lcrs.now)) }
        ensures marked { IfOk result (λ work. marks work ≡ marks self.old ++ placed_marks n (map placed lcrs.now)) }
        ensures unchanged { self.new ≡ self.old }
    {
        let over = self.over.take();
        let parts = self.parts.as_slice();
        let mut tries = begin(
            self.alloc,
            parts,
            self.standing,
            &self.conflict,
            &self.waiting,
            over,
        )?;
        try_all(self.alloc, &mut tries, base, n, dict, skips, lcrs)?;
        finish(self.alloc, parts, self.standing, tries)
    }
}

fn overlay_of(
    alloc: Global,
    parts: &[Part],
    standing: usize,
    over: Option<Overlay>,
) -> Result<Overlay, NoMemory>
    requires { IfSome over (λ o. o ≡ writes_in (put_parts [] parts.now standing)) }
    ensures { IfOk result (λ o. o ≡ writes_in (put_parts [] parts.now standing)) }
{
    match over {
        Some(over) => Ok(over),
        None => {
            let writes = gathered(alloc, parts, standing)?;
            Overlay::of(alloc, &writes)
        }
    }
}

// No change is tried yet.
fn begin(
    alloc: Global,
    parts: &[Part],
    standing: usize,
    conflict: &Option<Conflict>,
    waiting: &Vec<Waiting>,
    over: Option<Overlay>,
) -> Result<Tries, NoMemory>
    requires over { IfSome over (λ o. o ≡ writes_in (put_parts [] parts.now standing)) }
    requires free { conflict.now ≡ None → waiting.now.items ≡ [] }
    ensures attempts { IfOk result (λ t. attempts_with (take standing (joined parts.now)) t ≡
        attempts_kept parts.now standing conflict.now waiting.now.items) }
    ensures over { IfOk result (λ t. IsOver (take standing (joined parts.now)) t) }
    ensures free { IfOk result (λ t. IsFree t) }
{
    let over = overlay_of(alloc, parts, standing, over)?;
    let conflict = copied_conflict(conflict)?;
    let waiting = copied_waiting(waiting)?;
    Ok(Tries {
        over,
        done: Vec::new(alloc),
        conflict,
        waiting,
    })
}

// The work of what was tried, behind so many of the changes of these parts.
fn finish(alloc: Global, parts: &[Part], standing: usize, tries: Tries) -> Result<Work, NoMemory>
    requires fits { standing ≤ length (joined parts.now) }
    requires over { IsOver (take standing (joined parts.now)) tries }
    requires free { IsFree tries }
    ensures attempts { IfOk result (λ work. work ≡ attempts_with (take standing (joined parts.now)) tries) }
{
    let settled = settled(alloc, parts, standing)?;
    let Tries {
        over,
        done,
        conflict,
        waiting,
    } = tries;
    let Some(standing) = standing.checked_add(done.len()) else {
        return Err(NoMemory);
    };
    let parts = with_part(alloc, settled, done)?;
    Ok(Work {
        alloc,
        parts,
        standing,
        conflict,
        waiting,
        over: Some(over),
    })
}
