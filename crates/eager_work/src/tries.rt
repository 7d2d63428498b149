//! The changes of a chunk, tried one after the other.
//!
//! What the dictionary does not accept is passed over, then what a skip rule names; else the effect is tried, on the rows that
//! the work so far left in place of the base's. Behind the first conflict nothing is tried.
ghost use Rattle.std.specs.Prelude.{◌≡◌, ◌++◌, ◌∷◌, ◌||◌, [], List, None, OnOk, IsTrue, is_some, map};
ghost use Rattle.rl_value.specs.Order.{key_set};
ghost use Rattle.redo_spec.specs.ChangeForm.{change_fault};
ghost use Rattle.redo_spec.specs.ConflictKeys.{conflict_keys};
ghost use Rattle.redo_spec.specs.Effect.{effect as effect_of};
ghost use Rattle.redo_spec.specs.Skips.{is_skipped};
ghost use Rattle.redo_spec.specs.Tables.{definitions_of};
ghost use Rattle.row_apply.specs.Overlaid.{overlaid};
ghost use Rattle.row_apply.specs.Soundness.{AreSound};
ghost use Rattle.lcr.specs.Chunks.{placed};
ghost use Rattle.redo_law.specs.Touched.{HasSameKeys};
ghost use Rattle.eager_work.specs.declared.did.Did.{Did};
ghost use Rattle.eager_work.specs.Attempts.{Passed, Missing, Waits, Wrote, writes, came_of, attempt_of, attempted, attempted_all, marks, placed_marks};
ghost use Rattle.eager_work.specs.Keeping.{came_by};
ghost use Rattle.eager_work.specs.Trying.{found_all, attempts_with, IsOver, IsFree};

use crate::did::Did;
use crate::left::{Left, left_at};
use crate::waiting::{Conflict, Waiting};
use lcr::Lcr;
use redo_dict::Dict;
use redo_law::touch;
use rl_value::{Miss, NoMemory};
use row_apply::laws::{equal_in_order_is_equal, later_writes_are_put_in};
use row_apply::{EffectFault, Overlay, Rows, effect};
use skip_guard::Skips;
use std::alloc::Global;

/// What came of the changes so far, and the rows that they and the work before them left.
#[derive(Drop)]
pub(crate) struct Tries {
    pub(crate) over: Overlay,
    pub(crate) done: Vec<Did>,
    pub(crate) conflict: Option<Conflict>,
    pub(crate) waiting: Vec<Waiting>,
}

fn wait(tries: &mut Tries, lcr: &Lcr, n: u64) -> Result<(), NoMemory>
    ensures waits { (before : List Did) → OnOk result (attempts_with before tries.new ≡
        attempts_with before tries.old ++ attempt_of n (placed lcr.now) Waits ∷ []) }
    ensures over { tries.new.over ≡ tries.old.over }
    ensures conflict { tries.new.conflict ≡ tries.old.conflict }
{
    let waits = Waiting {
        pos: lcr.pos,
        table: lcr.change.table,
        n,
    };
    match tries.waiting.push(waits) {
        Ok(()) => Ok(()),
        Err(_) => Err(NoMemory),
    }
}

fn push_did(tries: &mut Tries, lcr: &Lcr, n: u64, wrote: Option<Left>) -> Result<(), NoMemory>
    requires free { tries.old.conflict ≡ None }
    requires none_waits { tries.old.waiting.items ≡ [] }
    ensures done { (before : List Did) → OnOk result (attempts_with before tries.new ≡
        attempts_with before tries.old ++ attempt_of n (placed lcr.now) (came_by wrote) ∷ []) }
    ensures over { tries.new.over ≡ tries.old.over }
    ensures none_waits { tries.new.waiting.items ≡ [] }
{
    let did = Did {
        pos: lcr.pos,
        table: lcr.change.table,
        n,
        wrote,
    };
    match tries.done.push(did) {
        Ok(()) => Ok(()),
        Err(_) => Err(NoMemory),
    }
}

fn note_miss(tries: &mut Tries, lcr: &Lcr, n: u64, miss: Miss)
    requires free { tries.old.conflict ≡ None }
    requires none_waits { tries.old.waiting.items ≡ [] }
    ensures missed { (before : List Did) → attempts_with before tries.new ≡
        attempts_with before tries.old ++ attempt_of n (placed lcr.now) (Missing miss) ∷ [] }
    ensures over { tries.new.over ≡ tries.old.over }
    ensures none_waits { tries.new.waiting.items ≡ [] }
{
    tries.conflict = Some(Conflict {
        pos: lcr.pos,
        table: lcr.change.table,
        n,
        miss,
    });
}

// Notes what a change left in the overlay.
fn note(alloc: Global, tries: &mut Tries, dict: &Dict, lcr: &Lcr, n: u64) -> Result<(), NoMemory>
    requires accepted { change_fault dict.now.tables lcr.now.change ≡ None }
    requires free { tries.old.conflict ≡ None }
    requires none_waits { tries.old.waiting.items ≡ [] }
    ensures done { (before : List Did) → OnOk result (attempts_with before tries.new ≡
        attempts_with before tries.old ++ attempt_of n (placed lcr.now)
        (Wrote (found_all tries.old.over (key_set (conflict_keys dict.now.tables lcr.now.change)))) ∷ []) }
    ensures keys { OnOk result (HasSameKeys (key_set (conflict_keys dict.now.tables lcr.now.change))
        (conflict_keys dict.now.tables lcr.now.change)) }
    ensures over { tries.new.over ≡ tries.old.over }
    ensures none_waits { tries.new.waiting.items ≡ [] }
{
    let keys = touch(alloc, dict, &lcr.change)?;
    let left = left_at(alloc, &tries.over, keys.items())?;
    push_did(tries, lcr, n, Some(left))
}

// Tries a change that the dictionary accepts.
fn try_change<R: Rows>(
    alloc: Global,
    tries: &mut Tries,
    base: &R,
    n: u64,
    dict: &Dict,
    lcr: &Lcr,
) -> Result<(), NoMemory>
    requires definitions { definitions_of (R.tables base.now) ≡ dict.now.tables }
    requires accepted { change_fault dict.now.tables lcr.now.change ≡ None }
    requires free { tries.old.conflict ≡ None }
    requires none_waits { tries.old.waiting.items ≡ [] }
    ensures over { (before : List Did) → IsOver before tries.old → OnOk result (IsOver before tries.new) }
    ensures tried { (before : List Did) → IsOver before tries.old → AreSound (R.tables base.now) →
        AreSound (overlaid (R.tables base.now) tries.old.over) → OnOk result (attempts_with before tries.new ≡
        attempts_with before tries.old ++ attempt_of n (placed lcr.now) (came_of dict.now.tables lcr.now.change
        (effect_of (overlaid (R.tables base.now) (writes (attempts_with before tries.old))) lcr.now.change)) ∷ []) }
    ensures sound { AreSound (R.tables base.now) → AreSound (overlaid (R.tables base.now) tries.old.over) →
        AreSound (overlaid (R.tables base.now) tries.new.over) }
    ensures marked { (before : List Did) → OnOk result (marks (attempts_with before tries.new) ≡
        marks (attempts_with before tries.old) ++ placed_marks n (placed lcr.now ∷ [])) }
    ensures none_waits { tries.new.waiting.items ≡ [] }
{
    later_writes_are_put_in();
    equal_in_order_is_equal();
    match effect(base, dict, &mut tries.over, &lcr.change) {
        Ok(()) => note(alloc, tries, dict, lcr, n),
        Err(EffectFault::Miss(miss)) => {
            note_miss(tries, lcr, n, miss);
            Ok(())
        }
        Err(EffectFault::Memory) => Err(NoMemory),
    }
}

// The dictionary does not accept the change, or a rule names it.
fn is_passed(dict: &Dict, skips: &Skips, n: u64, lcr: &Lcr) -> bool
    ensures { result ≡ (is_some (change_fault dict.now.tables lcr.now.change)
        || is_skipped skips.now dict.now.tables n (placed lcr.now)) }
{
    dict.check_change(&lcr.change).is_err() || skips.skipped(dict, &lcr.change, n)
}

fn try_one<R: Rows>(
    alloc: Global,
    tries: &mut Tries,
    base: &R,
    n: u64,
    dict: &Dict,
    skips: &Skips,
    lcr: &Lcr,
) -> Result<(), NoMemory>
    requires definitions { definitions_of (R.tables base.now) ≡ dict.now.tables }
    requires free { IsFree tries.old }
    ensures over { (before : List Did) → IsOver before tries.old → OnOk result (IsOver before tries.new) }
    ensures tried { (before : List Did) → IsOver before tries.old → AreSound (R.tables base.now) →
        AreSound (overlaid (R.tables base.now) tries.old.over) → OnOk result (attempts_with before tries.new ≡
        attempted dict.now.tables skips.now n (R.tables base.now) (attempts_with before tries.old) (placed lcr.now)) }
    ensures sound { AreSound (R.tables base.now) → AreSound (overlaid (R.tables base.now) tries.old.over) →
        AreSound (overlaid (R.tables base.now) tries.new.over) }
    ensures marked { (before : List Did) → OnOk result (marks (attempts_with before tries.new) ≡
        marks (attempts_with before tries.old) ++ placed_marks n (placed lcr.now ∷ [])) }
    ensures free { IsFree tries.new }
{
    if tries.conflict.is_some() {
        return wait(tries, lcr, n);
    }
    if is_passed(dict, skips, n, lcr) {
        return push_did(tries, lcr, n, None);
    }
    try_change(alloc, tries, base, n, dict, lcr)
}

/// Tries these changes, one after the other.
pub(crate) fn try_all<R: Rows>(
    alloc: Global,
    tries: &mut Tries,
    base: &R,
    n: u64,
    dict: &Dict,
    skips: &Skips,
    lcrs: &[Lcr],
) -> Result<(), NoMemory>
    requires definitions { definitions_of (R.tables base.now) ≡ dict.now.tables }
    requires free { IsFree tries.old }
    ensures over { (before : List Did) → IsOver before tries.old → OnOk result (IsOver before tries.new) }
    ensures tried { (before : List Did) → IsOver before tries.old → AreSound (R.tables base.now) →
        AreSound (overlaid (R.tables base.now) tries.old.over) → OnOk result (attempts_with before tries.new ≡
        attempted_all dict.now.tables skips.now n (R.tables base.now) (attempts_with before tries.old)
        (map placed lcrs.now)) }
    ensures marked { (before : List Did) → OnOk result (marks (attempts_with before tries.new) ≡
        marks (attempts_with before tries.old) ++ placed_marks n (map placed lcrs.now)) }
    ensures free { OnOk result (IsFree tries.new) }
{
    let mut rest = lcrs;
    while let [lcr, others @ ..] = rest {
        try_one(alloc, tries, base, n, dict, skips, lcr)?;
        rest = others;
    }
    Ok(())
}
