//! Laws of the work of a transaction, each stated by a public function with an empty body, or one that only calls a law of a
//! lower crate.
ghost use Rattle.std.specs.Prelude.{◌≡◌, ℕ, ◌+◌, ◌-◌, List, [], ◌++◌, Result, Ok, None, Some, slice_get, IsTrue};
ghost use Rattle.rl_value.specs.Outcome.{map_ok};
ghost use Rattle.redo_vec.specs.declared.table.TableRow.{TableRow};
ghost use Rattle.redo_spec.specs.History.{Placed, Committed, Commits};
ghost use Rattle.redo_spec.specs.Skips.{Skip};
ghost use Rattle.redo_spec.specs.Survivors.{after_undo};
ghost use Rattle.redo_spec.specs.Tables.{Tables, definitions_of};
ghost use Rattle.redo_spec.specs.Fold.{Base, Missed, tables_at};
ghost use Rattle.row_apply.specs.Overlaid.{overlaid, writes_rise};
ghost use Rattle.row_apply.specs.Soundness.{AreSound};
ghost use Rattle.eager_work.specs.Attempts.{Attempt, stuck, writes, attempted_all, attempts_undone, IsWork};
ghost use Rattle.eager_work.specs.Early.{IsTimelyWork, MissesAlike};

use redo_spec::laws::one_commit_more;

/// The attempts of a chunk, over the tables of its count, go on with the work of the changes before it; and an UNDO takes back
/// the last change and its attempt.
pub fn attempts_are_the_work()
    ensures none { (at : ℕ → Result Tables Missed) (skips : List Skip) → IsWork at skips [] [] }
    ensures chunk { (at : ℕ → Result Tables Missed) (skips : List Skip) (n : ℕ) (base : Tables) → at n ≡ Ok base →
        (before after : List Placed) (attempts : List Attempt) → IsWork at skips before attempts →
        IsWork at skips (before ++ after) (attempted_all (definitions_of base) skips n base attempts after) }
    ensures undone { (at : ℕ → Result Tables Missed) (skips : List Skip) (changes : List Placed) (attempts : List Attempt) →
        IsWork at skips changes attempts → IsWork at skips (after_undo changes) (attempts_undone attempts) }
{}

/// Where changes that are done at one count are split into chunks does not matter.
pub fn a_chunk_may_be_split()
    ensures split { (rows : List TableRow) (skips : List Skip) (n : ℕ) (base : Tables) (attempts : List Attempt)
        (one other : List Placed) → attempted_all rows skips n base attempts (one ++ other) ≡
        attempted_all rows skips n base (attempted_all rows skips n base attempts one) other }
{}

/// Behind a miss nothing is tried: work that is stuck stays so at the same change, and writes no more.
pub fn a_stuck_work_waits()
    ensures still { (rows : List TableRow) (skips : List Skip) (n : ℕ) (base : Tables) (attempts : List Attempt)
        (changes : List Placed) (missed : Missed) → stuck attempts ≡ Some missed →
        stuck (attempted_all rows skips n base attempts changes) ≡ Some missed }
    ensures no_more { (rows : List TableRow) (skips : List Skip) (n : ℕ) (base : Tables) (attempts : List Attempt)
        (changes : List Placed) (missed : Missed) → stuck attempts ≡ Some missed →
        writes (attempted_all rows skips n base attempts changes) ≡ writes attempts }
{}

/// Work that was done early, in any split into chunks at counts that reach each change's watermark, ends as its commit does:
/// where it isn't stuck, its writes lead from the tables of the count before the commit to those of the count behind it; where it
/// is, so is the commit, at the same change, with the same miss but for who has a unique value that is taken.
pub fn early_work_leads_to_the_next_count()
    ensures leads { (b : Base) (skips : List Skip) (commits : Commits) (n : ℕ) (commit : Committed) (attempts : List Attempt) →
        slice_get commits.made (n - commits.before) ≡ Some commit →
        IsTimelyWork b skips commits n commit.txn.survivors attempts → stuck attempts ≡ None →
        map_ok (λ tables. overlaid tables (writes attempts)) (tables_at b skips commits n) ≡ tables_at b skips commits (n + 1) }
    ensures misses { (b : Base) (skips : List Skip) (commits : Commits) (n : ℕ) (commit : Committed) (attempts : List Attempt) →
        slice_get commits.made (n - commits.before) ≡ Some commit →
        IsTimelyWork b skips commits n commit.txn.survivors attempts → (missed : Missed) → stuck attempts ≡ Some missed →
        (tables : Tables) → tables_at b skips commits n ≡ Ok tables → MissesAlike missed (tables_at b skips commits (n + 1)) }
{
    one_commit_more();
}

/// Over the tables of each later count what early work wrote leaves sound tables, so that a job may go on with it; and its writes
/// rise.
pub fn early_work_leaves_sound_tables()
    ensures sound { (b : Base) (skips : List Skip) (commits : Commits) (n : ℕ) (changes : List Placed) (attempts : List Attempt) →
        IsTimelyWork b skips commits n changes attempts → (tables : Tables) → tables_at b skips commits n ≡ Ok tables →
        AreSound (overlaid tables (writes attempts)) }
    ensures rising { (attempts : List Attempt) → IsTrue (writes_rise (writes attempts)) }
{
    one_commit_more();
}
