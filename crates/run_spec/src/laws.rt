//! Laws of runs, each stated by a public function with an empty body, or one that only calls a law of a lower crate.
ghost use Rattle.std.specs.Prelude.{◌≡◌, ◌≤◌, ◌<◌, ◌-◌, ◌+◌, ℕ, List, [], ◌∷◌, Ok, None, Some, Option, true, drop, length, if◌then◌else◌};
ghost use Rattle.std.specs.List.{AllByRecursion};
ghost use Rattle.rl_value.specs.declared.verdict.Verdict.{Verdict};
ghost use Rattle.redo_vec.specs.declared.redo_rec.RedoRec.{RedoRec};
ghost use Rattle.redo_vec.specs.declared.table.TableRow.{TableRow};
ghost use Rattle.redo_spec.specs.declared.header.Header.{Header};
ghost use Rattle.redo_spec.specs.History.{Entry, commit_count};
ghost use Rattle.redo_spec.specs.Law.{record_fault};
ghost use Rattle.redo_spec.specs.Standing.{record_after};
ghost use Rattle.redo_spec.specs.Fold.{Folded, tables_at, scn_at, visible_tables};
ghost use Rattle.redo_spec.specs.Tables.{Tables};
ghost use Rattle.primary.specs.Progress.{FoldState, Going, Ended, progress_after_record, end_of};
ghost use Rattle.primary.specs.Starts.{progress_after};
ghost use Rattle.standby_spec.specs.KeptState.{KeptState, base_of};
ghost use Rattle.standby_spec.specs.declared.mark.Mark.{Mark};
ghost use Rattle.standby_spec.specs.StandbyRedo.{Archived, standby_redo, redo_entries, commits_of, front_at};
ghost use Rattle.standby_spec.specs.Checkpoint.{IsMarkOf, mark_of};
ghost use Rattle.standby_spec.specs.Lawful.{Belongs};
ghost use Rattle.standby_spec.specs.Fits.{Fits};
ghost use Rattle.standby_spec.specs.Publishing.{in_run};
ghost use Rattle.run_spec.specs.RunEnd.{RunsTo, IsOnTheWay, IsFreeMark, IsMarkLeft, IsPast, last_multiple, run_fold};
ghost use Rattle.run_spec.specs.RunStart.{run_mark, run_start};
ghost use Rattle.run_spec.specs.Taken.{run_admitted, run_progress, commits_by, IsCount, AreOpen, standing_behind, has_commit, fold_left};

use redo_reader::laws::the_reader_gives_the_redo;

/// In a run every skip rule counts from its beginning or before, so no commit of it changes a table that is not maintained: what
/// is visible at a count are the tables of the fold.
pub fn a_run_shows_the_tables_of_its_fold()
    ensures visible { (logs : Archived) (s : KeptState) (n : ℕ) (tables : Tables) → Belongs logs s → s.n ≤ n →
        tables_at (base_of s) s.skips (commits_of logs s) n ≡ Ok tables →
        visible_tables s.skips n s.tables tables ≡ tables }
{}

/// The mark from which a run reads the redo is right at the count with which it begins.
pub fn a_run_begins_at_a_right_mark()
    ensures right { (logs : Archived) (s : KeptState) → Belongs logs s → IsMarkOf logs s s.n (run_mark s) }
{}

/// The reference evaluator that begins at a run's mark, with the rows, the count and the SCN that the run finds, ends as the fold
/// of the whole redo does, and names tables alike.
pub fn a_run_ends_as_its_fold()
    ensures ends { (logs : Archived) (s : KeptState) → Belongs logs s →
        end_of (standby_redo logs s).stop (progress_after (run_start s) s.skips (drop (run_mark s).q (redo_entries logs s)))
        ≡ run_fold logs s }
{
    the_reader_gives_the_redo();
}

/// A state that fits over the one with which a run began has come some of the way to the fold's end, where its mark is as far as
/// the commits that owe one; and where the fold ends with what it shows, the run has ended so.
pub fn a_state_that_fits_is_on_the_way()
    ensures some { (logs : Archived) (distance : ℕ) (old new : KeptState) → Belongs logs old →
        Fits (base_of old) logs old.n new → new ≡ in_run old new → IsFreeMark logs distance old new.n (new.n - 1) new.mark →
        IsOnTheWay logs distance old new }
    ensures all { (logs : Archived) (distance : ℕ) (old new : KeptState) (verdict : Verdict) (names : List TableRow) →
        Belongs logs old → new ≡ in_run old new → run_fold logs old ≡ fold_left new verdict names →
        IsMarkLeft logs distance old (run_fold logs old) verdict new.mark → RunsTo logs distance old new verdict }
{}

/// Behind each record that a run has taken it is as well as the redo, and has its standing, but for the transactions that began
/// before the run's records.
pub fn a_run_goes_beside_the_redo()
    ensures well { (logs : Archived) (s : KeptState) (k : ℕ) → Belongs logs s → (run_mark s).q ≤ k →
        k ≤ length (redo_entries logs s) → (run_admitted logs s k).fault ≡ (front_at logs s k).fault }
    ensures standing { (logs : Archived) (s : KeptState) (k : ℕ) → Belongs logs s → (run_mark s).q ≤ k →
        k ≤ length (redo_entries logs s) →
        (run_admitted logs s k).standing ≡ standing_behind (run_mark s).q (run_mark s).m (front_at logs s k).standing }
    ensures active { (logs : Archived) (s : KeptState) (k : ℕ) → Belongs logs s → (run_mark s).q ≤ k →
        k ≤ length (redo_entries logs s) → (front_at logs s k).fault ≡ None → AreOpen k (run_admitted logs s k).standing }
{
    the_reader_gives_the_redo();
}

/// As long as a run goes on, its count is that of the commits so far, or the one with which it began; its tables, once the
/// dictionary is whole, and its SCN are those of the fold at that count.
pub fn a_run_shows_its_fold_on_the_way()
    ensures count { (logs : Archived) (s : KeptState) (k : ℕ) (a : FoldState) → Belongs logs s → (run_mark s).q ≤ k →
        k ≤ length (redo_entries logs s) → (run_admitted logs s k).fault ≡ None → run_progress logs s k ≡ Going a →
        IsCount a.n (commits_by logs s k) s.n }
    ensures tables { (logs : Archived) (s : KeptState) (k : ℕ) (a : FoldState) → Belongs logs s → (run_mark s).q ≤ k →
        k ≤ length (redo_entries logs s) → (run_admitted logs s k).fault ≡ None → run_progress logs s k ≡ Going a →
        (front_at logs s k).standing.dictionary.finished ≡ true →
        tables_at (base_of s) s.skips (commits_of logs s) a.n ≡ Ok a.tables }
    ensures scn { (logs : Archived) (s : KeptState) (k : ℕ) (a : FoldState) → Belongs logs s → (run_mark s).q ≤ k →
        k ≤ length (redo_entries logs s) → (run_admitted logs s k).fault ≡ None → run_progress logs s k ≡ Going a →
        a.scn ≡ scn_at (base_of s) (commits_of logs s) a.n }
{
    the_reader_gives_the_redo();
}

/// A run may keep a mark before the transactions that are open for it: behind record p, where it has come to record k and so many
/// records are known to be well. It is as far as the last commit up to n that owes one.
pub fn a_run_may_keep_this_mark()
    ensures right { (logs : Archived) (s : KeptState) (k m p n : ℕ) → Belongs logs s → (run_mark s).q ≤ k →
        k ≤ length (redo_entries logs s) → (front_at logs s k).fault ≡ None → k ≤ m → (run_mark s).m ≤ m →
        m ≤ length (redo_entries logs s) → (front_at logs s m).fault ≡ None → p ≤ k →
        AllByRecursion (λ t. p < t.start.rec) (run_admitted logs s k).standing.active → commits_by logs s k ≤ n → s.n ≤ n →
        IsMarkOf logs s n (mark_of logs s p m n) }
    ensures past { (logs : Archived) (s : KeptState) (distance k n : ℕ) (mark : Mark) → k ≤ length (redo_entries logs s) →
        (front_at logs s k).fault ≡ None → (s.n < n → n ≤ commits_by logs s k) → k ≤ mark.m →
        IsPast (commits_of logs s) (last_multiple distance s.n n) (Some mark) }
{
    the_reader_gives_the_redo();
}

/// One record more, which is admitted: the run is well behind it too, and its evaluator takes it. Where the redo is well with it,
/// its SCN is that of the redo, and where it has a COMMIT, that of the last commit, of which there is one more then.
pub fn a_record_leads_a_run_on()
    ensures there { (logs : Archived) (s : KeptState) (k : ℕ) (e : Entry) (more : List Entry) →
        drop k (redo_entries logs s) ≡ e ∷ more → k + 1 ≤ length (redo_entries logs s) }
    ensures well { (logs : Archived) (s : KeptState) (k : ℕ) (e : Entry) (more : List Entry) → (run_mark s).q ≤ k →
        drop k (redo_entries logs s) ≡ e ∷ more → (run_admitted logs s k).fault ≡ None →
        record_fault (run_admitted logs s k).standing e ≡ None → (run_admitted logs s (k + 1)).fault ≡ None }
    ensures standing { (logs : Archived) (s : KeptState) (k : ℕ) (e : Entry) (more : List Entry) → (run_mark s).q ≤ k →
        drop k (redo_entries logs s) ≡ e ∷ more → (run_admitted logs s k).fault ≡ None →
        record_fault (run_admitted logs s k).standing e ≡ None →
        (run_admitted logs s (k + 1)).standing ≡ record_after e (run_admitted logs s k).standing }
    ensures progress { (logs : Archived) (s : KeptState) (k : ℕ) (e : Entry) (more : List Entry) → (run_mark s).q ≤ k →
        drop k (redo_entries logs s) ≡ e ∷ more →
        run_progress logs s (k + 1) ≡ progress_after_record s.skips e (run_progress logs s k) }
    ensures scn { (logs : Archived) (s : KeptState) (k : ℕ) (h : Header) (r : RedoRec) (more : List Entry) →
        drop k (redo_entries logs s) ≡ (h, r) ∷ more → (front_at logs s k).fault ≡ None →
        (front_at logs s (k + 1)).fault ≡ None → (front_at logs s (k + 1)).standing.scn ≡ r.scn }
    ensures commit_scn { (logs : Archived) (s : KeptState) (k : ℕ) (h : Header) (r : RedoRec) (more : List Entry) →
        drop k (redo_entries logs s) ≡ (h, r) ∷ more → (front_at logs s k).fault ≡ None →
        (front_at logs s (k + 1)).fault ≡ None → (front_at logs s (k + 1)).standing.commit_scn ≡
        (if has_commit r.vectors then r.scn else (front_at logs s k).standing.commit_scn) }
    ensures count { (logs : Archived) (s : KeptState) (k : ℕ) (h : Header) (r : RedoRec) (more : List Entry) →
        drop k (redo_entries logs s) ≡ (h, r) ∷ more → (front_at logs s k).fault ≡ None →
        (front_at logs s (k + 1)).fault ≡ None → commits_by logs s (k + 1) ≡
        (if has_commit r.vectors then commits_by logs s k + 1 else commits_by logs s k) }
{}

/// A run ends where its evaluator does: with the redo, where no record is left, or with a record.
pub fn a_run_ends_with_its_evaluator()
    ensures ended { (logs : Archived) (s : KeptState) (k : ℕ) → Belongs logs s → (run_mark s).q ≤ k →
        drop k (redo_entries logs s) ≡ [] → run_fold logs s ≡ end_of (standby_redo logs s).stop (run_progress logs s k) }
    ensures stopped { (logs : Archived) (s : KeptState) (k : ℕ) (e : Entry) (more : List Entry) (f : Folded) → Belongs logs s →
        (run_mark s).q ≤ k → drop k (redo_entries logs s) ≡ e ∷ more →
        progress_after_record s.skips e (run_progress logs s k) ≡ Ended f → run_fold logs s ≡ f }
{
    the_reader_gives_the_redo();
}

/// A mark that owes none of the commits up to a count of the redo owes none up to a smaller one: COMMITs stand in the order of
/// their commits.
pub fn a_mark_owes_none_before()
    ensures less { (logs : Archived) (distance : ℕ) (s : KeptState) (n low high : ℕ) (mark : Option Mark) → 0 < distance →
        low ≤ high → high ≤ commit_count (commits_of logs s) → IsFreeMark logs distance s n high mark →
        IsFreeMark logs distance s n low mark }
{}
