//! Laws of the definitions, each stated by a public function with an empty body, or one that only calls laws of `redo_vec`.
ghost use Rattle.std.specs.Prelude.{◌≡◌, ℕ, ◌+◌, ◌-◌, ◌≤◌, ◌<◌, List, ◌++◌, map, get_or, Option, None, Some, Ok, false, not, ◌&&◌};
ghost use Rattle.std.specs.List.{list_any, AllByRecursion};
ghost use Rattle.std.specs.Ordering.{eq_by_cmp};
ghost use Rattle.rl_value.specs.Order.{key_cmp};
ghost use Rattle.rl_value.specs.declared.cause.LawFault.{LawFault};
ghost use Rattle.redo_vec.specs.declared.change.Change.{Change};
ghost use Rattle.redo_vec.specs.Ranges.{AreBytes};
ghost use Rattle.redo_spec.specs.History.{Entry, Committed, Commits, commits_after, commit_count, no_history, same_xid, History, history_at};
ghost use Rattle.redo_spec.specs.Standing.{Standing, beginning, open_txns, standing_at};
ghost use Rattle.redo_spec.specs.ConflictKeys.{conflict_keys};
ghost use Rattle.redo_spec.specs.Locks.{held_keys, lock_fault};
ghost use Rattle.redo_spec.specs.Law.{admission, IsFirstBad};
ghost use Rattle.redo_spec.specs.Mark.{MarkFits, resumed};
ghost use Rattle.redo_spec.specs.Skips.{Skip};
ghost use Rattle.redo_spec.specs.Fold.{Base, tables_at, with_commit, stop_at, folded, fold_of_redo};
ghost use Rattle.redo_spec.specs.Log.{Log, IsLog, IsSpelled, log_bytes};
ghost use Rattle.redo_spec.specs.LogHeader.{header_in, header_fault};
ghost use Rattle.redo_spec.specs.Redo.{entries_of, records_of, fold_of_log};
ghost use Rattle.rl_value.specs.declared.verdict.Stop.{Stop};
ghost use Rattle.rl_value.specs.declared.verdict.Stop.TheVariants.{Drained};
ghost use Rattle.rl_value.specs.declared.verdict.Verdict.TheVariants.{Stopped};

use redo_vec::{a_read_record_is_spelled, a_spelled_record_is_read};

/// The fold of a spelled log, from its bytes, is the fold of its records.
pub fn spelled_log_is_read()
    ensures read { (seq : ℕ) (log : Log) → IsLog log → header_fault seq (log_bytes log) ≡ None →
        fold_of_log seq (Some (log_bytes log)) ≡ fold_of_redo seq (log.head.first - 1) (entries_of log) Drained }
{
    a_spelled_record_is_read();
}

/// Bytes that are read without a fault are the spelling of the log that is read.
pub fn read_log_is_spelled()
    ensures spelled { (seq : ℕ) (bytes : List ℕ) → AreBytes bytes → header_fault seq bytes ≡ None →
        (records_of bytes).cause ≡ None →
        IsSpelled (record { head = header_in bytes; records = map (λ e. e.1) (records_of bytes).entries }) bytes }
{
    a_read_record_is_spelled();
}

/// The standing by which records are judged and the history of their transactions agree: each open transaction stands in
/// the first with the conflict keys of the survivors that it has in the second.
pub fn standing_and_history_agree()
    ensures agree { (first base before : ℕ) (entries : List Entry) →
        let a = admission (beginning first base) (no_history before) entries in
        a.standing.active ≡ open_txns a.standing.dictionary.tables a.history.active }
{}

/// At one commit more the tables are those of before with the kept changes of that commit.
pub fn one_commit_more()
    ensures tables { (b : Base) (skips : List Skip) (commits : Commits) (n : ℕ) (commit : Committed) →
        commits.before ≤ b.n → b.n ≤ n → n < commit_count commits → get_or commits.made (n - commits.before) commit ≡ commit →
        tables_at b skips commits (n + 1) ≡ with_commit skips n commit (tables_at b skips commits n) }
{}

/// A change without a lock fault touches no key that another open transaction holds.
pub fn admitted_keys_are_free()
    ensures free { (s : Standing) (change : Change) → lock_fault s change ≡ None →
        AllByRecursion (λ h. (not (same_xid h.1 change.xid) &&
        list_any (eq_by_cmp key_cmp h.0) (conflict_keys s.dictionary.tables change)) ≡ false) (held_keys s.active) }
{}

/// From a fitting mark a run goes on exactly as the whole redo does: it comes as far, and meets the same fault with the same
/// dictionary left; its standing is the same, but that m records are known, and the same transactions are open; its commits have
/// the same numbers, and those above the applied count are the same.
pub fn a_run_from_a_mark_goes_as_far()
    ensures fault { (first base : ℕ) (entries : List Entry) (q m n : ℕ) → MarkFits first base entries q m n →
        (resumed first base entries q m).fault ≡ (admission (beginning first base) (no_history 0) entries).fault }
    ensures left { (first base : ℕ) (entries : List Entry) (q m n : ℕ) → MarkFits first base entries q m n →
        (resumed first base entries q m).left ≡ (admission (beginning first base) (no_history 0) entries).left }
    ensures records { (first base : ℕ) (entries : List Entry) (q m n : ℕ) → MarkFits first base entries q m n →
        (resumed first base entries q m).standing.rec ≡ (admission (beginning first base) (no_history 0) entries).standing.rec }
    ensures standing { (first base : ℕ) (entries : List Entry) (q m n : ℕ) → MarkFits first base entries q m n →
        (resumed first base entries q m).standing ≡ record (admission (beginning first base) (no_history 0) entries).standing
        { known = m } }
    ensures active { (first base : ℕ) (entries : List Entry) (q m n : ℕ) → MarkFits first base entries q m n →
        (resumed first base entries q m).history.active ≡
        (admission (beginning first base) (no_history 0) entries).history.active }
    ensures count { (first base : ℕ) (entries : List Entry) (q m n : ℕ) → MarkFits first base entries q m n →
        commit_count (resumed first base entries q m).history.commits ≡
        commit_count (admission (beginning first base) (no_history 0) entries).history.commits }
    ensures commits { (first base : ℕ) (entries : List Entry) (q m n : ℕ) → MarkFits first base entries q m n →
        commits_after (resumed first base entries q m).history.commits n
        ≡ commits_after (admission (beginning first base) (no_history 0) entries).history.commits n }
{}

/// A mark that fits does so at each greater applied count, and in each redo that goes on behind its records.
pub fn a_mark_fits_on()
    ensures count { (first base : ℕ) (entries : List Entry) (q m n k : ℕ) → MarkFits first base entries q m n → n ≤ k →
        MarkFits first base entries q m k }
    ensures longer { (first base : ℕ) (entries more : List Entry) (q m n : ℕ) → MarkFits first base entries q m n →
        MarkFits first base (entries ++ more) q m n }
{}

/// What is admitted whole is what its records leave.
pub fn admitted_records_leave_this()
    ensures standing { (s : Standing) (history : History) (entries : List Entry) → (admission s history entries).fault ≡ None →
        (admission s history entries).standing ≡ standing_at s entries }
    ensures history { (s : Standing) (history : History) (entries : List Entry) → (admission s history entries).fault ≡ None →
        (admission s history entries).history ≡ history_at s.rec entries history }
{}

/// The first bad record is told: those before it fit, and it does not.
pub fn the_first_bad_record_is_told()
    ensures told { (s : Standing) (history : History) (entries : List Entry) (found : LawFault) →
        (admission s history entries).fault ≡ Some found → IsFirstBad s history entries found }
{}

/// A fold shows the tables of its count, and ends just before the first commit that may not be applied, or else at the last one.
pub fn a_fold_shows_the_tables_of_its_count()
    ensures tables { (b : Base) (skips : List Skip) (commits : Commits) (stop : Stop) →
        tables_at b skips commits (folded b skips commits stop).n ≡ Ok (folded b skips commits stop).tables }
    ensures before { (b : Base) (skips : List Skip) (commits : Commits) (stop : Stop) (k : ℕ) → b.n ≤ k →
        k < (folded b skips commits stop).n →
        stop_at b skips commits (k + 1) ≡ None }
    ensures there { (b : Base) (skips : List Skip) (commits : Commits) (stop : Stop) → commits.before ≤ b.n →
        (folded b skips commits stop).n < commit_count commits →
        stop_at b skips commits ((folded b skips commits stop).n + 1) ≡ Some (folded b skips commits stop).verdict }
    ensures last { (b : Base) (skips : List Skip) (commits : Commits) (stop : Stop) → commits.before ≤ b.n →
        b.n ≤ commit_count commits →
        commit_count commits ≤ (folded b skips commits stop).n → (folded b skips commits stop).verdict ≡ Stopped stop }
{}
