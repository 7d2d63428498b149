//! Laws of a standby between its runs: what its first log makes, a further log, and a store that is loaded; and what the first
//! records of its redo commit. Each is stated by a public function with an empty body, or one that only calls laws of lower
//! crates.
ghost use Rattle.std.specs.Prelude.{◌≡◌, ◌≤◌, ◌<◌, ◌+◌, ℕ, take, length, None, Some, IsTrue, List, true, false};
ghost use Rattle.rl_ports.specs.Store.{Store, is_store};
ghost use Rattle.log_registry.specs.declared.entry.LogEntry.{LogEntry};
ghost use Rattle.log_registry.specs.Registered.{AreToldBy, IsToldBy, IsRising, entry_of, entries_from};
ghost use Rattle.rl_value.specs.declared.verdict.Stop.TheVariants.{Drained};
ghost use Rattle.redo_spec.specs.Fold.{Base, named_by};
ghost use Rattle.redo_spec.specs.History.{commit_count};
ghost use Rattle.redo_spec.specs.Redo.{records_of, redo_from};
ghost use Rattle.redo_spec.specs.Tables.{RowsById, assembled, definitions_of};
ghost use Rattle.primary.specs.Progress.{end_of};
ghost use Rattle.primary.specs.Starts.{progress_after};
ghost use Rattle.redo_reader.specs.Ahead.{bytes_or_none, told_logs};
ghost use Rattle.standby_spec.specs.KeptState.{KeptState};
ghost use Rattle.standby_spec.specs.HasLayout.{HasLayout, IsStoreOfBytes, LeavesLayout};
ghost use Rattle.standby_spec.specs.StandbyRedo.{Archived, redo_entries, commits_of, front_at};
ghost use Rattle.standby_spec.specs.Writings.{state_after, AddLog};
ghost use Rattle.standby_spec.specs.Loading.{Image, Fresh, loaded};
ghost use Rattle.standby_spec.specs.Lawful.{Belongs, IsLawful};
ghost use Rattle.standby_spec.specs.Publishing.{Publishing, HasNoStandby};
ghost use Rattle.standby_spec.specs.AtRest.{IsAtRest};
ghost use Rattle.run_spec.specs.Again.{folded_again, start_again};
ghost use Rattle.run_spec.specs.Created.{dictionary_by, created_by};
ghost use Rattle.run_spec.specs.Taken.{commits_by, commits_up_to};

use redo_reader::laws::what_was_ahead_stays;
use rl_ports::Keeper;
use standby_spec::laws::{a_loaded_store_is_a_layout, a_mark_stays_right_in_a_longer_redo};

/// The dictionary of the registered logs is that of the first of them: none of its records stands in a later one.
pub fn the_first_log_has_the_dictionary()
    ensures same { (logs : Archived) (first base : ℕ) (registry : List LogEntry) (e : LogEntry) → AreToldBy logs registry →
        IsRising registry → entry_of first registry ≡ Some e →
        dictionary_by first base (redo_from first 0 (told_logs logs (entries_from first registry))).entries ≡
        dictionary_by first base (records_of (bytes_or_none (logs first))).entries }
{}

/// The standby that its first log makes belongs to the archived logs, where that log is what the archive tells.
pub fn a_created_standby_belongs()
    ensures belongs { (logs : Archived) (e : LogEntry) → IsToldBy logs e → HasLayout (created_by logs e) →
        Belongs logs (created_by logs e) }
{}

/// A state that belongs to archived logs does so where a further one is registered.
pub fn a_further_log_leaves_a_state_that_belongs()
    ensures belongs { (logs : Archived) (s : KeptState) (e : LogEntry) → Belongs logs s → IsToldBy logs e →
        LeavesLayout (AddLog e) s → Belongs logs (state_after (AddLog e) s) }
{
    what_was_ahead_stays();
    a_mark_stays_right_in_a_longer_redo();
}

/// A publisher that holds a lawful store, and shows what is loaded from it, is at rest; where nothing is loaded, it has no
/// standby.
pub fn a_lawful_store_is_loaded_at_rest<K: Keeper>()
    ensures rests { (start : ℕ) (logs : Archived) (s : KeptState) (pairs : Store) (p : Publishing K) → IsLawful logs pairs →
        IsTrue (is_store pairs) → IsStoreOfBytes pairs → loaded pairs ≡ Image s → p.state ≡ Some s → p.stopped ≡ false →
        K.holds p.keeper ≡ Some pairs → start ≤ K.faults p.keeper → IsAtRest K.holds K.faults start logs s p }
    ensures none { (logs : Archived) (pairs : Store) (p : Publishing K) → IsLawful logs pairs → loaded pairs ≡ Fresh →
        p.state ≡ None → p.stopped ≡ false → K.holds p.keeper ≡ Some pairs → HasNoStandby K.holds p }
{
    a_loaded_store_is_a_layout();
}

/// The commits of the first records of a redo are its first commits; and behind a commit the dictionary is whole. Where the redo
/// has further commits, one more record follows, and the redo is well with it.
pub fn the_first_records_have_the_first_commits()
    ensures first { (logs : Archived) (s : KeptState) (k : ℕ) → (front_at logs s k).fault ≡ None →
        commits_up_to (commits_by logs s k) (commits_of logs s) ≡ (front_at logs s k).history.commits }
    ensures whole { (logs : Archived) (s : KeptState) (k : ℕ) → 0 < commits_by logs s k →
        (front_at logs s k).standing.dictionary.finished ≡ true }
    ensures there { (logs : Archived) (s : KeptState) (k : ℕ) → (front_at logs s k).fault ≡ None →
        commits_by logs s k < commit_count (commits_of logs s) → k + 1 ≤ length (redo_entries logs s) }
    ensures well { (logs : Archived) (s : KeptState) (k : ℕ) → (front_at logs s k).fault ≡ None →
        commits_by logs s k < commit_count (commits_of logs s) → (front_at logs s (k + 1)).fault ≡ None }
{}

/// The reference evaluator that begins with the rows of a base, of the tables that a standby has, has come to the fold of the
/// applied commits over that base behind the record with the last of them.
pub fn the_evaluator_folds_again()
    ensures again { (logs : Archived) (s : KeptState) (b : Base) (rows : RowsById) (k : ℕ) → Belongs logs s →
        (front_at logs s k).fault ≡ None → commits_by logs s k ≡ s.n → 0 < s.n →
        definitions_of b.tables ≡ definitions_of s.tables → assembled (definitions_of b.tables) rows ≡ b.tables →
        end_of Drained (progress_after (start_again s b rows) s.skips (take k (redo_entries logs s))) ≡
        named_by (front_at logs s k).left.tables (folded_again logs b s) }
{}
