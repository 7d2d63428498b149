//! Laws of the definitions, each stated by a public function with an empty body, or one that only calls laws of lower crates.
ghost use Rattle.std.specs.Prelude.{◌≡◌, ◌≤◌, ◌<◌, ◌+◌, ◌^◌, ℕ, List, [], ◌∷◌, ◌++◌, length, Option, None, Bool, true, false, IsTrue};
ghost use Rattle.std.specs.List.{list_all};
ghost use Rattle.rl_ports.specs.declared.batch.Item.{Item};
ghost use Rattle.rl_ports.specs.Faults.{Told};
ghost use Rattle.rl_ports.specs.Store.{Store, is_store, after_batch};
ghost use Rattle.redo_vec.specs.declared.table.TableRow.{TableRow};
ghost use Rattle.redo_spec.specs.Dictionary.{ids_rise};
ghost use Rattle.redo_spec.specs.History.{Commits, commit_count};
ghost use Rattle.redo_spec.specs.Skips.{Skip};
ghost use Rattle.redo_spec.specs.Tables.{Tables, definitions_of};
ghost use Rattle.redo_spec.specs.Fold.{Base, tables_at};
ghost use Rattle.skip_guard.specs.declared.guard.Level.{Level};
ghost use Rattle.row_apply.specs.declared.writes.Write.{Write};
ghost use Rattle.row_apply.specs.Overlaid.{overlaid};
ghost use Rattle.row_apply.specs.Soundness.{AreSound};
ghost use Rattle.log_registry.specs.declared.entry.LogEntry.{LogEntry};
ghost use Rattle.log_registry.specs.Registered.{AreToldBy, IsRising, entry_of};
ghost use Rattle.redo_reader.specs.Ahead.{redo_ahead};
ghost use Rattle.redo_reader.specs.Behind.{redo_left};
ghost use Rattle.standby_spec.specs.declared.mark.Mark.{Mark};
ghost use Rattle.standby_spec.specs.KeptState.{KeptState, base_of};
ghost use Rattle.standby_spec.specs.Layout.{items_of, pairs_of};
ghost use Rattle.standby_spec.specs.Writable.{can_be_written};
ghost use Rattle.standby_spec.specs.Writings.{Writing, items_for, items_for_all, state_after, state_after_all, created_state, created_items, AddLog, Publish, KeepMark, SetLevel, writable};
ghost use Rattle.standby_spec.specs.Refusals.{passes_limit, front_of};
ghost use Rattle.standby_spec.specs.StandbyRedo.{Archived, standby_redo, commits_of};
ghost use Rattle.standby_spec.specs.Checkpoint.{IsMarkOf};
ghost use Rattle.standby_spec.specs.NextCommit.{IsNextCommit, AreNextCommits};
ghost use Rattle.standby_spec.specs.Loading.{Image, loaded, as_loaded, kept_pairs};
ghost use Rattle.standby_spec.specs.HasLayout.{HasLayout, IsStoreOfBytes, LeavesLayout, MayBeDone, MayAllBeDone, AreWhole};
ghost use Rattle.standby_spec.specs.Fits.{Fits, FitsStill};
ghost use Rattle.standby_spec.specs.Lawful.{Belongs, IsLawful};
ghost use Rattle.standby_spec.specs.Publishing.{Publishing, Ending, Refused, Leaves, Does, DoesAll, next_shown, is_of_run, group_limit, in_run, PublisherFits, HasNoStandby};
ghost use Rattle.standby_spec.specs.AtRest.{IsAtRest, leaves_redo, RestsAfter};

use redo_reader::laws::{
    the_reader_gives_the_redo, the_reader_gives_the_rest, what_was_ahead_stays,
};
use redo_spec::laws::a_mark_fits_on;
use rl_ports::Keeper;

/// A skip rule that counts from the commit after n leaves the tables of each count up to n.
pub fn a_later_rule_changes_nothing_before()
    ensures tables { (b : Base) (skips : List Skip) (rule : Skip) (commits : Commits) (n : ℕ) → b.n ≤ n → n ≤ rule.from →
        tables_at b (skips ++ rule ∷ []) commits n ≡ tables_at b skips commits n }
{}

/// A state that fits does so again after the next commit of the redo is published with its writes, where they may be put in
/// place and pass no limit.
pub fn a_published_commit_fits()
    ensures fits { (b : Base) (logs : Archived) (begun : ℕ) (s : KeptState) (at_scn : ℕ) (writes : List Write) →
        Fits b logs begun s → IsNextCommit b s.skips (commits_of logs s) s.n at_scn writes →
        s.n + 1 ≤ commit_count (commits_of logs s) → writable s.tables writes ≡ writes →
        passes_limit s.tables writes ≡ false → Fits b logs begun (state_after (Publish at_scn writes) s) }
{}

/// A state that fits does so with a mark that is right at its own count, which is no greater, and at each level of the guard.
pub fn a_kept_mark_fits()
    ensures mark { (b : Base) (logs : Archived) (begun : ℕ) (s : KeptState) (mark : Mark) → Fits b logs begun s →
        IsMarkOf logs s mark.n mark → mark.n ≤ s.n → Fits b logs begun (state_after (KeepMark mark) s) }
    ensures level { (b : Base) (logs : Archived) (begun : ℕ) (s : KeptState) (level : Level) → Fits b logs begun s →
        Fits b logs begun (state_after (SetLevel level) s) }
{}

/// A state that fits in a run fits between runs.
pub fn a_run_leaves_what_fits()
    ensures still { (b : Base) (logs : Archived) (begun : ℕ) (s : KeptState) → Fits b logs begun s → FitsStill b logs s }
{}

/// A state that fits over any base fits over itself, with its own count and rows as the base of what follows.
pub fn a_state_fits_over_itself()
    ensures itself { (b : Base) (logs : Archived) (begun : ℕ) (s : KeptState) → Fits b logs begun s →
        IsTrue (ids_rise 0 (definitions_of s.tables)) → FitsStill (base_of s) logs s }
{}

/// What fits over the state with which a run began fits over each base over which that state did, where both have the same
/// tables: a change of the run is of a table that is maintained, and of what is not each base shows its own local rows.
pub fn a_run_fits_over_each_base_of_its_beginning()
    ensures fits { (b : Base) (logs : Archived) (opening s : KeptState) → FitsStill b logs opening →
        definitions_of b.tables ≡ definitions_of opening.tables → IsTrue (ids_rise 0 (definitions_of opening.tables)) →
        s ≡ in_run opening s → Fits (base_of opening) logs opening.n s → Fits b logs opening.n s }
{}

/// What is ahead of the place of a mark that is right is the rest of the redo behind its record q: a run that begins there reads
/// it. That it then goes as far as the whole redo is `a_run_from_a_mark_goes_as_far` of `redo_spec`.
pub fn a_run_from_a_mark_reads_the_rest()
    ensures rest { (logs : Archived) (s : KeptState) (n : ℕ) (mark : Mark) → AreToldBy logs s.logs → IsRising s.logs →
        IsMarkOf logs s n mark → redo_ahead logs s.logs mark.place ≡ redo_left mark.q (standby_redo logs s) }
{
    the_reader_gives_the_rest();
}

/// A mark that is right stays so where a further log is registered.
pub fn a_mark_stays_right_in_a_longer_redo()
    ensures mark { (logs : Archived) (s : KeptState) (n : ℕ) (mark : Mark) (entry : LogEntry) → AreToldBy logs s.logs →
        IsRising s.logs → entry_of entry.head.seq s.logs ≡ None → IsMarkOf logs s n mark →
        IsMarkOf logs (state_after (AddLog entry) s) n mark }
{
    the_reader_gives_the_redo();
    what_was_ahead_stays();
    a_mark_fits_on();
}

/// Writes that may be put in place leave sound tables, where their ids rise.
pub fn written_rows_are_sound()
    ensures sound { (tables : Tables) (writes : List Write) → IsTrue (ids_rise 0 (definitions_of tables)) → AreSound tables →
        can_be_written tables writes ≡ true → AreSound (overlaid tables writes) }
{}

/// A call of a run that makes a state which fits and has a layout leaves a publisher that fits over the same base, whether it is
/// done, its commit of the store fails, or it is refused.
pub fn a_call_of_a_run_leaves_a_publisher_that_fits<K: Keeper>()
    ensures fits { (alone : Bool) (start : ℕ) (b : Base) (logs : Archived) (opening s : KeptState) (old new : Publishing K)
        (w : Writing) (ending : Ending) → PublisherFits K.holds K.faults start b logs opening s old → old.stopped ≡ false →
        IsTrue (is_of_run w) → MayBeDone w s → Fits b logs opening.n (state_after w s) → HasLayout (state_after w s) →
        Does K.holds K.faults alone w s old new ending →
        PublisherFits K.holds K.faults start b logs opening (next_shown (state_after w s) s ending) new }
{}

/// The same of several writings that one commit of the store does.
pub fn a_group_of_a_run_leaves_a_publisher_that_fits<K: Keeper>()
    ensures fits { (alone : Bool) (start : ℕ) (b : Base) (logs : Archived) (opening s : KeptState) (old new : Publishing K)
        (ws : List Writing) (ending : Ending) → PublisherFits K.holds K.faults start b logs opening s old →
        old.stopped ≡ false → length ws ≤ group_limit → IsTrue (list_all is_of_run ws) → MayAllBeDone ws s →
        Fits b logs opening.n (state_after_all ws s) → HasLayout (state_after_all ws s) →
        DoesAll K.holds K.faults alone ws s old new ending →
        PublisherFits K.holds K.faults start b logs opening (next_shown (state_after_all ws s) s ending) new }
{}

/// A call that is refused leaves a publisher that fits, whatever it was to make.
pub fn a_refused_call_leaves_a_publisher_that_fits<K: Keeper>()
    ensures fits { (alone : Bool) (start : ℕ) (b : Base) (logs : Archived) (opening s : KeptState) (old new : Publishing K)
        (items : List Item) (later : KeptState) → PublisherFits K.holds K.faults start b logs opening s old →
        old.stopped ≡ false → Leaves K.holds K.faults alone old new items later Refused →
        PublisherFits K.holds K.faults start b logs opening s new }
{}

/// A state that fits does so after the next commits of the redo are published together, where their rows may be put in place one
/// commit after the other and pass no limit; and each of these commits may be done, so that a layout is left.
pub fn a_published_group_fits()
    ensures fits { (b : Base) (logs : Archived) (begun : ℕ) (s : KeptState) (commits : List (ℕ × List Write)) →
        Fits b logs begun s → AreNextCommits b s.skips (commits_of logs s) s.n commits →
        s.n + length commits ≤ commit_count (commits_of logs s) → AreWhole commits s →
        length (front_of s commits) ≡ length commits → Fits b logs begun (state_after_all (front_of s commits) s) }
    ensures may { (s : KeptState) (commits : List (ℕ × List Write)) → AreWhole commits s → s.n + length commits < 2 ^ 62 →
        MayAllBeDone (front_of s commits) s }
    ensures layout { (s : KeptState) (ws : List Writing) → HasLayout s → MayAllBeDone ws s → HasLayout (state_after_all ws s) }
{}

/// A publisher that fits over the state with which its run began, which belongs to archived logs, leaves a lawful store, stopped
/// or not.
pub fn a_publisher_that_fits_leaves_a_lawful_store<K: Keeper>()
    ensures lawful { (start : ℕ) (logs : Archived) (opening s : KeptState) (p : Publishing K) → Belongs logs opening →
        PublisherFits K.holds K.faults start (base_of opening) logs opening s p → Told (K.holds p.keeper) (IsLawful logs) }
{}

/// A state that belongs to archived logs does so behind a change that leaves the logs and what is applied: a rule, a level of the
/// guard, a row.
pub fn a_change_leaves_a_state_that_belongs()
    ensures belongs { (logs : Archived) (w : Writing) (s : KeptState) → leaves_redo w ≡ true → Belongs logs s →
        LeavesLayout w s → Belongs logs (state_after w s) }
{}

/// A call between runs that makes a state which belongs to the archived logs leaves a publisher at rest, whether it is done, its
/// commit of the store fails, or it is refused.
pub fn a_call_between_runs_leaves_a_publisher_at_rest<K: Keeper>()
    ensures rests { (alone : Bool) (start : ℕ) (logs : Archived) (s : KeptState) (old new : Publishing K) (w : Writing)
        (ending : Ending) → IsAtRest K.holds K.faults start logs s old → old.stopped ≡ false → MayBeDone w s →
        Belongs logs (state_after w s) → Does K.holds K.faults alone w s old new ending →
        IsAtRest K.holds K.faults start logs (next_shown (state_after w s) s ending) new }
    // The call that creates a standby leaves one at rest, or none.
    ensures created { (alone : Bool) (start : ℕ) (logs : Archived) (e : LogEntry) (rows : List TableRow) (old new : Publishing K)
        (ending : Ending) → HasNoStandby K.holds old → old.stopped ≡ false → start ≤ K.faults old.keeper →
        Belongs logs (created_state e rows) →
        Leaves K.holds K.faults alone old new (created_items e rows) (created_state e rows) ending →
        RestsAfter K.holds K.faults start logs (created_state e rows) ending new }
{}

/// A publisher at rest that is not stopped fits in the run that begins with it; what a run leaves is at rest, stopped or not; and the
/// store of a publisher at rest is lawful.
pub fn a_run_goes_from_rest_to_rest<K: Keeper>()
    ensures begins { (start : ℕ) (logs : Archived) (s : KeptState) (p : Publishing K) →
        IsAtRest K.holds K.faults start logs s p → p.stopped ≡ false →
        PublisherFits K.holds K.faults start (base_of s) logs s s p }
    ensures ends { (start : ℕ) (logs : Archived) (opening s : KeptState) (p : Publishing K) → Belongs logs opening →
        PublisherFits K.holds K.faults start (base_of opening) logs opening s p → IsAtRest K.holds K.faults start logs s p }
    ensures lawful { (start : ℕ) (logs : Archived) (s : KeptState) (p : Publishing K) →
        IsAtRest K.holds K.faults start logs s p → Told (K.holds p.keeper) (IsLawful logs) }
{}

/// The items of a call that writes lead from the pairs of a state that has a layout to those of the state after it.
pub fn a_commit_leads_to_the_next_state()
    ensures leads { (s : KeptState) (w : Writing) → HasLayout s → MayBeDone w s →
        after_batch (items_for w s) (pairs_of s) ≡ pairs_of (state_after w s) }
    // The same of several that one commit of the store does.
    ensures all { (s : KeptState) (ws : List Writing) → HasLayout s → MayAllBeDone ws s →
        after_batch (items_for_all ws s) (pairs_of s) ≡ pairs_of (state_after_all ws s) }
{}

/// A call that writes and is not refused leaves a state that has a layout.
pub fn a_writing_leaves_a_layout()
    ensures layout { (s : KeptState) (w : Writing) → HasLayout s → LeavesLayout w s → HasLayout (state_after w s) }
{}

/// The pairs of a state that has a layout are loaded as that state, with its mark at its count.
pub fn a_layout_is_loaded()
    ensures loaded { (s : KeptState) → HasLayout s → loaded (pairs_of s) ≡ Image (as_loaded s) }
{}

/// A store from which a state is loaded holds the pairs of that state, and no others in the areas of the layout. So a state
/// has one layout.
pub fn a_loaded_store_is_a_layout()
    ensures pairs { (store : Store) (s : KeptState) → IsTrue (is_store store) → IsStoreOfBytes store → loaded store ≡ Image s →
        pairs_of s ≡ kept_pairs store }
{}

/// The pairs of a state that belongs to archived logs are a lawful store.
pub fn a_state_that_belongs_is_lawful()
    ensures lawful { (logs : Archived) (s : KeptState) → Belongs logs s → IsLawful logs (pairs_of s) }
{}

/// What items leave of the pairs of a state is what the state's own items and then they leave of nothing.
pub fn items_follow_on_a_state()
    ensures follow { (s : KeptState) (items : List Item) → after_batch (items_of s ++ items) [] ≡ after_batch items (pairs_of s) }
{}
