//! The publisher, as callers hold it.
//!
//! Each call that writes does three things in this order, and no other file does the last two: it makes everything ready, the
//! batch and what is shown then; it has the durable store do the batch; it shows what is ready. So what is shown is always kept,
//! and nothing can fail between the store's answer and the showing. Where the store's commit fails it is not known whether the
//! batch was done: what was shown stays, and the publisher is stopped.
ghost use Rattle.std.specs.Prelude.{◌≡◌, ◌↔◌, ◌-◌, ◌<◌, ◌≤◌, ℕ, List, Option, None, Some, true, false, IfOk, IfErr, IfSome, OnOk, OnErr, IsSome, IsTrue};
ghost use Rattle.std.specs.Option.{option_map, option_copied};
ghost use Rattle.rl_ports.specs.declared.batch.Item.{Item};
ghost use Rattle.rl_ports.specs.Faults.{Told};
ghost use Rattle.redo_spec.specs.Fold.{Base};
ghost use Rattle.skip_guard.specs.Rules.{rule_of};
ghost use Rattle.log_registry.specs.Registered.{entry_of};
ghost use Rattle.row_apply.specs.Soundness.{AreSound};
ghost use Rattle.standby_spec.specs.KeptState.{KeptState};
ghost use Rattle.standby_spec.specs.Writings.{AddLog, AddSkip, SetLevel, PutRow, Publish, KeepMark, created_state, created_items, state_after, state_after_all};
ghost use Rattle.standby_spec.specs.Refusals.{Refusal, log_refusal, skip_refusal, base_refusal, local_refusal, publish_refusal, mark_refusal, group_refusal, front_of};
ghost use Rattle.standby_spec.specs.HasLayout.{HasLayout, LeavesLayout};
ghost use Rattle.standby_spec.specs.StandbyRedo.{Archived, commits_of};
ghost use Rattle.standby_spec.specs.Checkpoint.{IsMarkOf};
ghost use Rattle.standby_spec.specs.Fits.{Shows};
ghost use Rattle.standby_spec.specs.Lawful.{Belongs};
ghost use Rattle.standby_spec.specs.AtRest.{RestsAfter};
ghost use Rattle.standby_spec.specs.Loading.{loaded};
ghost use Rattle.standby_spec.specs.Publishing.{PublisherFits, HasNoStandby, Leaves, next_shown, shown_born, shown_logs, shown_skips, shown_level, shown_mark, shown_tables, shown_count, shown_scn};
ghost use Rattle.checkpoint.specs.Images.{image_state};
ghost use Rattle.publisher.specs.Endings.{ending_of, ending_back, Refuses, RefusesBack, OfState, Writes, Rests};
ghost use Rattle.publisher.specs.Parts.{FitsTable, IsLocal};
ghost use Rattle.publisher.specs.Shown.{shown_next};
ghost use Rattle.publisher.specs.Prepares.{IsReady, Makes, Declines};
ghost use Rattle.publisher.specs.PreparesGroup.{MakesAlike, DeclinesGroup, RefusesGroupOf, ending_of_group};
ghost use Rattle.publisher.specs.Groups.{WritesAll, RefusesGroup, group_ending, first_number, parts_of};
ghost use Rattle.publisher.specs.Handed.{IsHandedNext, AreHandedNext};
ghost use Rattle.publisher.specs.Read.{IsView, IsFetched};
ghost use Rattle.publisher.specs.Loads.{told_state, LoadsAs, IsFirstBad, IsFirstBadOrFresh, LoadCounts, ReloadCounts, HoldsStill};

use crate::commit::Commits;
use crate::fault::{GroupFault, PubFault};
use crate::fetch::Fetch;
use crate::group::{grouped, prepare_group};
use crate::keeping::{has_failed, keep};
use crate::next::show_if_done;
use crate::permitted::{fits_table, is_local};
use crate::prepared::Prepared;
use crate::publishing::prepare_commit;
use crate::registering::{prepare_level, prepare_log, prepare_mark, prepare_skip, prepare_standby};
use crate::rows_put::{prepare_base, prepare_local};
use checkpoint::{Image, LoadFault, Loaded, Mark, load};
use eager_work::Commit;
use log_registry::{LogEntry, Registry};
use redo_dict::Dict;
use rl_ports::Keeper;
use rl_value::{Bytes, NoMemory, Row, Scn};
use row_apply::laws::tables_without_rows_are_sound;
use skip_guard::{Level, SkipRule, Skips};
use standby_spec::laws::{
    a_call_between_runs_leaves_a_publisher_at_rest, a_call_of_a_run_leaves_a_publisher_that_fits,
    a_group_of_a_run_leaves_a_publisher_that_fits, a_kept_mark_fits, a_published_commit_fits,
    a_published_group_fits, a_refused_call_leaves_a_publisher_that_fits, a_writing_leaves_a_layout,
};
use std::alloc::Global;
use std::marker::Model;
use table_store::{Tables, View};

/// A durable store, and what is shown of the standby that it keeps. It is seen as the store, the state that is shown, None where
/// no standby was created, and whether a commit of the store failed.
#[derive(Drop)]
pub struct Publisher<K: Keeper> {
    alloc: Global,
    keeper: K,
    image: Option<Image>,
    stopped: bool,
    // What is shown where no standby was created.
    no_logs: Registry,
    no_skips: Skips,
}

impl<K: Keeper> Model for Publisher<K> {
    ghost use Rattle.std.specs.Prelude.{◌≡◌, [], IfSome};
    ghost use Rattle.std.specs.Option.{option_map};
    ghost use Rattle.row_apply.specs.Soundness.{AreSound};
    ghost use Rattle.standby_spec.specs.Publishing.{Publishing};
    ghost use Rattle.checkpoint.specs.Images.{image_state};

    ghost Value = { Publishing K };

    ghost view = { λ p. record { keeper = p.keeper; state = option_map image_state p.image; stopped = p.stopped } };

    ghost invariant = { λ p. IfSome p.image (λ i. AreSound i.tables.tables) × ((p.no_logs ≡ []) × (p.no_skips ≡ [])) };
}

// The standby that was loaded, if there is one.
fn image_in(loaded: Loaded) -> Option<Image>
    ensures image { LoadsAs (option_map image_state result) loaded }
{
    match loaded {
        Loaded::Image(image) => Some(image),
        Loaded::Fresh => None,
    }
}

impl<K: Keeper> Publisher<K> {
    /// Loads what the store keeps. A store that keeps nothing gives a publisher without a standby. Where it is refused, the store
    /// comes back.
    pub fn load(alloc: Global, keeper: K) -> Result<Publisher<K>, (LoadFault, K)>
        ensures loaded { Told (K.holds keeper) (λ pairs. IfOk result (λ p. loaded pairs ≡ told_state p.state)) }
        ensures bad { Told (K.holds keeper) (λ pairs. IfErr result (λ refused. IsFirstBad pairs refused.0)) }
        ensures running { IfOk result (λ p. p.stopped ≡ false) }
        ensures layout { IfOk result (λ p. IfSome p.state HasLayout) }
        ensures same { HoldsStill K.holds keeper result }
        ensures counted { LoadCounts K.faults K.counts_failures_alone keeper result }
    {
        let mut keeper = keeper;
        match load(alloc, &mut keeper) {
            Err(fault) => Err((fault, keeper)),
            Ok(loaded) => Ok(Publisher {
                alloc,
                keeper,
                image: image_in(loaded),
                stopped: false,
                no_logs: Registry::new(alloc),
                no_skips: Skips::new(alloc),
            }),
        }
    }

    /// Loads what the store keeps now, in place of what is shown. Where the store keeps no standby any more, the key of no bytes
    /// in area 1 is told. After a refusal what is shown stays.
    pub fn reload(&mut self) -> Result<(), LoadFault>
        requires born { IsSome self.old.state }
        requires running { self.old.stopped ≡ false }
        ensures loaded { Told (K.holds self.old.keeper) (λ pairs. OnOk result (loaded pairs ≡ told_state self.new.state)) }
        ensures bad { Told (K.holds self.old.keeper) (λ pairs. IfErr result (IsFirstBadOrFresh pairs)) }
        ensures born { IsSome self.new.state }
        ensures layout { OnOk result (IfSome self.new.state HasLayout) }
        ensures unchanged { OnErr result (self.new.state ≡ self.old.state) }
        ensures running { self.new.stopped ≡ false }
        ensures same { K.holds self.new.keeper ≡ K.holds self.old.keeper }
        ensures counted { ReloadCounts K.counts_failures_alone (K.faults self.old.keeper) (K.faults self.new.keeper) result }
    {
        match load(self.alloc, &mut self.keeper)? {
            Loaded::Fresh => Err(LoadFault::BadKeeper {
                area: 1,
                key: Bytes::of(Vec::new(self.alloc)),
            }),
            Loaded::Image(image) => {
                self.image = Some(image);
                Ok(())
            }
        }
    }

    /// Dbid, first sequence and base SCN of the standby. None exactly where none was created.
    pub fn born(&self) -> Option<(u32, u32, Scn)>
        ensures born { result ≡ shown_born self.now.state }
    {
        match &self.image {
            None => None,
            Some(image) => Some((image.dbid, image.first, image.base)),
        }
    }

    /// Whether a commit of the store failed in a call of this publisher. No call that writes may be made then.
    pub fn stopped(&self) -> bool
        ensures stopped { result ≡ self.now.stopped }
    {
        self.stopped
    }

    // What is shown of the standby that is there.
    fn shown(&self) -> &Image
        requires born { IsSome self.now.state }
        ensures shown { self.now.state ≡ Some (image_state result.now) }
        ensures sound { AreSound (image_state result.now).tables }
    {
        match &self.image {
            Some(image) => image,
            None => unreachable!(),
        }
    }

    // Has the store do the batch that is ready, and shows what is ready where that is done.
    fn put_through(&mut self, prepared: Prepared) -> Result<(), PubFault>
        requires running { self.old.stopped ≡ false }
        requires ready { IsReady self.old.state prepared }
        ensures leaves { (later : KeptState) → shown_next prepared.next self.old.state ≡ Some later →
            Leaves K.holds K.faults K.counts_failures_alone self.old self.new prepared.batch later (ending_of result) }
        ensures refused { Refuses None result }
    {
        let Prepared { next, batch } = prepared;
        let kept = keep(&mut self.keeper, &batch);
        show_if_done(&mut self.image, next, &kept);
        self.stopped = has_failed(&kept);
        kept
    }

    // Puts through what is ready, unless the call is refused.
    fn write(&mut self, prepared: Result<Prepared, PubFault>) -> Result<(), PubFault>
        requires running { self.old.stopped ≡ false }
        requires ready { IfOk prepared (IsReady self.old.state) }
        ensures leaves { (items : List Item) (later : KeptState) → Makes items self.old.state later prepared →
            Leaves K.holds K.faults K.counts_failures_alone self.old self.new items later (ending_of result) }
        ensures refused { (reason : Option Refusal) → Declines reason prepared → Refuses reason result }
    {
        match prepared {
            Err(fault) => Err(fault),
            Ok(prepared) => self.put_through(prepared),
        }
    }

    /// Creates a standby from its first log and the tables of its dictionary: the guard keeps users from all tables, no commit is
    /// applied, and the SCN before the log is the base SCN, which it answers.
    pub fn create(&mut self, entry: LogEntry, dict: Dict) -> Result<Scn, PubFault>
        requires none { self.old.state ≡ None }
        requires running { self.old.stopped ≡ false }
        ensures created { Leaves K.holds K.faults K.counts_failures_alone self.old self.new (created_items entry dict.tables)
            (created_state entry dict.tables) (ending_of result) }
        ensures refused { Refuses None result }
        // It is at rest then, or there is none, where what it makes belongs to the archived logs.
        ensures rests { (start : ℕ) (logs : Archived) → HasNoStandby K.holds self.old → start ≤ K.faults self.old.keeper →
            Belongs logs (created_state entry dict.tables) →
            RestsAfter K.holds K.faults start logs (created_state entry dict.tables) (ending_of result) self.new }
        ensures base { IfOk result (λ scn. scn ≡ entry.head.first - 1) }
    {
        a_call_between_runs_leaves_a_publisher_at_rest::<K>();
        let base = entry.head.first.saturating_sub(1);
        let prepared = prepare_standby(self.alloc, entry, dict);
        match self.write(prepared) {
            Ok(()) => Ok(base),
            Err(fault) => Err(fault),
        }
    }

    /// Registers a log of the standby's database. It takes time for each log that is registered.
    pub fn add_log(&mut self, entry: LogEntry) -> Result<(), PubFault>
        requires born { IsSome self.old.state }
        requires running { self.old.stopped ≡ false }
        requires new { IfSome self.old.state (λ s. entry_of entry.head.seq s.logs ≡ None) }
        ensures written { Writes K.holds K.faults K.counts_failures_alone (AddLog entry) self.old self.new (ending_of result) }
        ensures refused { OfState self.old.state (λ s. Refuses (log_refusal s) result) }
        // Between two runs.
        ensures rests { Rests K.holds K.faults (AddLog entry) self.old self.new (ending_of result) }
    {
        a_call_between_runs_leaves_a_publisher_at_rest::<K>();
        let prepared = prepare_log(self.alloc, self.shown(), entry);
        self.write(prepared)
    }

    /// Adds a skip rule, which counts from the next commit on, and for the guard at once.
    pub fn add_skip(&mut self, rule: SkipRule) -> Result<(), PubFault>
        requires born { IsSome self.old.state }
        requires running { self.old.stopped ≡ false }
        ensures written { Writes K.holds K.faults K.counts_failures_alone (AddSkip (rule_of rule)) self.old self.new
            (ending_of result) }
        ensures refused { OfState self.old.state (λ s. Refuses (skip_refusal s (rule_of rule)) result) }
        // Between two runs.
        ensures rests { Rests K.holds K.faults (AddSkip (rule_of rule)) self.old self.new (ending_of result) }
    {
        a_call_between_runs_leaves_a_publisher_at_rest::<K>();
        let prepared = prepare_skip(self.alloc, self.shown(), rule);
        self.write(prepared)
    }

    /// Sets how far users are kept from writing.
    pub fn set_level(&mut self, level: Level) -> Result<(), PubFault>
        requires born { IsSome self.old.state }
        requires running { self.old.stopped ≡ false }
        ensures written { Writes K.holds K.faults K.counts_failures_alone (SetLevel level) self.old self.new (ending_of result) }
        ensures refused { Refuses None result }
        // Between two runs.
        ensures rests { Rests K.holds K.faults (SetLevel level) self.old self.new (ending_of result) }
    {
        a_call_between_runs_leaves_a_publisher_at_rest::<K>();
        let prepared = prepare_level(self.alloc, self.shown(), level);
        self.write(prepared)
    }

    /// Puts a row of the base, which the redo's changes then find. It is refused where a row with its key is there.
    pub fn add_base(&mut self, table: u32, row: Row) -> Result<(), PubFault>
        requires born { IsSome self.old.state }
        requires running { self.old.stopped ≡ false }
        requires fits { IfSome self.old.state (λ s. FitsTable s.tables table row) }
        ensures written { Writes K.holds K.faults K.counts_failures_alone (PutRow table row) self.old self.new
            (ending_of result) }
        ensures refused { OfState self.old.state (λ s. Refuses (base_refusal s table row) result) }
        // Between two runs.
        ensures rests { Rests K.holds K.faults (PutRow table row) self.old self.new (ending_of result) }
    {
        a_call_between_runs_leaves_a_publisher_at_rest::<K>();
        let prepared = prepare_base(self.alloc, self.shown(), table, row);
        self.write(prepared)
    }

    /// Puts a row of a user into a table that is not maintained, in the place of one with its key.
    pub fn write_local(&mut self, table: u32, row: Row) -> Result<(), PubFault>
        requires born { IsSome self.old.state }
        requires running { self.old.stopped ≡ false }
        requires fits { IfSome self.old.state (λ s. FitsTable s.tables table row) }
        requires allowed { IfSome self.old.state (IsLocal table) }
        ensures written { Writes K.holds K.faults K.counts_failures_alone (PutRow table row) self.old self.new
            (ending_of result) }
        ensures refused { OfState self.old.state (λ s. Refuses (local_refusal s table row) result) }
        // Between two runs.
        ensures rests { Rests K.holds K.faults (PutRow table row) self.old self.new (ending_of result) }
    {
        a_call_between_runs_leaves_a_publisher_at_rest::<K>();
        let prepared = prepare_local(self.alloc, self.shown(), table, row);
        self.write(prepared)
    }

    /// Publishes the next commit: durable first, and visible then. It answers the count then. Writes that may not be put in place
    /// are left out, which only devices that do not tell what they hold can lead to.
    pub fn publish(&mut self, commit: Commit) -> Result<u64, (PubFault, Commit)>
        requires born { IsSome self.old.state }
        requires running { self.old.stopped ≡ false }
        ensures written { Writes K.holds K.faults K.counts_failures_alone (Publish commit.scn commit.writes) self.old self.new
            (ending_back result) }
        ensures refused { OfState self.old.state (λ s. RefusesBack (publish_refusal s commit.number commit.writes) result) }
        ensures count { IfOk result (λ n. n ≡ commit.number) }
        ensures back { IfErr result (λ refused. refused.1 ≡ commit) }
        // Handed the next commit of the redo, a publisher that fits does so again, however the call ends.
        ensures fits { (start : ℕ) (b : Base) (logs : Archived) (opening s : KeptState) →
            PublisherFits K.holds K.faults start b logs opening s self.old → IsHandedNext b logs s commit →
            PublisherFits K.holds K.faults start b logs opening
            (next_shown (state_after (Publish commit.scn commit.writes) s) s (ending_back result)) self.new }
    {
        a_published_commit_fits();
        a_writing_leaves_a_layout();
        a_call_of_a_run_leaves_a_publisher_that_fits::<K>();
        a_refused_call_leaves_a_publisher_that_fits::<K>();
        let prepared = prepare_commit(self.alloc, self.shown(), &commit);
        match self.write(prepared) {
            Ok(()) => Ok(commit.number),
            Err(fault) => Err((fault, commit)),
        }
    }

    // Puts through what is ready of a group, unless it is refused.
    fn write_group(&mut self, prepared: Result<Prepared, GroupFault>) -> Result<(), GroupFault>
        requires running { self.old.stopped ≡ false }
        requires ready { IfOk prepared (IsReady self.old.state) }
        ensures leaves { (items : List Item) (later : KeptState) → MakesAlike items self.old.state later prepared →
            Leaves K.holds K.faults K.counts_failures_alone self.old self.new items later (ending_of_group result) }
        ensures refused { (reason : Option Refusal) → DeclinesGroup reason prepared → RefusesGroupOf reason result }
    {
        match prepared {
            Err(fault) => Err(fault),
            Ok(prepared) => {
                let kept = self.put_through(prepared);
                grouped(kept)
            }
        }
    }

    /// Publishes 1 to 64 commits that follow one another by one commit of the store: all of them or none. What is shown goes from
    /// the state before the first to the state behind the last. It answers the count then. Where more than 2^20 rows would be
    /// live behind one of them, it tells how many before that one may be published.
    pub fn publish_all(&mut self, commits: Commits) -> Result<u64, (GroupFault, Commits)>
        requires born { IsSome self.old.state }
        requires running { self.old.stopped ≡ false }
        ensures written { WritesAll K.holds K.faults K.counts_failures_alone commits self.old self.new (group_ending result) }
        ensures refused { OfState self.old.state (λ s. RefusesGroup
            (group_refusal s (first_number commits) (parts_of commits)) result) }
        ensures count { IfOk result (λ n. n ≡ shown_count self.new.state) }
        ensures back { IfErr result (λ refused. refused.1 ≡ commits) }
        // Handed the next commits of the redo, a publisher that fits does so again, however the call ends.
        ensures fits { (start : ℕ) (b : Base) (logs : Archived) (opening s : KeptState) →
            PublisherFits K.holds K.faults start b logs opening s self.old → AreHandedNext b logs s commits →
            PublisherFits K.holds K.faults start b logs opening
            (next_shown (state_after_all (front_of s (parts_of commits)) s) s (group_ending result)) self.new }
    {
        a_published_group_fits();
        a_group_of_a_run_leaves_a_publisher_that_fits::<K>();
        a_refused_call_leaves_a_publisher_that_fits::<K>();
        // They are a group.
        let _items = commits.items();
        let prepared = prepare_group(self.alloc, self.shown(), &commits);
        match self.write_group(prepared) {
            Ok(()) => Ok(self.count()),
            Err(fault) => Err((fault, commits)),
        }
    }

    /// Keeps a mark, from which a later run may begin. It is refused where it was taken at a later count.
    pub fn keep_mark(&mut self, mark: &Mark) -> Result<(), PubFault>
        requires born { IsSome self.old.state }
        requires running { self.old.stopped ≡ false }
        ensures written { Writes K.holds K.faults K.counts_failures_alone (KeepMark mark.now) self.old self.new
            (ending_of result) }
        ensures refused { OfState self.old.state (λ s. Refuses (mark_refusal s mark.now) result) }
        // Handed a mark that is right at its count, a publisher that fits does so again, however the call ends.
        ensures fits { (start : ℕ) (b : Base) (logs : Archived) (opening s : KeptState) →
            PublisherFits K.holds K.faults start b logs opening s self.old → IsMarkOf logs s mark.now.n mark.now →
            LeavesLayout (KeepMark mark.now) s →
            PublisherFits K.holds K.faults start b logs opening
            (next_shown (state_after (KeepMark mark.now) s) s (ending_of result)) self.new }
    {
        a_kept_mark_fits();
        a_writing_leaves_a_layout();
        a_call_of_a_run_leaves_a_publisher_that_fits::<K>();
        a_refused_call_leaves_a_publisher_that_fits::<K>();
        let prepared = prepare_mark(self.alloc, self.shown(), *mark);
        self.write(prepared)
    }

    // How many commits are applied.
    fn count(&self) -> u64
        ensures count { result ≡ shown_count self.now.state }
    {
        match &self.image {
            None => 0,
            Some(image) => image.n,
        }
    }

    // The tables that are shown, which share every block with those that are returned.
    fn tables(&self) -> Result<Tables, NoMemory>
        ensures tables { IfOk result (λ tables. tables.tables ≡ shown_tables self.now.state) }
        ensures sound { IfOk result (λ tables. AreSound tables.tables) }
    {
        match &self.image {
            Some(image) => image.tables.snapshot(),
            None => {
                tables_without_rows_are_sound();
                match Tables::new(self.alloc, Dict::new(self.alloc)) {
                    Ok(tables) => Ok(tables),
                    Err(_) => Err(NoMemory),
                }
            }
        }
    }

    /// What a query reads: the tables as they are shown, with their count and SCN. They share every block with those that are
    /// shown, and stay as they are.
    pub fn look(&self) -> Result<View, NoMemory>
        ensures shown { IfOk result (IsView self.now.state) }
        ensures sound { IfOk result (λ view. AreSound view.tables.tables) }
        // Of a publisher that fits it is what the redo makes, at its count.
        ensures fits { (start : ℕ) (b : Base) (logs : Archived) (opening s : KeptState) →
            PublisherFits K.holds K.faults start b logs opening s self.now →
            IfOk result (λ view. Shows b s.skips (commits_of logs s) view.n view.scn view.tables.tables) }
    {
        let tables = self.tables()?;
        Ok(View {
            scn: self.applied_scn(),
            n: self.count(),
            tables,
        })
    }

    // The SCN of the last commit that is applied.
    fn applied_scn(&self) -> Scn
        ensures applied { result ≡ shown_scn self.now.state }
    {
        match &self.image {
            None => 0,
            Some(image) => image.scn,
        }
    }

    /// What work ahead of a commit reads that needs the first `water` commits: the tables as they are shown, or that too few
    /// commits are applied.
    pub fn fetch(&self, water: u64) -> Result<Fetch, NoMemory>
        ensures fetched { IfOk result (IsFetched self.now.state water) }
    {
        let n = self.count();
        if n < water {
            return Ok(Fetch::Early { n, water });
        }
        let tables = self.tables()?;
        Ok(Fetch::Ready { n, tables })
    }

    /// The registered logs.
    pub fn logs(&self) -> &Registry
        ensures shown { result.now ≡ shown_logs self.now.state }
    {
        match &self.image {
            None => &self.no_logs,
            Some(image) => &image.logs,
        }
    }

    /// The skip rules, in the order in which they were added.
    pub fn skips(&self) -> &Skips
        ensures shown { result.now ≡ shown_skips self.now.state }
    {
        match &self.image {
            None => &self.no_skips,
            Some(image) => &image.skips,
        }
    }

    /// How far users are kept from writing.
    pub fn level(&self) -> Level
        ensures shown { result ≡ shown_level self.now.state }
    {
        match &self.image {
            None => Level::All,
            Some(image) => image.level,
        }
    }

    /// The mark that is kept, if there is one.
    pub fn mark(&self) -> Option<&Mark>
        ensures shown { option_copied result ≡ shown_mark self.now.state }
    {
        match &self.image {
            None => None,
            Some(image) => image.mark.as_ref(),
        }
    }

    /// Whether the table is there and the row fits it, so that it may be put.
    pub fn takes_row(&self, table: u32, row: &Row) -> bool
        requires born { IsSome self.now.state }
        ensures exact { IfSome self.now.state (λ s. IsTrue result ↔ FitsTable s.tables table row.now) }
    {
        fits_table(&self.shown().tables, table, row)
    }

    /// Whether users may write the table: the guard lets them, and the table is not maintained.
    pub fn takes_users(&self, table: u32) -> bool
        requires born { IsSome self.now.state }
        ensures exact { IfSome self.now.state (λ s. IsTrue result ↔ IsLocal table s) }
    {
        is_local(self.shown(), table)
    }

    /// Gives the store back.
    pub fn into_keeper(self) -> K
        ensures same { result ≡ self.keeper }
    {
        self.keeper
    }
}
