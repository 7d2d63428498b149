//! A fold that goes on: what it keeps between two records, and the step over one.
use crate::effects::{EffectsFault, effects_of};
use crate::fault::TakeFault;
use crate::live_changes::{LiveChanges, Survivors};
use plain_store::{Based, KeepFault, PlainTables, UniqueIndex, keep, put_in};
use redo_law::{AdmitFault, Law};
use redo_spec::Header;
use redo_vec::{Change, RedoRec};
use rl_value::{Cause, NoMemory, Pos, Scn, Stop, Verdict};
use row_apply::{Overlay, Writes};
use skip_guard::Skips;
use std::alloc::Global;

/// What a fold keeps as long as it goes on.
#[derive(Drop)]
pub struct Running {
    pub alloc: Global,
    pub law: Law,
    /// How many records were admitted, over the whole redo.
    pub rec: u64,
    pub live: LiveChanges,
    /// How many commits there were, over the whole redo.
    pub made: u64,
    pub n: u64,
    pub scn: Scn,
    pub tables: PlainTables,
    /// Which row has a unique value, once the dictionary is whole.
    pub index: UniqueIndex,
    /// How many rows there are then.
    pub count: u64,
    /// The dictionary is whole, as of the last admitted record; a refused one may have ended it in law, and then no table is
    /// shown.
    pub whole: bool,
}

impl Running {
    ghost use Rattle.std.specs.Prelude.{◌≡◌, ◌+◌, ◌<◌, ◌^◌, None, Ok, Err, true, false, IfOk, IfErr, IfSome, OnOk, IsTrue};
    ghost use Rattle.redo_spec.specs.Tables.{assembled};
    ghost use Rattle.redo_spec.specs.Fold.{effects};
    ghost use Rattle.row_apply.specs.Overlaid.{overlaid, are_of};
    ghost use Rattle.row_apply.specs.Soundness.{AreSound};
    ghost use Rattle.primary.specs.Progress.{progress_after_commit, kept_of, progress_with_commit, tables_shown, RowsAreSound, progress_after_record, Going};
    ghost use Rattle.primary.specs.Running.{AreAccepted, TellsMiss, fold_state_of, progress_of, tables_of, KeepsRows, IsRunning, MayCommit};
    ghost use Rattle.plain_store.specs.Unique.{IsIndexed};
    ghost use Rattle.primary.specs.declared.fault.TakeFault.TheVariants.{Unsound};

    // What the changes of the next commit write that are not passed over.
    fn writes_of(&self, skips: &Skips, changes: &[(Pos, Change)]) -> Result<Writes, EffectsFault>
        requires accepted { AreAccepted self.now.law.dictionary.tables changes.now }
        requires sound { AreSound (assembled self.now.law.dictionary.tables self.now.tables) }
        requires indexed { IsIndexed self.now.law.dictionary.tables self.now.tables self.now.index }
        ensures done { IfOk result (λ writes. effects (assembled self.now.law.dictionary.tables self.now.tables)
            (kept_of skips.now self.now.law.dictionary.tables self.now.n changes.now)
            ≡ Ok (overlaid (assembled self.now.law.dictionary.tables self.now.tables) writes)) }
        ensures sound { IfOk result (λ writes. AreSound (overlaid
            (assembled self.now.law.dictionary.tables self.now.tables) writes)) }
        ensures of_tables { IfOk result (λ writes. IsTrue (are_of self.now.law.dictionary.tables writes)) }
        ensures missed { IfErr result (TellsMiss (effects (assembled self.now.law.dictionary.tables self.now.tables)
            (kept_of skips.now self.now.law.dictionary.tables self.now.n changes.now))) }
    {
        let mut over = Overlay::new(self.alloc);
        let base = Based::of(self.law.dict(), &self.tables, &self.index);
        effects_of(&base, skips, self.n, changes, &mut over)?;
        match over.into_writes() {
            Ok(writes) => Ok(writes),
            Err(NoMemory) => Err(EffectsFault::Memory),
        }
    }

    // The commit after n has these changes. It answers why the fold ends with it, if it does.
    fn apply(
        &mut self,
        skips: &Skips,
        scn: Scn,
        changes: Survivors,
    ) -> Result<Option<Verdict>, NoMemory>
        requires whole { self.old.whole ≡ true }
        requires accepted { AreAccepted self.old.law.dictionary.tables changes }
        requires sound { AreSound (assembled self.old.law.dictionary.tables self.old.tables) }
        requires kept { KeepsRows self.old }
        ensures taken { IfOk result (λ end. progress_of end self.new ≡
            progress_after_commit skips.now scn changes (fold_state_of self.old)) }
        ensures sound { IfOk result (λ end. AreSound (assembled self.new.law.dictionary.tables self.new.tables)) }
        ensures kept { IfOk result (λ end. KeepsRows self.new) }
        ensures law { IfOk result (λ end. self.new.law ≡ self.old.law) }
        ensures live { IfOk result (λ end. self.new.live ≡ self.old.live) }
        ensures rec { IfOk result (λ end. self.new.rec ≡ self.old.rec) }
        ensures whole { IfOk result (λ end. self.new.whole ≡ self.old.whole) }
    {
        let Some(made) = self.made.checked_add(1) else {
            // No redo has 2^64 commits; the answer without a cause stands for it.
            return Err(NoMemory);
        };
        if self.made < self.n {
            self.made = made;
            return Ok(None);
        }
        let Some(n) = self.n.checked_add(1) else {
            return Err(NoMemory);
        };
        let changes = changes.into_items();
        let writes = match self.writes_of(skips, changes.as_slice()) {
            Ok(writes) => writes,
            Err(EffectsFault::Memory) => return Err(NoMemory),
            Err(EffectsFault::Missed { pos, table, miss }) => {
                return Ok(Some(Verdict::Mismatch {
                    scn,
                    pos,
                    table,
                    miss,
                }));
            }
        };
        let index = &mut self.index;
        let count = &mut self.count;
        if !put_in(self.law.dict(), &mut self.tables, index, count, writes)? {
            return Ok(Some(Verdict::RowLimit { scn }));
        }
        self.made = made;
        self.n = n;
        self.scn = scn;
        Ok(None)
    }

    // The commit of these changes, if a vector commits any.
    fn apply_commit(
        &mut self,
        skips: &Skips,
        scn: Scn,
        commit: Option<Survivors>,
    ) -> Result<Option<Verdict>, NoMemory>
        requires may { IfSome commit (λ ps. MayCommit self.old ps) }
        requires sound { AreSound (tables_of self.old) }
        requires kept { self.old.whole ≡ true → KeepsRows self.old }
        ensures taken { IfOk result (λ end. progress_of end self.new ≡
            progress_with_commit skips.now scn commit (fold_state_of self.old)) }
        ensures sound { IfOk result (λ end. AreSound (tables_of self.new)) }
        ensures kept { IfOk result (λ end. self.new.whole ≡ true → KeepsRows self.new) }
        ensures law { IfOk result (λ end. self.new.law ≡ self.old.law) }
        ensures live { IfOk result (λ end. self.new.live ≡ self.old.live) }
        ensures rec { IfOk result (λ end. self.new.rec ≡ self.old.rec) }
        ensures whole { IfOk result (λ end. self.new.whole ≡ self.old.whole) }
    {
        match commit {
            None => Ok(None),
            Some(changes) => self.apply(skips, scn, changes),
        }
    }

    // As an admitted record begins. Where the dictionary has ended with it, the rows that waited are its tables.
    fn enter(&mut self) -> Result<(), TakeFault>
        requires still { self.old.whole ≡ true → self.old.law.dictionary.finished ≡ true }
        requires sound { self.old.whole ≡ true → AreSound (assembled self.old.law.dictionary.tables self.old.tables) }
        requires kept { self.old.whole ≡ true → KeepsRows self.old }
        ensures only { OnOk result (self.new ≡ record self.old
            { whole = self.old.law.dictionary.finished; index = self.new.index; count = self.new.count }) }
        ensures sound { OnOk result (AreSound (tables_of self.new)) }
        ensures kept { OnOk result (self.new.whole ≡ true → KeepsRows self.new) }
        ensures waited { result ≡ Err Unsound → self.old.whole ≡ false }
        ensures unsound { result ≡ Err Unsound → AreSound
            (tables_shown self.old.law.dictionary.finished self.old.law.dictionary.tables self.old.tables) → ⊥ }
    {
        if self.whole || !self.law.dict().finished() {
            return Ok(());
        }
        let kept = match keep(self.alloc, self.law.dict(), &self.tables) {
            Ok(kept) => kept,
            Err(KeepFault::Unsound) => return Err(TakeFault::Unsound),
            Err(KeepFault::Memory) => return Err(TakeFault::Memory),
        };
        self.index = kept.index;
        self.count = kept.count;
        self.whole = true;
        Ok(())
    }

    /// The step over the next record. It answers why the fold ends with it, if it does.
    pub fn step(
        &mut self,
        head: &Header,
        rec: RedoRec,
        skips: &Skips,
    ) -> Result<Option<Verdict>, TakeFault>
        requires running { IsRunning self.old }
        requires room { self.old.law.rec + 1 < 2 ^ 64 }
        ensures running { IfOk result (λ end. end ≡ None → IsRunning self.new) }
        ensures sound { IfOk result (λ end. AreSound (tables_of self.new)) }
        ensures taken { IfOk result (λ end. progress_of end self.new ≡
            progress_after_record skips.now (head.now, rec) (Going (fold_state_of self.old))) }
        ensures rows { OnOk result (RowsAreSound (head.now, rec) (Going (fold_state_of self.old))) }
        ensures unsound { result ≡ Err Unsound → RowsAreSound (head.now, rec) (Going (fold_state_of self.old)) → ⊥ }
    {
        match self.law.admit(head, &rec) {
            Ok(()) => {}
            Err(AdmitFault::Memory) => return Err(TakeFault::Memory),
            Err(AdmitFault::Law(fault)) => {
                return Ok(Some(Verdict::Stopped(Stop::Malformed {
                    rec: self.rec + 1,
                    cause: Cause::Law(fault),
                })));
            }
        }
        self.rec += 1;
        match self.enter() {
            Ok(()) => {}
            Err(fault) => return Err(fault),
        }
        let scn = rec.scn;
        let mut vec: u16 = 1;
        for vector in rec.vectors.into_items() {
            let at = Pos {
                rec: self.rec,
                vec: vec as u8,
            };
            let commit = self.live.take(at, vector)?;
            if let Some(verdict) = self.apply_commit(skips, scn, commit)? {
                return Ok(Some(verdict));
            }
            vec += 1;
        }
        Ok(None)
    }
}
