//! What the records so far leave, and how one more vector is tested and taken.
//!
//! The tests of a vector stand in the order of their causes. A refused vector leaves the dictionary as it was. Of the open
//! transactions nothing is said then.
ghost use Rattle.std.specs.Prelude.{◌≡◌, IsTrue, Err, ◌+◌, ◌<◌, ◌≤◌, ◌^◌, ◌&&◌, ◌||◌, not, ℕ, nat_le, ◌==◌, OnOk, IfOk, length, Option, Some, None};
ghost use Rattle.std.specs.List.{list_any};
ghost use Rattle.redo_vec.specs.declared.vector.Vector.TheVariants.{Start, Change as OfChange, Undo as OfUndo, Commit as OfCommit, Rollback as OfRollback, Table as OfTable};
ghost use Rattle.redo_spec.specs.Dictionary.{is_of_dictionary};
ghost use Rattle.redo_spec.specs.Locks.{least};
ghost use Rattle.redo_law.specs.Held.{contended_keys};
ghost use Rattle.redo_spec.specs.Standing.{is_open, standing_after_all, survivor_count, record_after};
ghost use Rattle.redo_spec.specs.Law.{open_limit, record_fault, dictionary_left, breaks_chain, ends_txn, whole_fault, own_fault, vector_fault, vectors_fault, left_by_vectors, made_fault};
ghost use Rattle.redo_dict.specs.Refusals.{IsTableRefusal, change_reason};
ghost use Rattle.redo_law.specs.Calls.{Judges, Leaves, Refuses, OnWant, may_want_in, wants_memory};
ghost use Rattle.redo_law.specs.OpenTransactions.{BeganBefore};
ghost use Rattle.redo_law.specs.States.{standing_in, fault_of_lock, IsBetweenRecords, TakesVector};

use crate::conflicts::conflicts;
use crate::fault::AdmitFault;
use crate::open_transactions::OpenTransactions;
use redo_dict::{ChangeFault, Dict, DictFault};
use redo_spec::Header;
use redo_vec::{Change, RedoRec, TableRow, Vector};
use rl_value::{Key, LawFault, NoMemory, Pos, Scn, Xid};
use std::alloc::Global;

/// The most surviving changes that open transactions may have together.
pub const MAX_CHANGES: u64 = 1 << 19;

/// What the records so far leave for judging the next one.
#[derive(Drop)]
pub struct State {
    pub alloc: Global,
    pub first: u32,
    pub known: u64,
    pub rec: u64,
    pub head: Option<Header>,
    pub scn: Scn,
    pub commit_scn: Scn,
    pub dict: Dict,
    pub transactions: OpenTransactions,
}

fn breaks_chain_after(last: Option<Header>, head: &Header) -> bool
    ensures { result ≡ breaks_chain last head.now }
{
    match last {
        None => false,
        Some(last) => last.seq != head.seq && last.next != head.first,
    }
}

fn ends(vector: &Vector) -> bool
    ensures { result ≡ ends_txn vector.now }
{
    match vector {
        Vector::Commit(_) | Vector::Rollback(_) => true,
        Vector::Start(_)
        | Vector::Change(_)
        | Vector::Undo(_)
        | Vector::Table(_)
        | Vector::DictEnd => false,
    }
}

fn has_end(vectors: &[Vector]) -> bool
    ensures { result ≡ list_any ends_txn vectors.now }
{
    vectors.iter().any(ends)
}

fn is_dictionary(vector: &Vector) -> bool
    ensures { result ≡ is_of_dictionary vector.now }
{
    match vector {
        Vector::Table(_) | Vector::DictEnd => true,
        Vector::Start(_)
        | Vector::Change(_)
        | Vector::Undo(_)
        | Vector::Commit(_)
        | Vector::Rollback(_) => false,
    }
}

fn law_fault_of(fault: ChangeFault) -> LawFault
    ensures { result ≡ change_reason fault }
{
    match fault {
        ChangeFault::NoTable => LawFault::NoTable,
        ChangeFault::Columns => LawFault::Columns,
        ChangeFault::Types => LawFault::Types,
        ChangeFault::Supplement => LawFault::Supplement,
    }
}

fn table_refused(fault: DictFault) -> AdmitFault
    ensures { (reason : Option LawFault) → IsTableRefusal fault reason → Refuses reason result }
{
    match fault {
        DictFault::Twice => AdmitFault::Law(LawFault::Twice),
        DictFault::Names => AdmitFault::Law(LawFault::Names),
        DictFault::Keys => AdmitFault::Law(LawFault::Keys),
        DictFault::Limit => AdmitFault::Law(LawFault::Limit),
        DictFault::Memory => AdmitFault::Memory,
    }
}

impl State {
    /// The first reason for which a record as a whole may not follow.
    pub fn whole_refusal(&self, head: &Header, rec: &RedoRec) -> Option<LawFault>
        ensures { result ≡ whole_fault (standing_in self.now) (head.now, rec.now) }
    {
        let vectors = rec.vectors.items();
        if breaks_chain_after(self.head, head) {
            return Some(LawFault::Chain);
        }
        if rec.scn < head.first || head.next <= rec.scn || rec.scn < self.scn {
            return Some(LawFault::Scn);
        }
        if has_end(vectors) && vectors.len() > 1 {
            return Some(LawFault::Alone);
        }
        None
    }

    // A vector of the dictionary comes behind its end, or another before, or in a later log than the first.
    fn is_misplaced(&self, head: &Header, vector: &Vector) -> bool
        ensures { result ≡ ((self.now.dict.finished && is_of_dictionary vector.now) ||
            (not self.now.dict.finished && not (is_of_dictionary vector.now)) ||
            (not self.now.dict.finished && not (head.now.seq == self.now.first))) }
    {
        let finished = self.dict.finished();
        let of_dictionary = is_dictionary(vector);
        (finished && of_dictionary)
            || (!finished && !of_dictionary)
            || (!finished && head.seq != self.first)
    }

    fn is_open(&self, xid: Xid) -> bool
        ensures { result ≡ is_open (standing_in self.now) xid }
    {
        self.transactions.is_open(xid)
    }

    // Its START may stand before the records of this law.
    fn may_have_begun_before(&self) -> bool
        ensures { result ≡ nat_le self.now.rec self.now.known }
    {
        self.rec <= self.known
    }

    fn start(&mut self, vec: u8, xid: Xid) -> Result<(), AdmitFault>
        requires before { BeganBefore (record { rec = self.old.rec; vec = vec }) (standing_in self.old).active }
        ensures { TakesVector (own_fault (standing_in self.old) (Start xid)) vec (Start xid) self.old self.new result }
    {
        if self.is_open(xid) {
            return Err(AdmitFault::Law(LawFault::OpenTwice));
        }
        let at = Pos { rec: self.rec, vec };
        if self.transactions.start(self.alloc, at, xid).is_err() {
            return Err(AdmitFault::Memory);
        }
        Ok(())
    }

    // Another open transaction holds one of these keys.
    fn lock_refusal(&self, xid: Xid, keys: &[Key]) -> Result<(), AdmitFault>
        ensures { Judges (fault_of_lock (least (contended_keys xid keys.now (standing_in self.now).active))) result }
    {
        let Some((key, holder)) = self.transactions.lock_on(xid, keys) else {
            return Ok(());
        };
        let Ok(key) = key.copy() else {
            return Err(AdmitFault::Memory);
        };
        Err(AdmitFault::Law(LawFault::Lock { key, holder }))
    }

    fn is_full(&self) -> bool
        ensures { result ≡ nat_le open_limit (survivor_count (standing_in self.now)) }
    {
        self.transactions.count() >= MAX_CHANGES
    }

    // A change of an open transaction.
    fn make_change(&mut self, change: &Change) -> Result<(), AdmitFault>
        requires open { IsTrue (is_open (standing_in self.old) change.now.xid) }
        ensures { (vec : ℕ) → TakesVector (made_fault (standing_in self.old) change.now) vec (OfChange change.now) self.old
            self.new result }
    {
        if let Err(fault) = self.dict.check_change(change) {
            return Err(AdmitFault::Law(law_fault_of(fault)));
        }
        let Ok(keys) = conflicts(self.alloc, &self.dict, change) else {
            return Err(AdmitFault::Memory);
        };
        self.lock_refusal(change.xid, keys.as_slice())?;
        if self.is_full() {
            return Err(AdmitFault::Law(LawFault::OpenLimit));
        }
        if self
            .transactions
            .touch(self.alloc, change.xid, keys)
            .is_err()
        {
            return Err(AdmitFault::Memory);
        }
        Ok(())
    }

    fn change(&mut self, vec: u8, change: &Change) -> Result<(), AdmitFault>
        ensures { TakesVector (own_fault (standing_in self.old) (OfChange change.now)) vec (OfChange change.now) self.old
            self.new result }
    {
        if self.is_open(change.xid) {
            return self.make_change(change);
        }
        if self.may_have_begun_before() {
            return Ok(());
        }
        Err(AdmitFault::Law(LawFault::NotOpen))
    }

    fn undo(&mut self, xid: Xid) -> Result<(), AdmitFault>
        ensures { (vec : ℕ) → TakesVector (own_fault (standing_in self.old) (OfUndo xid)) vec (OfUndo xid) self.old
            self.new result }
    {
        if !self.is_open(xid) && !self.may_have_begun_before() {
            return Err(AdmitFault::Law(LawFault::NotOpen));
        }
        if self.transactions.nothing_survives(xid) {
            return Err(AdmitFault::Law(LawFault::Nothing));
        }
        self.transactions.undo(xid);
        Ok(())
    }

    fn commit(&mut self, xid: Xid) -> Result<(), AdmitFault>
        ensures { (vec : ℕ) → TakesVector (own_fault (standing_in self.old) (OfCommit xid)) vec (OfCommit xid) self.old
            self.new result }
    {
        if !self.is_open(xid) && !self.may_have_begun_before() {
            return Err(AdmitFault::Law(LawFault::NotOpen));
        }
        if self.scn <= self.commit_scn {
            return Err(AdmitFault::Law(LawFault::Scn));
        }
        self.commit_scn = self.scn;
        self.transactions.close(xid);
        Ok(())
    }

    fn rollback(&mut self, xid: Xid) -> Result<(), AdmitFault>
        ensures { (vec : ℕ) → TakesVector (own_fault (standing_in self.old) (OfRollback xid)) vec (OfRollback xid) self.old
            self.new result }
    {
        if !self.is_open(xid) && !self.may_have_begun_before() {
            return Err(AdmitFault::Law(LawFault::NotOpen));
        }
        self.transactions.close(xid);
        Ok(())
    }

    fn add_table(&mut self, row: &TableRow) -> Result<(), AdmitFault>
        ensures { (vec : ℕ) → TakesVector (own_fault (standing_in self.old) (OfTable row.now)) vec (OfTable row.now) self.old
            self.new result }
    {
        let Ok(row) = row.copy() else {
            return Err(AdmitFault::Memory);
        };
        match self.dict.add(row) {
            Ok(()) => Ok(()),
            Err((fault, _)) => Err(table_refused(fault)),
        }
    }

    // Takes a vector that stands where it may, if there is no reason against it.
    fn take(&mut self, vec: u8, vector: &Vector) -> Result<(), AdmitFault>
        requires before { BeganBefore (record { rec = self.old.rec; vec = vec }) (standing_in self.old).active }
        ensures { TakesVector (own_fault (standing_in self.old) vector.now) vec vector.now self.old self.new result }
    {
        match vector {
            Vector::Start(xid) => self.start(vec, *xid),
            Vector::Change(change) => self.change(vec, change),
            Vector::Undo(xid) => self.undo(*xid),
            Vector::Commit(xid) => self.commit(*xid),
            Vector::Rollback(xid) => self.rollback(*xid),
            Vector::Table(row) => self.add_table(row),
            Vector::DictEnd => {
                self.dict.finish();
                Ok(())
            }
        }
    }

    // Takes a vector of a log of this header, if there is no reason against it.
    fn step(&mut self, head: &Header, vec: u8, vector: &Vector) -> Result<(), AdmitFault>
        requires before { BeganBefore (record { rec = self.old.rec; vec = vec }) (standing_in self.old).active }
        ensures takes { TakesVector (vector_fault head.now (standing_in self.old) vector.now) vec vector.now self.old
            self.new result }
        ensures next { OnOk result (BeganBefore (record { rec = self.new.rec; vec = vec + 1 }) (standing_in self.new).active) }
        ensures same { OnOk result (self.new.rec ≡ self.old.rec) }
    {
        if self.is_misplaced(head, vector) {
            return Err(AdmitFault::Law(LawFault::Dictionary));
        }
        self.take(vec, vector)
    }

    // Takes these vectors, the first of which has this number.
    fn take_all(&mut self, head: &Header, vectors: &[Vector]) -> Result<(), AdmitFault>
        requires size { length vectors.now ≤ 255 }
        requires before { BeganBefore (record { rec = self.old.rec; vec = 1 }) (standing_in self.old).active }
        ensures ready { OnOk result (IsBetweenRecords self.new) }
        ensures same { OnOk result (self.new.rec ≡ self.old.rec) }
        ensures done { OnOk result (standing_in self.new ≡ standing_after_all 1 vectors.now (standing_in self.old)) }
        ensures exact { Judges (vectors_fault head.now 1 vectors.now (standing_in self.old)) result }
        ensures memory { OnWant result (IsTrue (may_want_in head.now 1 vectors.now (standing_in self.old))) }
        ensures left { Leaves (left_by_vectors head.now 1 vectors.now (standing_in self.old)) self.new.dict result }
    {
        let mut rest = vectors;
        let mut vec: u16 = 1;
        while let [vector, others @ ..] = rest {
            self.step(head, vec as u8, vector)?;
            rest = others;
            vec += 1;
        }
        Ok(())
    }

    /// An equal one, which owns memory of its own.
    #[tactic(auto, using(crate::proofs::CopyLaws::began_too))]
    pub fn copy(&self) -> Result<State, NoMemory>
        requires { IsBetweenRecords self.now }
        ensures ready { IfOk result (λ copy. IsBetweenRecords copy) }
        ensures same { IfOk result (λ copy. standing_in copy ≡ standing_in self.now) }
    {
        let dict = self.dict.copy()?;
        let transactions = self.transactions.copy(self.alloc)?;
        Ok(State {
            alloc: self.alloc,
            first: self.first,
            known: self.known,
            rec: self.rec,
            head: self.head,
            scn: self.scn,
            commit_scn: self.commit_scn,
            dict,
            transactions,
        })
    }

    /// Takes the next record, if there is no reason against it.
    pub fn admit(&mut self, head: &Header, rec: &RedoRec) -> Result<(), AdmitFault>
        requires room { self.old.rec + 1 < 2 ^ 64 }
        requires ready { IsBetweenRecords self.old }
        ensures ready { OnOk result (IsBetweenRecords self.new) }
        ensures counted { OnOk result (self.new.rec ≡ self.old.rec + 1) }
        ensures admitted { OnOk result (standing_in self.new ≡ record_after (head.now, rec.now) (standing_in self.old)) }
        ensures exact { Judges (record_fault (standing_in self.old) (head.now, rec.now)) result }
        ensures memory { OnWant result (IsTrue (wants_memory (standing_in self.old) (head.now, rec.now))) }
        ensures left { Leaves (dictionary_left (standing_in self.old) (head.now, rec.now)) self.new.dict result }
    {
        if let Some(fault) = self.whole_refusal(head, rec) {
            return Err(AdmitFault::Law(fault));
        }
        self.rec += 1;
        self.head = Some(*head);
        self.scn = rec.scn;
        self.take_all(head, rec.vectors.items())
    }
}
