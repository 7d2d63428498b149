//! The law of the redo: which record may follow those before it, and which is the first that may not.
//!
//! A record is tested as a whole first (the chain of logs, its SCN, COMMIT and ROLLBACK alone), and then vector by vector;
//! the first cause counts. No change may touch a key that a surviving change of another open transaction touches.
ghost use Rattle.std.specs.Prelude.{◌≡◌, ◌+◌, ◌<◌, ◌^◌, OnOk, IfOk, IfErr, IsTrue};
ghost use Rattle.redo_spec.specs.Standing.{Standing, record_after};
ghost use Rattle.redo_spec.specs.Law.{record_fault, dictionary_left};
ghost use Rattle.redo_law.specs.Calls.{standing_of, Judges, Leaves, OnWant, wants_memory, start_rec};

use crate::fault::AdmitFault;
use crate::open_transactions::OpenTransactions;
use crate::start::LawStart;
use crate::state::State;
use redo_dict::Dict;
use redo_spec::Header;
use redo_vec::RedoRec;
use rl_value::{NoMemory, Xid};
use std::alloc::Global;
use std::marker::Model;

/// What the records so far leave for judging the next one.
#[derive(Drop)]
pub struct Law {
    state: State,
}

impl Model for Law {
    ghost use Rattle.redo_spec.specs.Standing.{Standing};

    ghost Value = { Standing };

    ghost use Rattle.redo_law.specs.States.{standing_in, IsBetweenRecords};

    ghost view = { λ l. standing_in l.state };

    ghost invariant = { λ l. IsBetweenRecords l.state };
}

impl Law {
    /// The law of the records behind this start. Where memory is refused, the start comes back.
    pub fn new(alloc: Global, start: LawStart) -> Result<Law, (NoMemory, LawStart)>
        ensures begun { IfOk result (λ law. law ≡ standing_of start) }
        ensures back { IfErr result (λ refused. refused.1 ≡ start) }
    {
        let transactions = OpenTransactions::new(alloc);
        Ok(Law {
            state: State {
                alloc,
                first: start.first,
                known: start.known,
                rec: start.rec,
                head: start.head,
                scn: start.scn,
                commit_scn: start.commit_scn,
                dict: start.dict,
                transactions,
            },
        })
    }

    /// An equal one, which owns memory of its own.
    pub fn copy(&self) -> Result<Law, NoMemory>
        ensures equal { IfOk result (λ copy. copy ≡ self.now) }
    {
        let state = self.state.copy()?;
        Ok(Law { state })
    }

    /// Takes the next record of the redo, in a log of this header. After a refusal nothing is said of the standing but the
    /// dictionary: that of the vectors before the refused one, none of them where the record is refused as a whole. After want
    /// of memory nothing is said of that either.
    pub fn admit(&mut self, head: &Header, rec: &RedoRec) -> Result<(), AdmitFault>
        requires room { self.old.rec + 1 < 2 ^ 64 }
        ensures admitted { OnOk result (self.new ≡ record_after (head.now, rec.now) self.old) }
        ensures counted { OnOk result (self.new.rec ≡ self.old.rec + 1) }
        ensures exact { Judges (record_fault self.old (head.now, rec.now)) result }
        ensures memory { OnWant result (IsTrue (wants_memory self.old (head.now, rec.now))) }
        ensures left { Leaves (dictionary_left self.old (head.now, rec.now)) self.new.dictionary result }
    {
        if let Err(fault) = self.state.admit(head, rec) {
            // Nothing is said of the transactions any more, and without them none began later than this record.
            self.state.transactions.clear();
            return Err(fault);
        }
        Ok(())
    }

    /// The record of the START of the open transaction of this id. None exactly where none is open.
    pub fn start_of(&self, xid: Xid) -> Option<u64>
        ensures value { result ≡ start_rec xid self.now.active }
    {
        self.state.transactions.start_of(xid)
    }

    /// The dictionary that the records so far leave.
    pub fn dict(&self) -> &Dict
        ensures same { result.now ≡ self.now.dictionary }
    {
        &self.state.dict
    }

    /// Gives up the dictionary. It takes no memory.
    pub fn into_dict(self) -> Dict
        ensures same { result ≡ self.dictionary }
    {
        self.state.dict
    }
}
