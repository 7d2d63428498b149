//! The open transactions, kept so that each test finds what it asks for.
//!
//! Each stands by the position of its START, so that those of a standing come in order. An id leads to its START, and each
//! key that is touched to its holder, so that no test walks over the open transactions or their changes. An end walks over
//! its own transaction's.
ghost use Rattle.std.specs.Prelude.{◌≡◌, ◌++◌, ◌∷◌, [], ◌<◌, ◌^◌, length, OnOk, IfOk, Option, None, ◌&&◌};
ghost use Rattle.std.specs.BTreeMap as tree;
ghost use Rattle.rl_value.specs.Order.{key_cmp};
ghost use Rattle.redo_spec.specs.Locks.{least};
ghost use Rattle.redo_spec.specs.Standing.{with_open, without_open, open_txn_after_change, open_txn_after_undo};
ghost use Rattle.std.specs.List.{list_any};
ghost use Rattle.std.specs.Option.{option_map};
ghost use Rattle.redo_law.specs.Shown.{shown_pair};
ghost use Rattle.rl_value.specs.Outcome.{is_empty};
ghost use Rattle.redo_spec.specs.History.{same_xid};
ghost use Rattle.redo_law.specs.Calls.{open_of, start_rec};
ghost use Rattle.redo_law.specs.Held.{hold_after_take, contended_keys};
ghost use Rattle.redo_law.specs.OpenTransactions.{BeganBefore, GivesBack, change_count};

use crate::copies::{copied_locks, copied_txns, copied_xids};
use crate::hold::Hold;
use crate::locks::{free_changes, free_keys_of, least_blocked, take_keys};
use crate::survivors::{Open, Survivors, TouchedKeys};
use rl_value::{Key, NoMemory, Pos, Xid};
use std::alloc::Global;
use std::collections::BTreeMap;
use std::marker::Model;

/// The open transactions by their START, the START of each id, the holder of each key, and how many surviving changes
/// there are.
#[derive(Drop)]
pub struct OpenTransactions {
    xids: BTreeMap<Xid, Pos>,
    txns: BTreeMap<Pos, Open>,
    locks: BTreeMap<Key, Hold>,
    survivors: u64,
}

impl Model for OpenTransactions {
    ghost use Rattle.std.specs.Prelude.{List};
    ghost use Rattle.redo_spec.specs.Standing.{OpenTxn};

    ghost Value = { List OpenTxn };

    ghost use Rattle.redo_law.specs.Consistency.{txns_by_start, IsConsistent};

    ghost view = { txns_by_start };

    ghost invariant = { IsConsistent };
}

impl OpenTransactions {
    pub fn new(alloc: Global) -> OpenTransactions
        ensures { result ≡ [] }
    {
        OpenTransactions {
            xids: BTreeMap::new(alloc),
            txns: BTreeMap::new(alloc),
            locks: BTreeMap::new(alloc),
            survivors: 0,
        }
    }

    /// A transaction of this id is open.
    pub fn is_open(&self, xid: Xid) -> bool
        ensures { result ≡ list_any (λ t. same_xid t.xid xid) self.now }
    {
        self.xids.contains_key(&xid)
    }

    /// The record of the START of the open transaction of this id.
    pub fn start_of(&self, xid: Xid) -> Option<u64>
        ensures { result ≡ start_rec xid self.now }
    {
        match self.xids.get(&xid) {
            None => None,
            Some(start) => Some(start.rec),
        }
    }

    /// The open transaction of this id has no surviving change.
    pub fn nothing_survives(&self, xid: Xid) -> bool
        ensures { result ≡ list_any (λ t. same_xid t.xid xid && is_empty t.keys) self.now }
    {
        let Some(start) = self.xids.get(&xid) else {
            return false;
        };
        let Some(open) = self.txns.get(start) else {
            return false;
        };
        has_none(open.keys.items())
    }

    /// How many surviving changes there are.
    pub fn count(&self) -> u64
        ensures { result ≡ change_count self.now }
    {
        self.survivors
    }

    /// The least of these keys that another open transaction than this one holds, with its holder.
    pub fn lock_on<'k>(&self, xid: Xid, keys: &'k [Key]) -> Option<(&'k Key, Xid)>
        ensures { option_map shown_pair result ≡ least (contended_keys xid keys.now self.now) }
    {
        least_blocked(&self.locks, xid, keys)
    }

    /// An equal one, which owns memory of its own.
    #[tactic(auto, using(crate::proofs::CopyLaws::copied_consistent))]
    pub fn copy(&self, alloc: Global) -> Result<OpenTransactions, NoMemory>
        ensures { IfOk result (λ copy. copy ≡ self.now) }
    {
        let xids = copied_xids(alloc, &self.xids)?;
        let txns = copied_txns(alloc, &self.txns)?;
        let locks = copied_locks(alloc, &self.locks)?;
        Ok(OpenTransactions {
            xids,
            txns,
            locks,
            survivors: self.survivors,
        })
    }

    /// Drops all transactions.
    pub fn clear(&mut self)
        ensures { self.new ≡ [] }
    {
        self.xids.clear();
        self.txns.clear();
        self.locks.clear();
        self.survivors = 0;
    }

    /// One more transaction is open. Where memory is refused, nothing is said of them any more.
    pub fn start(&mut self, alloc: Global, at: Pos, xid: Xid) -> Result<(), NoMemory>
        requires before { BeganBefore at self.old }
        requires fresh { open_of xid self.old ≡ None }
        ensures { OnOk result (self.new ≡ self.old ++ record { start = at; xid = xid; keys = [] } ∷ []) }
    {
        let open = Open {
            xid,
            keys: Survivors::new(alloc),
        };
        if self.xids.insert(xid, at).is_err() {
            return Err(NoMemory);
        }
        if self.txns.insert(at, open).is_err() {
            // The id has no transaction, so nothing is kept.
            *self = OpenTransactions::new(alloc);
            return Err(NoMemory);
        }
        Ok(())
    }

    /// The transaction of this id made a change that touches these keys, if it is open. Where memory is refused,
    /// nothing is said of them any more.
    pub fn touch(&mut self, alloc: Global, xid: Xid, keys: Vec<Key>) -> Result<(), NoMemory>
        requires free { least (contended_keys xid keys.items self.old) ≡ None }
        requires room { change_count self.old < 2 ^ 19 }
        ensures { OnOk result (self.new ≡ with_open (open_txn_after_change keys.items) xid self.old) }
    {
        let Some(start) = self.xids.get(&xid) else {
            return Ok(());
        };
        let start = *start;
        match self.txns.get_mut(&start) {
            None => Ok(()),
            Some(open) => {
                if take(open, &mut self.locks, keys).is_err() {
                    // Some of the keys may be taken already, so nothing is kept.
                    *self = OpenTransactions::new(alloc);
                    return Err(NoMemory);
                }
                self.survivors += 1;
                Ok(())
            }
        }
    }

    /// The latest surviving change of the transaction of this id is taken back, if it is open and has one.
    pub fn undo(&mut self, xid: Xid)
        ensures { self.new ≡ with_open open_txn_after_undo xid self.old }
    {
        let Some(start) = self.xids.get(&xid) else {
            return;
        };
        let start = *start;
        let Some(open) = self.txns.get_mut(&start) else {
            return;
        };
        let count = give_back(open, &mut self.locks);
        self.survivors -= count;
    }

    /// The transaction of this id ends, if it is open.
    pub fn close(&mut self, xid: Xid)
        ensures { self.new ≡ without_open xid self.old }
    {
        let Some(start) = self.xids.remove(&xid) else {
            return;
        };
        let Some(open) = self.txns.remove(&start) else {
            return;
        };
        free_changes(&mut self.locks, open.keys.items());
        self.survivors -= open.keys.items().len() as u64;
    }
}

fn has_none(changes: &[TouchedKeys]) -> bool
    ensures { result ≡ is_empty changes.now }
{
    match changes {
        [] => true,
        [_, ..] => false,
    }
}

// The transaction makes a change that touches these keys, and takes those that are free.
fn take(txn: &mut Open, locks: &mut BTreeMap<Key, Hold>, keys: Vec<Key>) -> Result<(), NoMemory>
    ensures keys { OnOk result (txn.new ≡ record txn.old { keys = txn.old.keys ++ keys.items ∷ [] }) }
    ensures locks { OnOk result ((q : Key) → tree.get key_cmp locks.new q ≡
        hold_after_take (tree.get key_cmp locks.old) keys.items
        (record { holder = txn.old.xid; change = length txn.old.keys }) q) }
{
    let hold = Hold {
        holder: txn.xid,
        change: txn.keys.items().len(),
    };
    take_keys(locks, keys.as_slice(), hold)?;
    txn.keys.push(TouchedKeys::of(keys))
}

// Takes the latest change back, and frees the keys that it took. It says how many changes that are.
fn give_back(txn: &mut Open, locks: &mut BTreeMap<Key, Hold>) -> u64
    ensures { GivesBack txn.old txn.new (tree.get key_cmp locks.old) (tree.get key_cmp locks.new) result }
{
    let Some(keys) = txn.keys.pop() else {
        return 0;
    };
    let from = Hold {
        holder: txn.xid,
        change: txn.keys.items().len(),
    };
    free_keys_of(locks, keys.items(), from);
    1
}
