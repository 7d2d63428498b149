//! The surviving changes of the open transactions, by their ids.
//!
//! They are moved out of the records that bring them, and never copied. An UNDO takes the latest one back, and a COMMIT or a
//! ROLLBACK takes all of its transaction out.
ghost use Rattle.std.specs.Prelude.{◌≡◌, ◌∷◌, ◌++◌, [], IfOk, OnOk, length, take, ◌-◌};
ghost use Rattle.primary.specs.Progress.{live_after, commit_of, with_opened, without_closed, with_changes, changes_of};

use redo_vec::{Change, Vector};
use rl_value::{NoMemory, Pos, Xid};
use std::alloc::Global;
use std::collections::BTreeMap;
use std::marker::Model;

/// Changes with their positions, the oldest first.
#[derive(Drop)]
pub struct Survivors {
    changes: Vec<(Pos, Change)>,
}

impl Model for Survivors {
    ghost use Rattle.std.specs.Prelude.{List};
    ghost use Rattle.redo_spec.specs.History.{Placed};

    ghost Value = { List Placed };

    ghost view = { λ s. s.changes.items };
}

impl Survivors {
    /// No change. It takes no memory yet.
    pub fn new(alloc: Global) -> Survivors
        ensures empty { result ≡ [] }
    {
        Survivors {
            changes: Vec::new(alloc),
        }
    }

    fn add(&mut self, at: Pos, change: Change) -> Result<(), NoMemory>
        ensures added { OnOk result (self.new ≡ self.old ++ (at, change) ∷ []) }
    {
        match self.changes.push((at, change)) {
            Ok(()) => Ok(()),
            Err(_) => Err(NoMemory),
        }
    }

    fn take_back(&mut self)
        ensures taken { self.new ≡ take (length self.old - 1) self.old }
    {
        let _ = self.changes.pop();
    }

    pub fn into_items(self) -> Vec<(Pos, Change)>
        ensures same { result.items ≡ self }
    {
        self.changes
    }
}

/// The surviving changes of each open transaction.
#[derive(Drop)]
pub struct LiveChanges {
    alloc: Global,
    by_xid: BTreeMap<Xid, Survivors>,
}

impl Model for LiveChanges {
    ghost use Rattle.primary.specs.Progress.{OpenChanges};

    ghost Value = { OpenChanges };

    ghost view = { λ l. l.by_xid.entries };
}

impl LiveChanges {
    /// No open transaction. It takes no memory yet.
    pub fn new(alloc: Global) -> LiveChanges
        ensures empty { result ≡ [] }
    {
        LiveChanges {
            alloc,
            by_xid: BTreeMap::new(alloc),
        }
    }

    fn start(&mut self, xid: Xid) -> Result<(), NoMemory>
        ensures opened { OnOk result (self.new ≡ with_opened xid self.old) }
    {
        match self.by_xid.insert(xid, Survivors::new(self.alloc)) {
            Ok(_) => Ok(()),
            Err(_) => Err(NoMemory),
        }
    }

    fn change(&mut self, at: Pos, change: Change) -> Result<(), NoMemory>
        ensures changed { OnOk result (self.new ≡ with_changes change.xid (λ ps. ps ++ (at, change) ∷ []) self.old
            (changes_of change.xid self.old)) }
    {
        match self.by_xid.get_mut(&change.xid) {
            None => Ok(()),
            Some(survivors) => survivors.add(at, change),
        }
    }

    fn undo(&mut self, xid: Xid)
        ensures undone { self.new ≡ with_changes xid (λ ps. take (length ps - 1) ps) self.old (changes_of xid self.old) }
    {
        match self.by_xid.get_mut(&xid) {
            None => {}
            Some(survivors) => survivors.take_back(),
        }
    }

    fn end(&mut self, xid: Xid) -> Option<Survivors>
        ensures closed { self.new ≡ without_closed xid self.old }
        ensures was { result ≡ changes_of xid self.old }
    {
        self.by_xid.remove(&xid)
    }

    /// Takes one more vector at this position. It gives the changes that a COMMIT commits: none, where the transaction is not
    /// known but by its COMMIT.
    pub fn take(&mut self, at: Pos, vector: Vector) -> Result<Option<Survivors>, NoMemory>
        ensures live { OnOk result (self.new ≡ live_after at vector self.old) }
        ensures commit { IfOk result (λ commit. commit ≡ commit_of vector self.old) }
    {
        match vector {
            Vector::Start(xid) => {
                self.start(xid)?;
                Ok(None)
            }
            Vector::Change(change) => {
                self.change(at, change)?;
                Ok(None)
            }
            Vector::Undo(xid) => {
                self.undo(xid);
                Ok(None)
            }
            Vector::Commit(xid) => {
                let ended = self.end(xid);
                Ok(Some(ended.unwrap_or(Survivors::new(self.alloc))))
            }
            Vector::Rollback(xid) => {
                let _ = self.end(xid);
                Ok(None)
            }
            Vector::Table(_) | Vector::DictEnd => Ok(None),
        }
    }
}
