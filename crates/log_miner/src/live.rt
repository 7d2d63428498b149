//! An open transaction, as a miner keeps it.
ghost use Rattle.std.specs.Prelude.{◌≡◌, OnOk};
ghost use Rattle.log_miner.specs.Live.{started, one_more, one_fewer};
ghost use Rattle.log_miner.specs.MinedLines.{latest};

use redo_vec::Change;
use rl_value::{NoMemory, Pos, Scn, Xid};
use std::alloc::Global;
use std::marker::Model;

/// An open transaction: where it starts, and its surviving changes. In plain mode these are positions alone.
#[derive(Drop)]
pub(crate) struct Live {
    start: Pos,
    scn: Scn,
    xid: Xid,
    places: Vec<Pos>,
    changes: Vec<(Scn, (Pos, Change))>,
}

impl Model for Live {
    ghost use Rattle.log_miner.specs.Live.{Live as Shown};

    ghost Value = { Shown };

    ghost view = { λ l. record {
      start = l.start;
      scn = l.scn;
      xid = l.xid;
      places = l.places.items;
      changes = l.changes.items;
    } };
}

impl Live {
    /// A transaction that starts here. It takes no memory yet.
    pub(crate) fn start(alloc: Global, scn: Scn, at: Pos, xid: Xid) -> Live
        ensures { result ≡ started scn at xid }
    {
        Live {
            start: at,
            scn,
            xid,
            places: Vec::new(alloc),
            changes: Vec::new(alloc),
        }
    }

    pub(crate) fn xid(&self) -> Xid
        ensures { result ≡ self.now.xid }
    {
        self.xid
    }

    pub(crate) fn begun(&self) -> Pos
        ensures { result ≡ self.now.start }
    {
        self.start
    }

    pub(crate) fn scn(&self) -> Scn
        ensures { result ≡ self.now.scn }
    {
        self.scn
    }

    pub(crate) fn changes(&self) -> &[(Scn, (Pos, Change))]
        ensures { result.now ≡ self.now.changes }
    {
        self.changes.as_slice()
    }

    /// The position of the latest surviving change.
    pub(crate) fn latest(&self) -> Option<Pos>
        ensures { result ≡ latest self.now.places }
    {
        self.places.last().copied()
    }

    /// One more change survives.
    pub(crate) fn add(
        &mut self,
        committed: bool,
        scn: Scn,
        at: Pos,
        change: &Change,
    ) -> Result<(), NoMemory>
        ensures { OnOk result (self.new ≡ one_more committed scn at change.now self.old) }
    {
        if committed {
            let copy = change.copy()?;
            match self.changes.push((scn, (at, copy))) {
                Ok(()) => Ok(()),
                Err(_) => Err(NoMemory),
            }
        } else {
            match self.places.push(at) {
                Ok(()) => Ok(()),
                Err(_) => Err(NoMemory),
            }
        }
    }

    /// The latest surviving change is taken back.
    pub(crate) fn take_back(&mut self, committed: bool)
        ensures { self.new ≡ one_fewer committed self.old }
    {
        if committed {
            let _ = self.changes.pop();
        } else {
            let _ = self.places.pop();
        }
    }
}
