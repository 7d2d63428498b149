//! The lives transactions of a miner, in order of START.
ghost use Rattle.std.specs.Prelude.{◌≡◌, ◌++◌, ◌∷◌, [], OnOk};
ghost use Rattle.redo_spec.specs.History.{same_xid};
ghost use Rattle.log_miner.specs.Live.{started, if_of, with_live, one_more, one_fewer, live_of, live_but, live_after};
ghost use Rattle.log_miner.specs.Mining.{latest_of, taken_back};

use crate::live::Live;
use redo_vec::{Change, Vector};
use rl_value::{NoMemory, Pos, Scn, Xid};
use std::alloc::Global;

pub(crate) fn is_of(live: &Live, xid: Xid) -> bool
    ensures { result ≡ same_xid live.now.xid xid }
{
    let own = live.xid();
    own.usn == xid.usn && own.slot == xid.slot && own.sqn == xid.sqn
}

fn start(alloc: Global, lives: &mut Vec<Live>, scn: Scn, at: Pos, xid: Xid) -> Result<(), NoMemory>
    ensures { OnOk result (lives.new.items ≡ lives.old.items ++ started scn at xid ∷ []) }
{
    match lives.push(Live::start(alloc, scn, at, xid)) {
        Ok(()) => Ok(()),
        Err(_) => Err(NoMemory),
    }
}

fn change_one(
    live: &mut Live,
    committed: bool,
    scn: Scn,
    at: Pos,
    change: &Change,
) -> Result<(), NoMemory>
    ensures { OnOk result (live.new ≡ if_of change.now.xid (one_more committed scn at change.now) live.old) }
{
    if is_of(live, change.xid) {
        live.add(committed, scn, at, change)
    } else {
        Ok(())
    }
}

fn undo_one(live: &mut Live, committed: bool, xid: Xid)
    ensures { live.new ≡ if_of xid (one_fewer committed) live.old }
{
    if is_of(live, xid) {
        live.take_back(committed);
    }
}

fn change(
    lives: &mut Vec<Live>,
    committed: bool,
    scn: Scn,
    at: Pos,
    change: &Change,
) -> Result<(), NoMemory>
    ensures { OnOk result (lives.new.items
        ≡ with_live (one_more committed scn at change.now) change.now.xid lives.old.items) }
{
    for live in lives.iter_mut() {
        change_one(live, committed, scn, at, change)?;
    }
    Ok(())
}

fn undo(lives: &mut Vec<Live>, committed: bool, xid: Xid)
    ensures { lives.new.items ≡ with_live (one_fewer committed) xid lives.old.items }
{
    for live in lives.iter_mut() {
        undo_one(live, committed, xid);
    }
}

fn end(lives: &mut Vec<Live>, xid: Xid)
    ensures { lives.new.items ≡ live_but xid lives.old.items }
{
    lives.retain(|live| !is_of(live, xid));
}

/// Takes one more vector at this position in a record of this SCN.
pub(crate) fn take(
    alloc: Global,
    lives: &mut Vec<Live>,
    committed: bool,
    scn: Scn,
    at: Pos,
    vector: &Vector,
) -> Result<(), NoMemory>
    ensures { OnOk result (lives.new.items ≡ live_after committed scn at vector.now lives.old.items) }
{
    match vector {
        Vector::Start(xid) => start(alloc, lives, scn, at, *xid),
        Vector::Change(made) => change(lives, committed, scn, at, made),
        Vector::Undo(xid) => {
            undo(lives, committed, *xid);
            Ok(())
        }
        Vector::Commit(xid) | Vector::Rollback(xid) => {
            end(lives, *xid);
            Ok(())
        }
        Vector::Table(_) | Vector::DictEnd => Ok(()),
    }
}

fn latest_of(lives: &[Live], xid: Xid) -> Option<Pos>
    ensures { result ≡ latest_of (live_of xid lives.now) }
{
    let mut rest = lives;
    while let [live, others @ ..] = rest {
        if is_of(live, xid) {
            return live.latest();
        }
        rest = others;
    }
    None
}

/// The position of the change that a vector takes back.
pub(crate) fn taken_back(lives: &[Live], vector: &Vector) -> Option<Pos>
    ensures { result ≡ taken_back lives.now vector.now }
{
    match vector {
        Vector::Undo(xid) => latest_of(lives, *xid),
        _ => None,
    }
}
