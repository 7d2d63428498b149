//! Which change records are a chunk: 1 to 64 of one transaction, each at a later position than the one before.
ghost use Rattle.std.specs.Prelude.{◌≡◌, map};
ghost use Rattle.redo_spec.specs.History.{same_xid};
ghost use Rattle.redo_spec.specs.Watermark.{is_before};
ghost use Rattle.lcr.specs.Chunks.{placed, are_of_xid, rise_behind, is_chunk};

use crate::change_record::Lcr;
use rl_value::{Pos, Xid};

/// The most change records of a chunk.
pub const MAX_CHUNK: usize = 64;

fn is_same_xid(one: Xid, other: Xid) -> bool
    ensures { result ≡ same_xid one other }
{
    one.usn == other.usn && one.slot == other.slot && one.sqn == other.sqn
}

fn is_before(one: Pos, other: Pos) -> bool
    ensures { result ≡ is_before one other }
{
    one.rec < other.rec || (one.rec == other.rec && one.vec < other.vec)
}

fn are_of_xid(xid: Xid, items: &[Lcr]) -> bool
    ensures { result ≡ are_of_xid xid (map placed items.now) }
{
    let mut rest = items;
    while let [lcr, others @ ..] = rest {
        if !is_same_xid(lcr.change.xid, xid) {
            return false;
        }
        rest = others;
    }
    true
}

fn rise_behind(at: Pos, items: &[Lcr]) -> bool
    ensures { result ≡ rise_behind at (map placed items.now) }
{
    let mut last = at;
    let mut rest = items;
    while let [lcr, others @ ..] = rest {
        if !is_before(last, lcr.pos) {
            return false;
        }
        last = lcr.pos;
        rest = others;
    }
    true
}

/// Whether these change records are a chunk.
#[tactic(auto, using(crate::proofs::Counting::placed_count))]
pub fn is_chunk(items: &[Lcr]) -> bool
    ensures exact { result ≡ is_chunk (map placed items.now) }
{
    match items {
        [] => false,
        [first, others @ ..] => {
            others.len() < MAX_CHUNK
                && are_of_xid(first.change.xid, others)
                && rise_behind(first.pos, others)
        }
    }
}
