//! The seven kinds of atomic step on the table of a lock, each of one seat.
//!
//! The load, the claiming compare and exchange, the lift, the lowering, the opening store, split and join. Each keeps
//! the rule (proofs/Keeps.antt) and tells its seat what specs/Rule.antt says. The lift and the lowering move the
//! slot's value and change no view; split and join load the word.
ghost use Rattle.std.specs.Prelude.{◌≡◌, ◌+◌, ◌-◌, ◌*◌, ◌/◌, ◌%◌, ◌^◌, ◌<◌, ◌≤◌, ◌∷◌, [], true, false, None, Some};
ghost use Rattle.std.specs.Bool.{OnTrue, OnFalse};
ghost use Rattle.tag_lock.specs.Rule.{IsSeatOf, IsClaimed, CanRelease, cut_left, cut_right, joined};

use crate::meaning::Tagged;
use crate::rule::{RuledTable, TableSeat};
use crate::tells::{Claimed, CutView, JoinedViews, Looked, Released};

/// The load: the seat has seen the rank in the word. It answers the word.
pub fn look<V: Tagged>(table: &RuledTable<V>, seat: &mut TableSeat<V>) -> u64
    requires { IsSeatOf table.now.shared.table_id seat.old.table_id }
    ensures same { seat.new.table_id ≡ seat.old.table_id }
    ensures not_below { seat.old.me.0.seen ≤ result / 2 }
    ensures view { seat.new.me ≡ (record seat.old.me.0 { seen = result / 2 }, seat.old.me.1) }
{
    table.shared.load::<Looked>(seat, 0)
}

/// The claiming compare and exchange, from this word to the next. It answers whether the seat has the slot now.
pub fn claim<V: Tagged>(table: &RuledTable<V>, seat: &mut TableSeat<V>, word: u64) -> bool
    requires table { IsSeatOf table.now.shared.table_id seat.old.table_id }
    requires part { 0 < seat.old.me.0.parts }
    requires even { word % 2 ≡ 0 }
    ensures same { seat.new.table_id ≡ seat.old.table_id }
    ensures hit { OnTrue result (IsClaimed V.stands V.height seat.old.me seat.new.me) }
    ensures miss { OnFalse result (seat.new.me ≡ seat.old.me) }
{
    table
        .shared
        .compare_exchange::<Claimed<V>>(seat, 0, word, word + 1)
        == word
}

/// The lift: the value comes out of the slot that the seat has.
pub fn lift<V: Tagged>(table: &RuledTable<V>, seat: &mut TableSeat<V>) -> V
    requires table { IsSeatOf table.now.shared.table_id seat.old.table_id }
    requires full { (x : V) × (seat.old.me.1 ≡ (0, Some x) ∷ []) }
    ensures same { seat.new.table_id ≡ seat.old.table_id }
    ensures value { seat.old.me.1 ≡ (0, Some result) ∷ [] }
    ensures view { seat.new.me ≡ (seat.old.me.0, (0, None) ∷ []) }
{
    let slot = table.shared.exchange(seat, 0, None);
    let Some(value) = slot else { unreachable!() };
    value
}

/// The lowering: the value goes into the slot that the seat has.
pub fn lower<V: Tagged>(table: &RuledTable<V>, seat: &mut TableSeat<V>, value: V)
    requires table { IsSeatOf table.now.shared.table_id seat.old.table_id }
    requires empty { seat.old.me.1 ≡ (0, None) ∷ [] }
    ensures same { seat.new.table_id ≡ seat.old.table_id }
    ensures view { seat.new.me ≡ (seat.old.me.0, (0, Some value) ∷ []) }
{
    let slot = table.shared.exchange(seat, 0, Some(value));
    let None = slot else { unreachable!() };
}

/// The opening store, of the rank of the value that the seat has put home. The seat gives the slot back.
pub fn release<V: Tagged>(table: &RuledTable<V>, seat: &mut TableSeat<V>, rank: u64)
    requires table { IsSeatOf table.now.shared.table_id seat.old.table_id }
    requires value { CanRelease V.stands V.height seat.old.me rank }
    requires low { rank < 2 ^ 63 }
    ensures same { seat.new.table_id ≡ seat.old.table_id }
    ensures view { seat.new.me ≡ (record seat.old.me.0 { holding = false; seen = rank }, []) }
{
    table.shared.store::<Released>(seat, 0, 2 * rank);
}

/// Split: one part goes to a new seat.
pub fn split_seat<V: Tagged>(table: &RuledTable<V>, seat: &mut TableSeat<V>) -> TableSeat<V>
    requires table { IsSeatOf table.now.shared.table_id seat.old.table_id }
    requires two { 2 ≤ seat.old.me.0.parts }
    ensures kept { (seat.new.table_id ≡ seat.old.table_id) × (seat.new.me ≡ (cut_left seat.old.me.0, seat.old.me.1)) }
    ensures given { (result.table_id ≡ seat.old.table_id) × (result.me ≡ (cut_right seat.old.me.0, [])) }
{
    table.shared.split_seat::<CutView>(seat)
}

/// Join: the parts of the other seat, which is idle, come to this one.
pub fn join_seats<V: Tagged>(table: &RuledTable<V>, seat: &mut TableSeat<V>, other: TableSeat<V>)
    requires table { IsSeatOf table.now.shared.table_id seat.old.table_id }
    requires part { 0 < seat.old.me.0.parts }
    requires other { (other.table_id ≡ seat.old.table_id) × (other.me.0.holding ≡ false) × (other.me.1 ≡ []) }
    ensures { (seat.new.table_id ≡ seat.old.table_id) × (seat.new.me ≡ (joined seat.old.me.0 other.me.0, seat.old.me.1)) }
{
    table.shared.join_seat::<JoinedViews>(seat, other);
}
