//! The lock: gives out its seats, lends its value and takes the value back.
//!
//! The base is a table of one word and one slot (src/rule.rt). A thread that finds the value held looks again for a
//! short while, and then sleeps on the word. The count of sleepers saves the wake-up call where nobody sleeps; no
//! clause rests on it.
ghost use Rattle.std.specs.Prelude.{◌≡◌, ◌+◌, ◌-◌, ◌^◌, ◌<◌, ◌≤◌, false, max, IfOk, IfErr};
ghost use Rattle.tag_lock.specs.Rule.{IsSeatOf};
ghost use Rattle.tag_lock.specs.Token.{StandsFor};

use crate::guard::Held;
use crate::meaning::{Names, Tagged};
use crate::origin::{Named, Origin, Started};
use crate::rule::{About, RuledTable, TableSeat};
use crate::steps::{claim, join_seats, lift, look, lower, release, split_seat};
use crate::token::Seat;
use atomic_table::{Refused, Table};
use rl_value::NoMemory;
use std::alloc::{AllocFailed, Global};
use std::hint;
use std::marker::Model;
use std::sync::Wait;
use std::sync::atomic::{AtomicU64, Ordering};

/// How often a thread looks at a value that is held before it sleeps.
const LOOKS: u32 = 100;

/// A value that threads take in turn. To a contract it is which lock it is.
#[derive(Drop)]
pub struct TagLock<V: Tagged> {
    table: RuledTable<V>,
    sleepers: AtomicU64,
}

impl<V: Tagged> Model for TagLock<V> {
    ghost use Rattle.std.specs.Prelude.{◌≡◌};
    ghost use Rattle.atomic_table.specs.Seated.{table_id_coded};
    ghost use Rattle.tag_lock.specs.Token.{LockId};

    ghost Value = { LockId };

    ghost coded = { table_id_coded };

    ghost view = { λ l. l.table.shared.table_id };

    ghost invariant = { λ l. (l.table.shared.table_id.words ≡ 1) × (l.table.shared.table_id.slots ≡ 1) };
}

impl<V: Tagged> TagLock<V> {
    /// A lock round the value, with the seat that has all 64 parts. Its tag is the one that the value names, and its
    /// start count the value's count of faults. At `Err` there was no memory, and the value comes back.
    pub fn new(alloc: Global, value: V) -> Result<(TagLock<V>, Seat<V>), V>
    where
        V: Names,
        requires stands { V.stands (V.names value) (V.faults value) value }
        requires low { V.height value < 2 ^ 63 }
        ensures lock { IfOk result (λ made. made.1.lock ≡ made.0) }
        ensures tag { IfOk result (λ made. made.1.tag ≡ Some (V.names value)) }
        ensures start { IfOk result (λ made. made.1.start ≡ V.faults value) }
        ensures parts { IfOk result (λ made. made.1.parts ≡ 64) }
        ensures seen { IfOk result (λ made. made.1.seen ≡ V.height value) }
        ensures back { IfErr result (λ back. back ≡ value) }
    {
        let about = (
            Origin::of::<V, Named>(&value),
            Origin::of::<V, Started>(&value),
            value.rank(),
        );
        TagLock::told(alloc, value, about)
    }

    /// The same, but the tag is the one that `like` has, a seat of another lock of the run.
    pub fn beside<U: Tagged<Tag = V::Tag>>(
        alloc: Global,
        value: V,
        like: &Seat<U>,
    ) -> Result<(TagLock<V>, Seat<V>), V>
        requires stands { StandsFor V.stands like.now.tag (V.faults value) value }
        requires low { V.height value < 2 ^ 63 }
        ensures lock { IfOk result (λ made. made.1.lock ≡ made.0) }
        ensures tag { IfOk result (λ made. made.1.tag ≡ like.now.tag) }
        ensures start { IfOk result (λ made. made.1.start ≡ V.faults value) }
        ensures parts { IfOk result (λ made. made.1.parts ≡ 64) }
        ensures seen { IfOk result (λ made. made.1.seen ≡ V.height value) }
        ensures back { IfErr result (λ back. back ≡ value) }
    {
        let about = (
            like.origin(),
            Origin::of::<V, Started>(&value),
            value.rank(),
        );
        TagLock::told(alloc, value, about)
    }

    /// Gives one part of the seat to a new one, which has seen what the old one has. A seat has no bytes, so today
    /// memory is never wanted; a caller is ready for it all the same.
    pub fn split(&self, seat: &mut Seat<V>) -> Result<Seat<V>, NoMemory>
        requires lock { seat.old.lock ≡ self.now }
        requires two { 2 ≤ seat.old.parts }
        ensures kept { IfOk result (λ _. seat.new ≡ record seat.old { parts = seat.old.parts - 1 }) }
        ensures given { IfOk result (λ given. given ≡ record seat.old { parts = 1 }) }
        ensures unchanged { IfErr result (λ _. seat.new ≡ seat.old) }
    {
        let base = split_seat(&self.table, &mut seat.base);
        Ok(Seat { base })
    }

    /// One seat with the parts of both, which has seen the greater of what they have.
    pub fn join(&self, into: Seat<V>, other: Seat<V>) -> Seat<V>
        requires lock { into.lock ≡ self.now }
        requires other_lock { other.lock ≡ self.now }
        ensures joined { result ≡ record into { parts = into.parts + other.parts; seen = max into.seen other.seen } }
    {
        let Seat { mut base } = into;
        let Seat { base: other } = other;
        join_seats(&self.table, &mut base, other);
        Seat { base }
    }

    /// Takes the value, once no other seat holds it. The seat has then seen its rank.
    pub fn take<W: Wait>(&self, rt: &W, seat: Seat<V>) -> Held<V>
        requires lock { seat.lock ≡ self.now }
        ensures stands { StandsFor V.stands seat.tag seat.start result.value }
        ensures not_below { seat.seen ≤ V.height result.value }
        ensures token { result.token ≡ record seat { seen = V.height result.value } }
    {
        let Seat { mut base } = seat;
        let mut looks = 0;
        for _ in rt.forever() {
            let word = look(&self.table, &mut base);
            if word % 2 == 1 {
                looks = self.wait(rt, word, looks);
            } else if claim(&self.table, &mut base, word) {
                let value = lift(&self.table, &mut base);
                return Held { base, value };
            }
        }
        unreachable!()
    }

    /// Gives the value back, and wakes one thread that sleeps for it. The seat has then seen its rank.
    pub fn give(&self, held: Held<V>) -> Seat<V>
        requires lock { held.token.lock ≡ self.now }
        requires stands { StandsFor V.stands held.token.tag held.token.start held.value }
        requires not_below { held.token.seen ≤ V.height held.value }
        requires low { V.height held.value < 2 ^ 63 }
        ensures token { result ≡ record held.token { seen = V.height held.value } }
    {
        let Held { mut base, value } = held;
        let rank = value.rank();
        lower(&self.table, &mut base, value);
        release(&self.table, &mut base, rank);
        // Looked at after the store: who sleeps was counted before it looked at the word for the last time.
        if self.sleepers.load(Ordering::SeqCst) > 0 {
            self.table.shared.wake_one(0);
        }
        Seat { base }
    }

    /// A rank that the value has reached. It waits for nobody.
    pub fn rank(&self, seat: &mut Seat<V>) -> u64
        requires lock { seat.old.lock ≡ self.now }
        ensures not_below { seat.old.seen ≤ result }
        ensures seat { seat.new ≡ record seat.old { seen = result } }
    {
        look(&self.table, &mut seat.base) / 2
    }

    /// The value, once every other seat was joined into this one.
    pub fn close(self, seat: Seat<V>) -> V
        requires lock { seat.lock ≡ self }
        requires all { seat.parts ≡ 64 }
        ensures stands { StandsFor V.stands seat.tag seat.start result }
        ensures not_below { seat.seen ≤ V.height result }
    {
        let TagLock { table, sleepers: _ } = self;
        let Seat { base } = seat;
        value_of(table, base)
    }

    // A lock whose views have this tag and this start count. The rank is the value's.
    fn told(alloc: Global, value: V, about: About<V::Tag>) -> Result<(TagLock<V>, Seat<V>), V>
        requires stands { StandsFor V.stands about.0.tag about.1.start value }
        requires rank { about.2 ≡ V.height value }
        requires low { V.height value < 2 ^ 63 }
        ensures made { IfOk result (λ made. made.1 ≡ record
            { lock = made.0; tag = about.0.tag; start = about.1.start; parts = 64; seen = about.2 }) }
        ensures back { IfErr result (λ back. back ≡ value) }
    {
        let mut slots = Vec::new(alloc);
        if let Err(failed) = slots.push(Some(value)) {
            let AllocFailed { value: slot } = failed;
            let Some(value) = slot else { unreachable!() };
            slots.destroy_empty();
            return Err(value);
        }
        match Table::new(alloc, &[2 * about.2], slots, &about) {
            Ok((table, base)) => {
                let lock = TagLock {
                    table,
                    sleepers: AtomicU64::new(0),
                };
                Ok((lock, Seat { base }))
            }
            Err(refused) => {
                let Refused { mut slots } = refused;
                let Some(slot) = slots.pop() else {
                    unreachable!()
                };
                let Some(value) = slot else { unreachable!() };
                slots.destroy_empty();
                Err(value)
            }
        }
    }

    // Waits a little where the word is this one, which is odd. It answers the count of looks.
    fn wait<W: Wait>(&self, rt: &W, word: u64, looks: u32) -> u32 {
        if looks < LOOKS {
            hint::spin_loop();
            return looks + 1;
        }
        // Counted before the word is looked at for the last time, so that `give` sees a sleeper.
        self.sleepers.fetch_add(1, Ordering::SeqCst);
        self.table.shared.park(rt, 0, (word % (1 << 32)) as u32);
        self.sleepers.fetch_sub(1, Ordering::SeqCst);
        looks
    }
}

// The value of a table that no other thread sees, for the seat that has every part.
fn value_of<V: Tagged>(table: RuledTable<V>, seat: TableSeat<V>) -> V
    requires table { IsSeatOf table.shared.table_id seat.table_id }
    requires all { seat.me.0.parts ≡ 64 }
    requires idle { seat.me.0.holding ≡ false }
    ensures stands { StandsFor V.stands seat.me.0.tag seat.me.0.start result }
    ensures not_below { seat.me.0.seen ≤ V.height result }
{
    let mut closed = table.close_with(seat);
    let slot = closed.take(0);
    closed.free();
    let Some(value) = slot else { unreachable!() };
    value
}
