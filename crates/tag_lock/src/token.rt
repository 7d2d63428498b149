//! The seat: the right to take what lies under a lock, and what its holder has seen there.
//!
//! A seat has a number of the 64 parts of its lock. It has seen the rank of each value that it took or gave, and
//! each number that `rank` gave it. It has no bytes at run time.
ghost use Rattle.std.specs.Prelude.{◌≡◌};

use crate::meaning::Tagged;
use crate::origin::{Origin, Reads};
use crate::rule::TableSeat;
use std::marker::Model;

/// A right to take the value. To a contract it is its lock, the tag and the start count, its parts, and the
/// highest rank that it has seen.
#[derive(Drop)]
pub struct Seat<V: Tagged> {
    pub(crate) base: TableSeat<V>,
}

impl<V: Tagged> Model for Seat<V> {
    ghost use Rattle.std.specs.Prelude.{◌≡◌, ◌<◌, false, []};
    ghost use Rattle.tag_lock.specs.Token.{Token, token_code};

    ghost Value = { Token V.Tag };

    ghost coded = { token_code V.Tag.code };

    ghost view = { λ s. record {
      lock = s.base.table_id;
      tag = s.base.me.0.tag;
      start = s.base.me.0.start;
      parts = s.base.me.0.parts;
      seen = s.base.me.0.seen;
    } };

    ghost invariant = { λ s. (0 < s.base.me.0.parts) × (s.base.me.0.holding ≡ false) × (s.base.me.1 ≡ []) };
}

/// The tag and the start count of a seat.
struct OfSeat;

impl<V: Tagged> Reads<Seat<V>, V::Tag> for OfSeat {
    ghost tag = { λ s. s.tag };

    ghost start = { λ s. s.start };
}

impl<V: Tagged> Seat<V> {
    pub(crate) fn origin(&self) -> Origin<V::Tag>
        ensures { result.tag ≡ self.now.tag }
    {
        Origin::of::<Seat<V>, OfSeat>(self)
    }
}
