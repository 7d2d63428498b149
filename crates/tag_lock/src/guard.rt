//! The guard: the value of a lock while a seat holds it.
//!
//! It is not `Drop`: what was taken has to be given back, on each path.
ghost use Rattle.std.specs.Prelude.{◌≡◌};
ghost use Rattle.std.specs.Borrow.{sem};
ghost use Rattle.tag_lock.specs.Lending.{LendsValue};

use crate::meaning::Tagged;
use crate::rule::TableSeat;
use std::marker::Model;

/// The value of a lock, with the seat that took it. To a contract it is both: the seat has seen the rank that the
/// value had when it was taken.
pub struct Held<V: Tagged> {
    pub(crate) base: TableSeat<V>,
    pub(crate) value: V,
}

impl<V: Tagged> Model for Held<V> {
    ghost use Rattle.std.specs.Prelude.{◌≡◌, ◌<◌, true, [], ◌∷◌, None};
    ghost use Rattle.tag_lock.specs.Guard.{Guard, guard_code};

    ghost Value = { Guard V.Tag V };

    ghost coded = { guard_code V.Tag.code V.code };

    ghost view = { λ h. record {
      token = record {
        lock = h.base.table_id;
        tag = h.base.me.0.tag;
        start = h.base.me.0.start;
        parts = h.base.me.0.parts;
        seen = h.base.me.0.seen;
      };
      value = h.value;
    } };

    ghost invariant = { λ h. (0 < h.base.me.0.parts) × (h.base.me.0.holding ≡ true) × (h.base.me.1 ≡ (0, None) ∷ []) };
}

impl<V: Tagged> Held<V> {
    /// The value. What the caller leaves there is what is held.
    pub fn value(&mut self) -> &mut V
        ensures* writes_back { sem 𝓛 (LendsValue V.row V.Tag.row V.Tagged self.entry result) }
        ensures value { result.now ≡ self.old.value }
    {
        &mut self.value
    }
}
