//! The rule of the word, the slot and all views.
//!
//! The word is twice a rank, plus 1 while the value is held; the slot has the value while nobody holds it.
//! The rule is `Kept` of specs/Rule.antt. src/steps.rt has the seven kinds of atomic step that act on the table.
use crate::meaning::Tagged;
use crate::origin::Origin;
use atomic_table::{Table, TableRule};
use std::alloc::Global;
use std::marker::PhantomData;

/// What a seat knows. No value of it is made.
pub struct Known<T> {
    pub holding: bool,
    pub parts: u64,
    pub seen: u64,
    pub tag: Option<T>,
    pub start: u64,
}

/// What a table is told when it is made: the tag of the first, the start count of the second, and the rank.
pub type About<T> = (Origin<T>, Origin<T>, u64);

/// The table of a lock: one word and one slot.
pub type RuledTable<V> = Table<
    Option<V>,
    Known<<V as Tagged>::Tag>,
    About<<V as Tagged>::Tag>,
    Ruled<V>,
    Global,
>;

/// A seat at that table, with its view and with the slot while it holds it.
pub type TableSeat<V> = atomic_table::Seat<Option<V>, Known<<V as Tagged>::Tag>>;

/// The rule of the table.
pub struct Ruled<V> {
    value: PhantomData<V>,
}

impl<V: Tagged> TableRule<Option<V>, Known<V::Tag>, About<V::Tag>> for Ruled<V> {
    ghost use Rattle.tag_lock.specs.Rule.{Kept, first_view};

    ghost holds = { λ _. Kept V.stands V.height };

    ghost first = { λ about. first_view about.0.tag about.1.start about.2 };
}
