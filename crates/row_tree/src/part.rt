//! What every level of a tree is: a part that has entries in rising order of their keys.

ghost use Rattle.std.specs.Prelude.{◌≡◌, ◌≢◌, ◌++◌, ◌∷◌, [], Some, IfOk, IfSome};
ghost use Rattle.std.specs.Option.{option_copied};
ghost use Rattle.std.specs.FinMap.Entries.{find, put};
ghost use Rattle.std.specs.Arc.{arc_value};
ghost use Rattle.rl_value.specs.Order.{row_cmp};
ghost use Rattle.row_tree.specs.Entries.{Entries, first_key, without, and_more};
ghost use Rattle.row_tree.specs.Heads.{head_of, least_key};

use crate::item::Item;
use rl_value::{NoMemory, Row};
use std::alloc::Global;

/// A part of a tree. It has at least one entry.
pub(crate) trait Part: Sized {
    /// Its entries.
    ghost entries: { Self → Entries };

    /// What holds of it and of the parts beneath.
    ghost sound: { Self → Type 0 };

    /// A part of one entry.
    fn one(alloc: Global, item: Item) -> Result<Self, NoMemory>
        ensures one { IfOk result (λ part. entries part ≡ ((arc_value item.entry).key, (arc_value item.entry).row) ∷ []) }
        ensures sound { IfOk result sound };

    /// The same blocks under another owner.
    fn share(&self) -> Result<Self, NoMemory>
        requires sound { sound self.now }
        ensures same { IfOk result (λ part. entries part ≡ entries self.now) }
        ensures sound { IfOk result sound };

    /// The least key.
    fn least(&self) -> &Row
        requires sound { sound self.now }
        ensures least { first_key (entries self.now) ≡ Some result.now };

    /// The number that the least key begins with, where it begins with one. It is at hand without a way down.
    fn head(&self) -> &Option<i64>
        requires sound { sound self.now }
        ensures least { first_key (entries self.now) ≡ Some (least_key (entries self.now)) }
        ensures head { result.now ≡ head_of (least_key (entries self.now)) };

    /// The first entry, under another owner.
    fn first(&self) -> Result<Item, NoMemory>
        requires sound { sound self.now }
        ensures first { IfOk result (λ item. first_key (entries self.now) ≡ Some (arc_value item.entry).key) };

    /// The row of this key.
    fn get(&self, key: &Row) -> Option<&Row>
        requires sound { sound self.now }
        ensures found { option_copied result ≡ find row_cmp key.now (entries self.now) };

    /// Puts an entry in place of the one with its key. A part that would grow too large is cut in two, and its end comes back.
    fn put(&mut self, item: Item) -> Result<Option<Self>, NoMemory>
        requires sound { sound self.old }
        ensures put { IfOk result (λ more. entries self.new ++ and_more entries more ≡
            put row_cmp (arc_value item.entry).key (arc_value item.entry).row (entries self.old)) }
        ensures sound { IfOk result (λ more. sound self.new × IfSome more sound) };

    /// Without the entry of this key; None where no entry is left.
    fn remove(self, key: &Row) -> Result<Option<Self>, NoMemory>
        requires sound { sound self }
        ensures left { IfOk result (λ r. and_more entries r ≡ without key.now (entries self)) }
        ensures sound { IfOk result (λ r. IfSome r sound) };

    ghost some: { (part : Self) → sound part → entries part ≢ [] };
}
