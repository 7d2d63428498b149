//! The walk over a tree's entries, in rising order of their keys.
//!
//! A walk over a block has a walk over one of its parts, and the parts behind that one. Each part has an entry, so a step
//! goes on to the next part once at most.

ghost use Rattle.std.specs.Prelude.{◌≡◌, ◌++◌, ⊤};
ghost use Rattle.std.specs.List.{flat_map, AllByRecursion};
ghost use Rattle.std.specs.Option.{option_copied};
ghost use Rattle.std.specs.Map.Iter.{TakesFirst, deref_pair};
ghost use Rattle.row_tree.specs.Entries.{Entries, and_more};

use crate::item::Item;
use crate::node::Node;
use crate::part::Part;
use rl_value::Row;

/// A walk over the entries of a part.
pub(crate) trait Walk<'a, K: Part>: Sized {
    /// The entries that are left.
    ghost left: { Self → Entries };

    /// What holds of the parts that are left.
    ghost sound: { Self → Type 0 };

    /// All entries of this part are left.
    fn over(part: &'a K) -> Self
        requires sound { K.sound part.now }
        ensures all { left result ≡ K.entries part.now }
        ensures sound { sound result };

    /// The key and the row of the next entry.
    fn next(&mut self) -> Option<(&'a Row, &'a Row)>
        requires sound { sound self.old }
        ensures first { TakesFirst deref_pair (left self.old) result (left self.new) }
        ensures sound { sound self.new };
}

/// The walk over one entry.
#[derive(Drop)]
pub(crate) struct ItemWalk<'a> {
    item: Option<&'a Item>,
}

impl<'a> Walk<'a, Item> for ItemWalk<'a> {
    ghost left = { λ w. and_more ⟦<Item as Part>⟧.entries (option_copied w.item) };

    ghost sound = { λ _. ⊤ };

    fn over(part: &'a Item) -> ItemWalk<'a> {
        ItemWalk { item: Some(part) }
    }

    fn next(&mut self) -> Option<(&'a Row, &'a Row)> {
        match self.item {
            None => None,
            Some(item) => {
                self.item = None;
                Some((&item.entry.key, &item.entry.row))
            }
        }
    }
}

/// The walk over a block.
#[derive(Drop)]
pub(crate) struct NodeWalk<'a, K, W> {
    now: W,
    rest: &'a [K],
}

impl<'a, K: Part + Drop, W: Walk<'a, K> + Drop> Walk<'a, Node<K>> for NodeWalk<'a, K, W> {
    ghost left = { λ w. W.left w.now ++ flat_map K.entries w.rest.now };

    ghost sound = { λ w. W.sound w.now × AllByRecursion K.sound w.rest.now };

    fn over(part: &'a Node<K>) -> NodeWalk<'a, K, W> {
        let children = part.block.level.children.as_slice();
        NodeWalk {
            now: W::over(&children[0]),
            rest: &children[1..],
        }
    }

    fn next(&mut self) -> Option<(&'a Row, &'a Row)> {
        if let Some(entry) = self.now.next() {
            return Some(entry);
        }
        match self.rest {
            [] => None,
            [child, rest @ ..] => {
                self.now = W::over(child);
                self.rest = rest;
                self.now.next()
            }
        }
    }
}
