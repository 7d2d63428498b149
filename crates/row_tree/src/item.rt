//! The lowest level: one key with its row.

ghost use Rattle.std.specs.Prelude.{◌≡◌, ◌∷◌, [], ⊤};
ghost use Rattle.std.specs.Arc.{arc_value};
ghost use Rattle.std.specs.Ordering.{is_le};
ghost use Rattle.rl_value.specs.Order.{row_cmp};
ghost use Rattle.row_tree.specs.Entries.{one_entry};
ghost use Rattle.row_tree.specs.Heads.{head_of};

use crate::head::reach_by_heads;
use crate::part::Part;
use rl_value::{NoMemory, Row};
use std::alloc::Global;
use std::cmp::Ordering;
use std::mem;
use std::sync::Arc;

/// A key and its row.
#[derive(Drop)]
pub(crate) struct Entry {
    pub(crate) key: Row,
    pub(crate) row: Row,
}

/// A shared entry, with the number that its key begins with.
#[derive(Drop)]
pub(crate) struct Item {
    pub(crate) entry: Arc<Entry>,
    pub(crate) head: Option<i64>,
    ghost headed: { head ≡ head_of (arc_value entry).key },
}

/// The first entry's key is not above the second one's.
#[tactic(auto, using(crate::proofs::Heads::heads_tell))]
pub(crate) fn is_not_above(item: &Item, other: &Item) -> bool
    ensures exact { result ≡ is_le (row_cmp (arc_value item.now.entry).key (arc_value other.now.entry).key) }
{
    if let Some(told) = reach_by_heads(&item.head, &other.head) {
        return told;
    }
    item.entry.key.cmp(&other.entry.key).is_le()
}

impl Part for Item {
    ghost entries = { λ i. ((arc_value i.entry).key, (arc_value i.entry).row) ∷ [] };

    ghost sound = { λ _. ⊤ };

    ghost some = { λ item _. one_entry ((arc_value item.entry).key, (arc_value item.entry).row) };

    fn one(_alloc: Global, item: Item) -> Result<Item, NoMemory> {
        Ok(item)
    }

    fn share(&self) -> Result<Item, NoMemory> {
        match Arc::try_clone(&self.entry) {
            Ok(entry) => Ok(Item {
                entry,
                head: self.head,
            }),
            Err(_) => Err(NoMemory),
        }
    }

    fn least(&self) -> &Row {
        &self.entry.key
    }

    fn head(&self) -> &Option<i64> {
        &self.head
    }

    fn first(&self) -> Result<Item, NoMemory> {
        match Arc::try_clone(&self.entry) {
            Ok(entry) => Ok(Item {
                entry,
                head: self.head,
            }),
            Err(_) => Err(NoMemory),
        }
    }

    fn get(&self, key: &Row) -> Option<&Row> {
        if key == &self.entry.key {
            Some(&self.entry.row)
        } else {
            None
        }
    }

    #[tactic(auto, using(crate::proofs::Orders::put_same))]
    fn put(&mut self, item: Item) -> Result<Option<Item>, NoMemory> {
        match item.entry.key.cmp(&self.entry.key) {
            Ordering::Equal => {
                *self = item;
                Ok(None)
            }
            Ordering::Greater => Ok(Some(item)),
            Ordering::Less => {
                let above = mem::replace(self, item);
                Ok(Some(above))
            }
        }
    }

    fn remove(self, key: &Row) -> Result<Option<Item>, NoMemory> {
        if key == &self.entry.key {
            Ok(None)
        } else {
            Ok(Some(self))
        }
    }
}
