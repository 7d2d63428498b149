//! The rows that several commits write, as one batch in which each row stands once, as the last of them leaves it.
ghost use Rattle.std.specs.Prelude.{◌≡◌, ◌++◌, [], map, IfOk, OnOk, IsTrue};
ghost use Rattle.std.specs.BTreeMap.{insert_entry};
ghost use Rattle.rl_value.specs.Order.{bytes_cmp};
ghost use Rattle.rl_ports.specs.Store.{key_of};
ghost use Rattle.standby_spec.specs.Writings.{write_item};
ghost use Rattle.publisher.specs.MergedRows.{items_in, entered, entered_all};

use kept_layout::write_item;
use rl_ports::Item;
use rl_value::{Bytes, NoMemory};
use row_apply::Write;
use std::alloc::Global;
use std::collections::BTreeMap;

/// Items of rows, each under the key that it names; a later one takes the place of an earlier one.
#[derive(Drop)]
pub(crate) struct Merged {
    pub(crate) alloc: Global,
    pub(crate) items: BTreeMap<Bytes, Item>,
}

fn key_of_item(item: &Item) -> Result<Bytes, NoMemory>
    ensures key { IfOk result (λ key. key ≡ key_of item.now) }
{
    match item {
        Item::Put {
            area: _,
            key,
            value: _,
        } => key.copy(),
        Item::Drop { area: _, key } => key.copy(),
    }
}

impl Merged {
    /// No row. It takes no memory yet.
    pub(crate) fn new(alloc: Global) -> Merged
        ensures none { result.items.entries ≡ [] }
    {
        Merged {
            alloc,
            items: BTreeMap::new(alloc),
        }
    }

    fn enter(&mut self, write: &Write) -> Result<(), NoMemory>
        ensures entered { OnOk result (self.new.items.entries ≡ entered self.old.items.entries write.now) }
    {
        let item = write_item(self.alloc, write)?;
        let key = key_of_item(&item)?;
        match self.items.insert(key, item) {
            Ok(_) => Ok(()),
            Err(_) => Err(NoMemory),
        }
    }

    /// Enters written rows, in their order.
    pub(crate) fn enter_all(&mut self, writes: &[Write]) -> Result<(), NoMemory>
        ensures entered { OnOk result (self.new.items.entries ≡ entered_all self.old.items.entries writes.now) }
    {
        let mut rest = writes;
        while let [write, others @ ..] = rest {
            self.enter(write)?;
            rest = others;
        }
        Ok(())
    }

    /// The items, in the order of the keys that they name.
    pub(crate) fn into_items(self) -> Result<Vec<Item>, NoMemory>
        ensures items { IfOk result (λ items. items.items ≡ items_in self.items.entries) }
    {
        let Merged { alloc, items } = self;
        let Ok(mut list) = Vec::with_capacity(alloc, items.len()) else {
            return Err(NoMemory);
        };
        for (key, item) in items {
            let _key = key;
            if list.push(item).is_err() {
                return Err(NoMemory);
            }
        }
        Ok(list)
    }
}
