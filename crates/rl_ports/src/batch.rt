//! What a durable store is told to do at once, and what it gives back.
//!
//! A pair lies under a key in an area. Areas count from 0 to 255, and each has its own keys, in the order of
//! their bytes. A key has at least one byte; a value may have none.

ghost use Rattle.std.specs.Prelude.{◌≡◌, ◌<◌, List, IfOk};

use rl_value::{Bytes, NoMemory};
use std::marker::Model;

/// One thing to do.
#[derive(Debug, Drop)]
pub enum Item {
    /// Puts a pair. A value that lies under this key of the area is lost.
    Put { area: u8, key: Bytes, value: Bytes },
    /// Drops the pair under this key of the area, if there is one.
    Drop { area: u8, key: Bytes },
}

/// A pair of an area.
#[derive(Debug, Drop)]
pub struct Pair {
    pub key: Bytes,
    pub value: Bytes,
}

/// A list of items, which are done in this order, all or none.
#[derive(Debug, Drop)]
pub struct Batch {
    items: Vec<Item>,
}

impl Model for Batch {
    ghost use Rattle.std.specs.Prelude.{List};
    ghost use Rattle.rl_ports.specs.declared.batch.Item.{Item as One};

    ghost Value = { List One };

    ghost view = { λ b. b.items.items };
}

impl Item {
    /// An equal one, which owns memory of its own.
    pub fn copy(&self) -> Result<Item, NoMemory>
        ensures equal { IfOk result (λ item. item ≡ self.now) }
    {
        match self {
            Item::Put { area, key, value } => {
                let key = key.copy()?;
                let value = value.copy()?;
                Ok(Item::Put {
                    area: *area,
                    key,
                    value,
                })
            }
            Item::Drop { area, key } => {
                let key = key.copy()?;
                Ok(Item::Drop { area: *area, key })
            }
        }
    }
}

impl Pair {
    /// An equal one, which owns memory of its own.
    pub fn copy(&self) -> Result<Pair, NoMemory>
        ensures equal { IfOk result (λ pair. pair ≡ self.now) }
    {
        let key = self.key.copy()?;
        let value = self.value.copy()?;
        Ok(Pair { key, value })
    }
}

impl Batch {
    /// The batch of these items. It may be empty.
    pub fn of(items: Vec<Item>) -> Batch
        ensures same { result ≡ items.items }
    {
        Batch { items }
    }

    /// What it holds, in order.
    pub fn items(&self) -> &[Item]
        ensures same { result.now ≡ self.now }
    {
        self.items.as_slice()
    }

    /// Gives up what it holds, in order. It takes no memory.
    pub fn into_items(self) -> Vec<Item>
        ensures same { result.items ≡ self }
    {
        self.items
    }

    /// An equal one, which owns memory of its own.
    pub fn copy(&self) -> Result<Batch, NoMemory>
        ensures equal { IfOk result (λ batch. batch ≡ self.now) }
    {
        match copied(&self.items) {
            Ok(items) => Ok(Batch { items }),
            Err(NoMemory) => Err(NoMemory),
        }
    }
}

fn copied(items: &Vec<Item>) -> Result<Vec<Item>, NoMemory>
    ensures equal { IfOk result (λ copies. copies.items ≡ items.now.items) }
{
    let Ok(mut copies) = Vec::with_capacity(*items.allocator(), items.len()) else {
        return Err(NoMemory);
    };
    for item in items {
        if copies.push(item.copy()?).is_err() {
            return Err(NoMemory);
        }
    }
    Ok(copies)
}
