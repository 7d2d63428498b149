//! Sets of keys, as lists in rising order.
//!
//! What a change touches is such a list. Each key stands in it once; the least one comes first.

ghost use Rattle.std.specs.Prelude.{◌≡◌, ◌<◌, List, IsTrue, IfOk};
ghost use Rattle.rl_value.specs.Order.{keys_rise};

use crate::key::Key;
use crate::memory::NoMemory;
use std::marker::Model;

/// A list of keys in rising order.
#[derive(Debug, Drop)]
pub struct Keys {
    keys: Vec<Key>,
}

impl Model for Keys {
    ghost use Rattle.std.specs.Prelude.{List, IsTrue};
    ghost use Rattle.rl_value.specs.declared.key.Key.{Key as One};

    ghost Value = { List One };

    ghost use Rattle.rl_value.specs.Order.{keys_rise};

    ghost view = { λ k. k.keys.items };

    ghost invariant = { λ k. IsTrue (keys_rise k.keys.items) };
}

impl Keys {
    /// The list of these keys. It may be empty.
    pub fn of(keys: Vec<Key>) -> Keys
        requires rising { IsTrue (keys_rise keys.items) }
        ensures same { result ≡ keys.items }
    {
        Keys { keys }
    }

    /// What it holds, in order.
    pub fn items(&self) -> &[Key]
        ensures rising { IsTrue (keys_rise self.now) }
        ensures same { result.now ≡ self.now }
    {
        self.keys.as_slice()
    }

    /// Gives up what it holds, in order. It takes no memory.
    pub fn into_items(self) -> Vec<Key>
        ensures rising { IsTrue (keys_rise self) }
        ensures same { result.items ≡ self }
    {
        self.keys
    }

    /// An equal one, which owns memory of its own.
    pub fn copy(&self) -> Result<Keys, NoMemory>
        ensures equal { IfOk result (λ keys. keys ≡ self.now) }
    {
        match copied(&self.keys) {
            Ok(keys) => Ok(Keys { keys }),
            Err(NoMemory) => Err(NoMemory),
        }
    }
}

fn copied(keys: &Vec<Key>) -> Result<Vec<Key>, NoMemory>
    ensures equal { IfOk result (λ copies. copies.items ≡ keys.now.items) }
{
    let Ok(mut copies) = Vec::with_capacity(*keys.allocator(), keys.len()) else {
        return Err(NoMemory);
    };
    for key in keys {
        if copies.push(key.copy()?).is_err() {
            return Err(NoMemory);
        }
    }
    Ok(copies)
}
