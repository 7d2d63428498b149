//! An open transaction: the keys that each of its surviving changes touches, the oldest first.
ghost use Rattle.std.specs.Prelude.{◌≡◌, ◌++◌, ◌∷◌, [], OnOk, IfOk, MatchOption, length};

use rl_value::{Key, NoMemory, Xid};
use std::alloc::Global;
use std::marker::Model;

/// The keys that one change touches.
#[derive(Drop)]
pub struct TouchedKeys {
    keys: Vec<Key>,
}

impl Model for TouchedKeys {
    ghost use Rattle.std.specs.Prelude.{List};
    ghost use Rattle.rl_value.specs.declared.key.Key.{Key as One};

    ghost Value = { List One };

    ghost view = { λ k. k.keys.items };
}

impl TouchedKeys {
    pub fn of(keys: Vec<Key>) -> TouchedKeys
        ensures { result ≡ keys.items }
    {
        TouchedKeys { keys }
    }

    /// Equal ones, which own memory of their own.
    pub fn copy(&self) -> Result<TouchedKeys, NoMemory>
        ensures { IfOk result (λ copy. copy ≡ self.now) }
    {
        let keys = copied_keys(&self.keys)?;
        Ok(TouchedKeys { keys })
    }

    pub fn items(&self) -> &[Key]
        ensures { result.now ≡ self.now }
    {
        self.keys.as_slice()
    }
}

/// The keys of each surviving change.
#[derive(Drop)]
pub struct Survivors {
    changes: Vec<TouchedKeys>,
}

impl Model for Survivors {
    ghost use Rattle.std.specs.Prelude.{List};
    ghost use Rattle.rl_value.specs.declared.key.Key.{Key as One};

    ghost Value = { List (List One) };

    ghost view = { λ s. s.changes.items };
}

impl Survivors {
    pub fn new(alloc: Global) -> Survivors
        ensures { result ≡ [] }
    {
        Survivors {
            changes: Vec::new(alloc),
        }
    }

    /// Equal ones, which own memory of their own.
    pub fn copy(&self) -> Result<Survivors, NoMemory>
        ensures { IfOk result (λ copy. copy ≡ self.now) }
    {
        let changes = copied_changes(&self.changes)?;
        Ok(Survivors { changes })
    }

    pub fn items(&self) -> &[TouchedKeys]
        ensures { result.now ≡ self.now }
    {
        self.changes.as_slice()
    }

    pub fn push(&mut self, keys: TouchedKeys) -> Result<(), NoMemory>
        ensures { OnOk result (self.new ≡ self.old ++ keys ∷ []) }
    {
        match self.changes.push(keys) {
            Ok(()) => Ok(()),
            Err(_) => Err(NoMemory),
        }
    }

    /// Takes the latest one back.
    pub fn pop(&mut self) -> Option<TouchedKeys>
        ensures { MatchOption result ((self.old ≡ []) × (self.new ≡ [])) (λ keys. self.old ≡ self.new ++ keys ∷ []) }
    {
        self.changes.pop()
    }
}

/// An open transaction, but for the position of its START.
#[derive(Drop)]
pub struct Open {
    pub xid: Xid,
    pub keys: Survivors,
}

impl Open {
    /// An equal one, which owns memory of its own.
    pub fn copy(&self) -> Result<Open, NoMemory>
        ensures { IfOk result (λ copy. copy ≡ self.now) }
    {
        let keys = self.keys.copy()?;
        Ok(Open {
            xid: self.xid,
            keys,
        })
    }
}

fn copied_keys(keys: &Vec<Key>) -> Result<Vec<Key>, NoMemory>
    ensures { IfOk result (λ copies. copies.items ≡ keys.now.items) }
{
    let Ok(mut copies) = Vec::with_capacity(*keys.allocator(), keys.len()) else {
        return Err(NoMemory);
    };
    for key in keys {
        let key = key.copy()?;
        if copies.push(key).is_err() {
            return Err(NoMemory);
        }
    }
    Ok(copies)
}

fn copied_changes(changes: &Vec<TouchedKeys>) -> Result<Vec<TouchedKeys>, NoMemory>
    ensures { IfOk result (λ copies. copies.items ≡ changes.now.items) }
{
    let Ok(mut copies) = Vec::with_capacity(*changes.allocator(), changes.len()) else {
        return Err(NoMemory);
    };
    for change in changes {
        let change = change.copy()?;
        if copies.push(change).is_err() {
            return Err(NoMemory);
        }
    }
    Ok(copies)
}
