//! Keys of a table: which columns they have.
//!
//! A key lists its columns strictly rising, so each set of columns has one spelling. The primary key stands
//! first, and up to four unique keys behind it.
ghost use Rattle.std.specs.Prelude.{◌≡◌, ◌≤◌, IsTrue, IfOk, length};
ghost use Rattle.redo_vec.specs.Forms.{is_key_columns, are_keys};

use rl_value::NoMemory;
use std::marker::Model;

/// The columns of a key: 1 to 32 of them, each 0 to 31 and above the one before.
#[derive(Debug, Drop)]
pub struct KeyColumns {
    items: Vec<u8>,
}

impl Model for KeyColumns {
    ghost use Rattle.std.specs.Prelude.{List, ℕ, IsTrue};

    ghost Value = { List ℕ };

    ghost use Rattle.redo_vec.specs.Forms.{is_key_columns};

    ghost view = { λ k. k.items.items };

    ghost invariant = { λ k. IsTrue (is_key_columns k.items.items) };
}

impl KeyColumns {
    /// Keeps these columns. It takes no memory.
    pub fn of(items: Vec<u8>) -> KeyColumns
        requires form { IsTrue (is_key_columns items.items) }
        ensures same { result ≡ items.items }
    {
        KeyColumns { items }
    }

    /// What it holds, in order.
    #[tactic(auto, using(crate::proofs::Forming::key_short))]
    pub fn items(&self) -> &[u8]
        ensures form { IsTrue (is_key_columns self.now) }
        ensures short { length self.now ≤ 32 }
        ensures same { result.now ≡ self.now }
    {
        self.items.as_slice()
    }

    /// Gives up what it holds, in order. It takes no memory.
    pub fn into_items(self) -> Vec<u8>
        ensures form { IsTrue (is_key_columns self) }
        ensures same { result.items ≡ self }
    {
        self.items
    }

    /// An equal one, which owns memory of its own.
    pub fn copy(&self) -> Result<KeyColumns, NoMemory>
        ensures equal { IfOk result (λ columns. columns ≡ self.now) }
    {
        match self.items.clone() {
            Ok(items) => Ok(KeyColumns { items }),
            Err(_) => Err(NoMemory),
        }
    }
}

/// The columns of the primary key, and then those of up to four unique keys.
#[derive(Debug, Drop)]
pub struct KeyLists {
    items: Vec<KeyColumns>,
}

impl Model for KeyLists {
    ghost use Rattle.std.specs.Prelude.{List, ℕ, IsTrue};

    ghost Value = { List (List ℕ) };

    ghost use Rattle.redo_vec.specs.Forms.{are_keys};

    ghost view = { λ k. k.items.items };

    ghost invariant = { λ k. IsTrue (are_keys k.items.items) };
}

impl KeyLists {
    /// Keeps these keys, the primary key first. It takes no memory.
    pub fn of(items: Vec<KeyColumns>) -> KeyLists
        requires form { IsTrue (are_keys items.items) }
        ensures same { result ≡ items.items }
    {
        KeyLists { items }
    }

    /// What it holds, in order.
    pub fn items(&self) -> &[KeyColumns]
        ensures form { IsTrue (are_keys self.now) }
        ensures same { result.now ≡ self.now }
    {
        self.items.as_slice()
    }

    /// Gives up what it holds, in order. It takes no memory.
    pub fn into_items(self) -> Vec<KeyColumns>
        ensures form { IsTrue (are_keys self) }
        ensures same { result.items ≡ self }
    {
        self.items
    }

    /// An equal one, which owns memory of its own.
    pub fn copy(&self) -> Result<KeyLists, NoMemory>
        ensures equal { IfOk result (λ keys. keys ≡ self.now) }
    {
        match copied(&self.items) {
            Ok(items) => Ok(KeyLists { items }),
            Err(NoMemory) => Err(NoMemory),
        }
    }
}

fn copied(items: &Vec<KeyColumns>) -> Result<Vec<KeyColumns>, NoMemory>
    ensures { IfOk result (λ copies. copies.items ≡ items.now.items) }
{
    let Ok(mut copies) = Vec::with_capacity(*items.allocator(), items.len()) else {
        return Err(NoMemory);
    };
    for columns in items {
        let columns = columns.copy()?;
        if copies.push(columns).is_err() {
            return Err(NoMemory);
        }
    }
    Ok(copies)
}
