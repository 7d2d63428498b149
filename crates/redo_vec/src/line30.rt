//! Words of the dictionary as the redo spells them: 1 to 30 bytes of any kind.
//!
//! Whether such bytes are the name of a schema, a table or a column is no matter here: the redo may spell
//! any, and the dictionary judges them.
ghost use Rattle.std.specs.Prelude.{◌≡◌, IsTrue, IfOk};
ghost use Rattle.redo_vec.specs.Forms.{is_line30};

use rl_value::NoMemory;
use std::marker::Model;

/// A list of 1 to 30 bytes.
#[derive(Debug, Drop)]
pub struct Line30 {
    bytes: Vec<u8>,
}

impl Model for Line30 {
    ghost use Rattle.std.specs.Prelude.{List, ℕ, IsTrue};

    ghost Value = { List ℕ };

    ghost use Rattle.redo_vec.specs.Forms.{is_line30};

    ghost view = { λ l. l.bytes.items };

    ghost invariant = { λ l. IsTrue (is_line30 l.bytes.items) };
}

impl Line30 {
    /// Keeps these bytes. It takes no memory.
    pub fn of(bytes: Vec<u8>) -> Line30
        requires form { IsTrue (is_line30 bytes.items) }
        ensures same { result ≡ bytes.items }
    {
        Line30 { bytes }
    }

    /// What it holds, in order.
    pub fn items(&self) -> &[u8]
        ensures form { IsTrue (is_line30 self.now) }
        ensures same { result.now ≡ self.now }
    {
        self.bytes.as_slice()
    }

    /// Gives up what it holds, in order. It takes no memory.
    pub fn into_items(self) -> Vec<u8>
        ensures form { IsTrue (is_line30 self) }
        ensures same { result.items ≡ self }
    {
        self.bytes
    }

    /// An equal one, which owns memory of its own.
    pub fn copy(&self) -> Result<Line30, NoMemory>
        ensures equal { IfOk result (λ line. line ≡ self.now) }
    {
        match self.bytes.clone() {
            Ok(bytes) => Ok(Line30 { bytes }),
            Err(_) => Err(NoMemory),
        }
    }
}
