//! A line: bytes without a line end.
//!
//! A line is made in pieces, and the line end is written behind it when it is printed. Any other byte may stand in
//! it, also CR.

ghost use Rattle.std.specs.Prelude.{◌≡◌, ◌≢◌, ◌<◌, ◌++◌, ◌∷◌, [], List, ℕ, IsTrue, IfOk, OnOk, OnErr};
ghost use Rattle.rl_base.specs.Lines.{is_line};

use rl_value::NoMemory;
use std::alloc::Global;
use std::marker::Model;

/// The byte that ends a line.
pub const LF: u8 = b'\n';

/// A line.
#[derive(Debug, Drop)]
pub struct Line {
    bytes: Vec<u8>,
}

impl Model for Line {
    ghost use Rattle.std.specs.Prelude.{List, ℕ, IsTrue};

    ghost Value = { List ℕ };

    ghost use Rattle.rl_base.specs.Lines.{is_line};

    ghost view = { λ l. l.bytes.items };

    ghost invariant = { λ l. IsTrue (is_line l.bytes.items) };
}

impl Line {
    /// A line of no bytes. It takes no memory.
    pub fn new(alloc: Global) -> Line
        ensures empty { result ≡ [] }
    {
        Line {
            bytes: Vec::new(alloc),
        }
    }

    /// The line of these bytes.
    pub fn of(bytes: Vec<u8>) -> Line
        requires line { IsTrue (is_line bytes.items) }
        ensures same { result ≡ bytes.items }
    {
        Line { bytes }
    }

    /// What it holds, in order.
    pub fn items(&self) -> &[u8]
        ensures line { IsTrue (is_line self.now) }
        ensures same { result.now ≡ self.now }
    {
        self.bytes.as_slice()
    }

    /// Gives up what it holds, in order. It takes no memory.
    pub fn into_items(self) -> Vec<u8>
        ensures line { IsTrue (is_line self) }
        ensures same { result.items ≡ self }
    {
        self.bytes
    }

    /// Puts one byte at the end.
    pub fn push(&mut self, byte: u8) -> Result<(), NoMemory>
        requires inside { byte ≢ LF }
        ensures grown { OnOk result (self.new ≡ self.old ++ byte ∷ []) }
        ensures unchanged { OnErr result (self.new ≡ self.old) }
    {
        match self.bytes.push(byte) {
            Ok(()) => Ok(()),
            Err(_) => Err(NoMemory),
        }
    }

    /// Puts bytes at the end.
    pub fn extend(&mut self, bytes: &[u8]) -> Result<(), NoMemory>
        requires inside { IsTrue (is_line bytes.now) }
        ensures grown { OnOk result (self.new ≡ self.old ++ bytes.now) }
        ensures unchanged { OnErr result (self.new ≡ self.old) }
    {
        match self.bytes.extend_from_slice(bytes) {
            Ok(()) => Ok(()),
            Err(_) => Err(NoMemory),
        }
    }

    /// An equal one, which owns memory of its own.
    pub fn copy(&self) -> Result<Line, NoMemory>
        ensures equal { IfOk result (λ line. line ≡ self.now) }
    {
        match self.bytes.clone() {
            Ok(bytes) => Ok(Line { bytes }),
            Err(_) => Err(NoMemory),
        }
    }
}
