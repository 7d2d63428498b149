//! What one record gives a miner's caller.
ghost use Rattle.std.specs.Prelude.{◌≡◌, ◌++◌, ◌∷◌, [], OnOk};

use rl_value::{Bytes, Cause, NoMemory};
use std::alloc::Global;
use std::marker::Model;

/// Lines of the contents, in order.
#[derive(Debug, Drop)]
pub struct MinedLines {
    lines: Vec<Bytes>,
}

impl Model for MinedLines {
    ghost use Rattle.std.specs.Prelude.{List, ℕ};

    ghost Value = { List (List ℕ) };

    ghost view = { λ l. l.lines.items };
}

impl MinedLines {
    /// No line. It takes no memory yet.
    pub(crate) fn new(alloc: Global) -> MinedLines
        ensures { result ≡ [] }
    {
        MinedLines {
            lines: Vec::new(alloc),
        }
    }

    pub(crate) fn push(&mut self, line: Bytes) -> Result<(), NoMemory>
        ensures { OnOk result (self.new ≡ self.old ++ line ∷ []) }
    {
        match self.lines.push(line) {
            Ok(()) => Ok(()),
            Err(_) => Err(NoMemory),
        }
    }

    /// What it holds, in order.
    pub fn items(&self) -> &[Bytes]
        ensures same { result.now ≡ self.now }
    {
        self.lines.as_slice()
    }
}

/// What a record gives: its lines, or that it ends the redo.
#[derive(Debug, Drop)]
pub enum Mined {
    /// The lines that the record gives; there may be none.
    Lines(MinedLines),
    /// The record, of this number, may not follow, or does not decode.
    Malformed { rec: u64, cause: Cause },
}
