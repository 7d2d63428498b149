//! Lists of lines, as an answer or a view is printed.

ghost use Rattle.std.specs.Prelude.{◌≡◌, ◌<◌, ◌++◌, ◌∷◌, [], List, ℕ, IfOk, OnOk, OnErr};

use crate::line::Line;
use rl_value::NoMemory;
use std::marker::Model;

/// A list of lines, the first to be printed first.
#[derive(Debug, Drop)]
pub struct Lines {
    lines: Vec<Line>,
}

impl Model for Lines {
    ghost use Rattle.std.specs.Prelude.{List, ℕ};

    ghost Value = { List (List ℕ) };

    ghost view = { λ l. l.lines.items };
}

impl Lines {
    /// The list of these lines. It may be empty.
    pub fn of(lines: Vec<Line>) -> Lines
        ensures same { result ≡ lines.items }
    {
        Lines { lines }
    }

    /// What it holds, in order.
    pub fn items(&self) -> &[Line]
        ensures same { result.now ≡ self.now }
    {
        self.lines.as_slice()
    }

    /// Gives up what it holds, in order. It takes no memory.
    pub fn into_items(self) -> Vec<Line>
        ensures same { result.items ≡ self }
    {
        self.lines
    }

    /// Puts one line at the end. A line that finds no memory is dropped.
    pub fn push(&mut self, line: Line) -> Result<(), NoMemory>
        ensures grown { OnOk result (self.new ≡ self.old ++ line ∷ []) }
        ensures unchanged { OnErr result (self.new ≡ self.old) }
    {
        match self.lines.push(line) {
            Ok(()) => Ok(()),
            Err(_) => Err(NoMemory),
        }
    }

    /// An equal one, which owns memory of its own.
    pub fn copy(&self) -> Result<Lines, NoMemory>
        ensures equal { IfOk result (λ lines. lines ≡ self.now) }
    {
        match copied(&self.lines) {
            Ok(lines) => Ok(Lines { lines }),
            Err(NoMemory) => Err(NoMemory),
        }
    }
}

fn copied(lines: &Vec<Line>) -> Result<Vec<Line>, NoMemory>
    ensures equal { IfOk result (λ copies. copies.items ≡ lines.now.items) }
{
    let Ok(mut copies) = Vec::with_capacity(*lines.allocator(), lines.len()) else {
        return Err(NoMemory);
    };
    for line in lines {
        if copies.push(line.copy()?).is_err() {
            return Err(NoMemory);
        }
    }
    Ok(copies)
}
