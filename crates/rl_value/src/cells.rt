//! Cells of a change: columns with their values.
//!
//! A change has old cells, which name the row and what stood in it, and new cells, which are put in.
//! A column that has no cell is not spoken of.

ghost use Rattle.std.specs.Prelude.{◌≡◌, ◌<◌, List, ℕ, IsTrue, IfOk};
ghost use Rattle.rl_value.specs.Text.{are_cells};

use crate::memory::NoMemory;
use crate::value::Value;
use std::marker::Model;

/// Cells of a change: each a column and a value, the columns rising and below `MAX_COLUMNS`.
#[derive(Debug, Drop)]
pub struct Cells {
    cells: Vec<(u8, Value)>,
}

impl Model for Cells {
    ghost use Rattle.std.specs.Prelude.{List, ℕ, IsTrue};
    ghost use Rattle.rl_value.specs.declared.value.Value.{Value as Item};

    ghost Value = { List (ℕ × Item) };

    ghost use Rattle.rl_value.specs.Text.{are_cells};

    ghost view = { λ c. c.cells.items };

    ghost invariant = { λ c. IsTrue (are_cells c.cells.items) };
}

impl Cells {
    /// The list of these cells. It may be empty.
    pub fn of(cells: Vec<(u8, Value)>) -> Cells
        requires rising { IsTrue (are_cells cells.items) }
        ensures same { result ≡ cells.items }
    {
        Cells { cells }
    }

    /// The cells, by column.
    pub fn cells(&self) -> &[(u8, Value)]
        ensures rising { IsTrue (are_cells self.now) }
        ensures same { result.now ≡ self.now }
    {
        self.cells.as_slice()
    }

    /// Gives up what it holds, in order. It takes no memory.
    pub fn into_items(self) -> Vec<(u8, Value)>
        ensures rising { IsTrue (are_cells self) }
        ensures same { result.items ≡ self }
    {
        self.cells
    }

    /// An equal one, which owns memory of its own.
    pub fn copy(&self) -> Result<Cells, NoMemory>
        ensures equal { IfOk result (λ cells. cells ≡ self.now) }
    {
        match copied(&self.cells) {
            Ok(cells) => Ok(Cells { cells }),
            Err(NoMemory) => Err(NoMemory),
        }
    }
}

fn copied(cells: &Vec<(u8, Value)>) -> Result<Vec<(u8, Value)>, NoMemory>
    ensures equal { IfOk result (λ copies. copies.items ≡ cells.now.items) }
{
    let Ok(mut copies) = Vec::with_capacity(*cells.allocator(), cells.len()) else {
        return Err(NoMemory);
    };
    for cell in cells {
        let value = cell.1.copy()?;
        if copies.push((cell.0, value)).is_err() {
            return Err(NoMemory);
        }
    }
    Ok(copies)
}
