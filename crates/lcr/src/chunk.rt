//! Change records of one transaction that are applied, lent or spilled together.
//!
//! A chunk is seen as the changes by their positions, as a history of the redo has them.
ghost use Rattle.std.specs.Prelude.{◌≡◌, ◌≤◌, IfOk, IsTrue, map, length};
ghost use Rattle.lcr.specs.Chunks.{placed, is_chunk, chunk_limit};

use crate::change_record::Lcr;
use rl_value::NoMemory;
use std::marker::Model;

/// A list of 1 to `MAX_CHUNK` change records of one transaction, in rising order of their positions.
#[derive(Debug, Drop)]
pub struct Chunk {
    items: Vec<Lcr>,
}

impl Model for Chunk {
    ghost use Rattle.std.specs.Prelude.{List, map, IsTrue};
    ghost use Rattle.redo_spec.specs.History.{Placed};

    ghost Value = { List Placed };

    ghost use Rattle.lcr.specs.Chunks.{placed, is_chunk};

    ghost view = { λ c. map placed c.items.items };

    ghost invariant = { λ c. IsTrue (is_chunk (map placed c.items.items)) };
}

impl Chunk {
    /// The chunk of these change records; `is_chunk` tests whether they are one. It takes no memory.
    pub fn of(items: Vec<Lcr>) -> Chunk
        requires form { IsTrue (is_chunk (map placed items.items)) }
        ensures same { result ≡ map placed items.items }
    {
        Chunk { items }
    }

    /// What it holds, in order.
    #[tactic(auto, using(crate::proofs::Counting::chunk_some, crate::proofs::Counting::chunk_few))]
    pub fn items(&self) -> &[Lcr]
        ensures form { IsTrue (is_chunk self.now) }
        ensures some { 1 ≤ length result.now }
        ensures few { length result.now ≤ chunk_limit }
        ensures same { map placed result.now ≡ self.now }
    {
        self.items.as_slice()
    }

    /// Gives up what it holds, in order. It takes no memory.
    pub fn into_items(self) -> Vec<Lcr>
        ensures form { IsTrue (is_chunk self) }
        ensures same { map placed result.items ≡ self }
    {
        self.items
    }

    /// An equal one, which owns memory of its own.
    pub fn copy(&self) -> Result<Chunk, NoMemory>
        ensures equal { IfOk result (λ chunk. chunk ≡ self.now) }
    {
        match copied(&self.items) {
            Ok(items) => Ok(Chunk { items }),
            Err(NoMemory) => Err(NoMemory),
        }
    }
}

fn copied(items: &Vec<Lcr>) -> Result<Vec<Lcr>, NoMemory>
    ensures equal { IfOk result (λ copies. copies.items ≡ items.now.items) }
{
    let Ok(mut copies) = Vec::with_capacity(*items.allocator(), items.len()) else {
        return Err(NoMemory);
    };
    for lcr in items {
        let lcr = lcr.copy()?;
        if copies.push(lcr).is_err() {
            return Err(NoMemory);
        }
    }
    Ok(copies)
}
