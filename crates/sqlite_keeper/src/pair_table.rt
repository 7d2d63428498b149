//! A connection as the keeper knows it: opened at a path, with a table of pairs that is committed to and read a block at a time.
//!
//! The keeper is written over these traits and not over SQLite's types: a proof about a value of those costs much, and about any
//! type that has these calls nearly nothing. What a connection holds after an error is not known; the keeper drops it then.
use crate::reason::Reason;
use rl_ports::{Item, Pair};
use sqlite::Error;

/// The pairs behind a key of an area, as far as one block goes.
#[derive(Drop)]
pub struct Block {
    /// The last first, so that the next one is taken off the end.
    pub pairs: Vec<Pair>,
    /// Whether the area has no pair behind them.
    pub whole: bool,
}

/// A connection to a file.
pub trait OpensAt {
    /// Opens the file at this path, or makes it.
    fn open_at(rt: &HostRuntime, path: &str) -> Result<Self, Error>;

    /// Leaves all that was committed in the file alone, and closes it.
    fn end(self) -> Result<(), Error>;
}

/// A connection to a table of pairs.
pub trait PairTable {
    /// Makes the table unless it is there.
    fn make(&mut self) -> Result<(), Reason>;

    /// Does the items in their order, all or none.
    fn commit(&mut self, items: &[Item]) -> Result<(), Reason>;

    /// The pairs of the area behind this key, as far as a block goes.
    fn block_after(&mut self, area: u8, key: &[u8]) -> Result<Block, Reason>;
}
