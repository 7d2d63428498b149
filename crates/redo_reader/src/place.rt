//! Where the next record of the redo stands.

/// A place between two records of the redo. The record behind it has the number `rec + 1`.
#[derive(Clone, Copy, Debug, PartialEq, Eq)]
pub struct Place {
    /// The log that is read.
    pub seq: u32,
    /// The offset in that log, in bytes; the 40 bytes of the header count.
    pub at: u64,
    /// How many records of that log stand before.
    pub done: u32,
    /// How many records of the whole redo stand before.
    pub rec: u64,
}
