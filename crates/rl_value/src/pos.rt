//! Positions in the redo.
//!
//! A change, a START or a COMMIT is named by its position and never by its contents,
//! so two equal changes stay apart.

/// A position in the redo, ordered by record and then by vector.
#[derive(Clone, Copy, Debug, PartialEq, Eq, PartialOrd, Ord)]
pub struct Pos {
    /// The record's number, from 1 over all logs of a standby.
    pub rec: u64,
    /// The vector's number in its record, from 1.
    pub vec: u8,
}
