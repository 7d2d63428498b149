//! System change numbers.
//!
//! Records of the redo are ordered by them. A commit has a number of its own besides, counted from 1.

/// A system change number (SCN): the place of a change in the primary database's logical time.
pub type Scn = u64;
