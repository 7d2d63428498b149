//! Transaction ids, as the primary database gives them.
//!
//! An id is used again once its transaction has ended, so a live transaction is told apart
//! by the position of its START.

/// A transaction id: undo segment, slot in it, and sequence, the count of the slot's uses.
#[derive(Clone, Copy, Debug, PartialEq, Eq, PartialOrd, Ord)]
pub struct Xid {
    /// The number of the undo segment.
    pub usn: u16,
    /// The slot in the undo segment.
    pub slot: u16,
    /// How often the slot was used.
    pub sqn: u32,
}
