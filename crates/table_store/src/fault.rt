//! Why written rows cannot be put into tables.

/// `Memory` may come before `RowLimit` is known.
#[derive(Clone, Copy, Debug, PartialEq, Eq)]
pub enum StoreFault {
    /// More than 2^20 rows would be live behind all the writes.
    RowLimit,
    /// There is no memory for them.
    Memory,
}
