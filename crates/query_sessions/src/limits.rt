//! How many rows an answer has at most. More rows that match are told by their number alone.

/// Of a query at once: as many rows as may be live.
pub const MAX_ROWS_AT_ONCE: u64 = 1_048_576;

/// Of a query that waits for a run.
pub const MAX_ROWS_DURING: u64 = 4_096;
