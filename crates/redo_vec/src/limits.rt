//! The sizes of a record. They are this project's own.

/// A record has at least this many bytes: its length, its SCN, its count of vectors, and the kind of one.
pub const MIN_RECORD: usize = 15;

/// A record has at most this many bytes.
pub const MAX_RECORD: usize = 65_536;

/// A record has at most this many vectors, and one at least.
pub const MAX_VECTORS: usize = 255;
