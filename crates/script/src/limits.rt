//! The limits of a script.

/// The most bytes of a script.
pub const MAX_BYTES: usize = 1 << 20;

/// The most statements of a script.
pub const MAX_STATEMENTS: usize = 10_000;
