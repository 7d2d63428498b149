//! The sizes of names, values and rows.
//!
//! They are this project's own. What has such a size is defined in specs/Text.antt.

/// A text or a raw value has at most this many bytes. It has one at least: an empty one is Null.
pub const MAX_VALUE: usize = 500;

/// A name of a schema, a table, a column or a session has at most this many bytes, and one at least.
pub const MAX_NAME: usize = 30;

/// A table has at most this many columns, and so has a row, a key or the cells of a change. Columns count from 0.
pub const MAX_COLUMNS: usize = 32;
