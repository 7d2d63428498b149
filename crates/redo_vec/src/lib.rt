//! Records of the redo and their vectors.
#![tactic(auto)]

mod change;
mod columns;
mod decoding;
mod encoding;
mod encoding_changes;
mod encoding_fields;
mod encoding_tables;
mod fault;
mod fields;
mod keys;
mod laws;
mod limits;
mod line30;
mod reading_changes;
mod reading_tables;
mod redo_rec;
mod table;
mod vector;

pub use change::{Change, Op};
pub use columns::{Column, Columns, Kind};
pub use decoding::{decode_record, vector_of};
pub use encoding::{encode_record, one_spelling};
pub use encoding_changes::{put_change, put_value};
pub use encoding_fields::{put_short, put_u16, put_u32, put_u64, put_xid};
pub use encoding_tables::put_table;
pub use fault::DecodeFault;
pub use fields::{bytes_of, u8_at, u16_at, u32_at, u64_at, xid_of};
pub use keys::{KeyColumns, KeyLists};
pub use laws::{
    a_read_record_is_spelled, a_read_vector_is_spelled, a_spelled_record_is_read,
    a_spelled_vector_is_read,
};
pub use limits::{MAX_RECORD, MAX_VECTORS, MIN_RECORD};
pub use line30::Line30;
pub use reading_changes::value_of;
pub use reading_tables::table_of;
pub use redo_rec::RedoRec;
pub use table::TableRow;
pub use vector::{Vector, Vectors};
