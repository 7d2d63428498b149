//! Lines and literals as bytes: what is read from a source and written to a sink, and how values stand in a line.
#![tactic(auto)]

mod input;
mod literal;
mod output;
mod reading;

pub use input::{ReadFault, read_all};
pub use literal::{put_key, put_row, put_value, put_xid};
pub use output::put_line;
pub use reading::{literals_have_one_value, read_value};
