//! Headers of archived logs, and the cutting of a log's bytes into redo records.
#![tactic(auto)]

mod cutter;
mod cutting;
mod header;
mod numbers;
mod pieces;
mod raw;

pub use cutter::Cutter;
pub use header::{HEADER_LENGTH, read_header};
pub use pieces::{pieces_do_not_matter, pieces_give_the_records};
pub use raw::{Fed, Raw, Raws};
pub use redo_spec::Header;
