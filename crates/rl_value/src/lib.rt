//! The values of a redo record, the order of rows and keys, and the words in which the redo and a run over it
//! are refused. Everything above speaks of these types; they stand on nothing of this project.
#![tactic(auto)]

mod bin;
mod bytes;
mod cause;
mod cells;
mod key;
mod keys;
mod limits;
mod memory;
mod miss;
mod name;
mod pos;
mod row;
mod scn;
mod txt;
mod value;
mod verdict;
mod xid;

pub use bin::Bin;
pub use bytes::Bytes;
pub use cause::{Cause, CutFault, HeadFault, LawFault, VecFault};
pub use cells::Cells;
pub use key::Key;
pub use keys::Keys;
pub use limits::{MAX_COLUMNS, MAX_NAME, MAX_VALUE};
pub use memory::NoMemory;
pub use miss::Miss;
pub use name::Name;
pub use pos::Pos;
pub use row::Row;
pub use scn::Scn;
pub use txt::{Txt, TxtFault};
pub use value::Value;
pub use verdict::{Stop, Verdict};
pub use xid::Xid;
