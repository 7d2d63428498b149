//! Rows in memory, plainly: ordered maps by table and primary key, and beside them an index of their unique values and how
//! many they are.
#![tactic(auto)]

mod based;
mod checking;
mod fault;
mod indexing;
mod plain_rows;
mod plain_tables;
mod unique_index;
mod unique_values;
mod writing;

pub use based::Based;
pub use fault::KeepFault;
pub use indexing::{Kept, keep};
pub use plain_tables::{PlainList, PlainTables};
pub use unique_index::UniqueIndex;
pub use writing::put_in;
