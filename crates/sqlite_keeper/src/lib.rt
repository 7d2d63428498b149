//! The durable store as a table of the SQLite file `standby.db`.
//!
//! It tells nothing of what it holds, since nothing can be proved of a file. It counts its failures.
#![tactic(auto)]

mod keeper;
mod pair_table;
mod reason;
mod statements;
mod threads;

pub use keeper::SqliteKeeper;
pub use reason::Reason;
pub use threads::keeper_may_be_sent;
