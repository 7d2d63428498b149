//! The generated workload: the logs of a seed and a count of transactions.
#![tactic(auto)]

mod accounts;
mod balances;
mod bodies;
mod drawing;
mod draws;
mod header;
mod laws;
mod left;
mod logs;
mod pair;
mod text;
pub mod worked;
mod written;

pub use laws::{a_workload_ends_each_transaction, a_workload_has_no_gap, a_workload_is_spelled};
pub use logs::generate;
