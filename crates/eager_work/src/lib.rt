//! What an applier makes of a transaction's changes ahead of its commit.
#![tactic(auto)]

mod commit;
mod did;
mod gathering;
mod job;
pub mod laws;
mod left;
mod part;
mod tries;
mod waiting;
mod work;

pub use commit::Commit;
pub use job::{Job, Outcome, run_job};
pub use work::Work;
