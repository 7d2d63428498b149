//! The reference evaluator: committed transactions one after another over ordered maps, which every other way to apply a
//! redo is compared with.
#![tactic(auto)]

mod effects;
mod evaluator;
mod fault;
pub mod laws;
mod live_changes;
mod plain;
mod plain_fold;
mod running;

pub use evaluator::Evaluator;
pub use fault::TakeFault;
pub use plain::{Folded, Plain};
pub use plain_fold::fold_plain;
pub use plain_store::{PlainList, PlainTables};
