//! The publisher of a logical standby: the one place where what is shown changes. A commit is durable first, and visible then.
#![tactic(auto)]

mod batches;
mod commit;
mod fault;
mod fetch;
mod group;
mod keeping;
mod merged;
mod next;
mod permitted;
mod prepared;
mod publisher;
mod publishing;
mod registering;
mod rows_put;

pub use commit::{Commits, MAX_GROUP};
pub use fault::{GroupFault, PubFault};
pub use fetch::Fetch;
pub use publisher::Publisher;
