//! The outside of a standby: the devices that it reads and writes, what is known of what they hold, when they may
//! fail, and the gate at which a test may hold up a run.
#![tactic(auto)]

mod archive;
mod batch;
mod fault;
mod gate;
mod keeper;
mod sink;
mod source;
mod spill;

pub use archive::Archive;
pub use batch::{Batch, Item, Pair};
pub use fault::{Failed, PortFault};
pub use gate::{FreeGate, Gate, Point};
pub use keeper::Keeper;
pub use sink::Sink;
pub use source::Source;
pub use spill::Spill;
