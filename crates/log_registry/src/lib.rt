//! The archived logs that a standby knows: how a log is accepted, and which one comes next.
#![tactic(auto)]

mod entry;
mod fault;
mod front;
mod inspecting;
mod next;
mod registry;

pub use entry::LogEntry;
pub use fault::RegFault;
pub use inspecting::{inspect, look};
pub use next::Next;
pub use registry::{LogList, Registry};
