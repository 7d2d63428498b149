//! Devices in memory: each in a form that fails at the calls it is told to, and, but for the sink, in one that
//! never fails. All tell what they hold.
#![tactic(auto)]

mod archive;
mod calls;
mod keeper;
mod room;
mod rows;
mod sink;
mod source;
mod spill;

pub use archive::{MemArchive, SureArchive};
pub use keeper::{MemKeeper, SureKeeper};
pub use sink::MemSink;
pub use source::{MemSource, SureSource};
pub use spill::{MemSpill, SureSpill};
