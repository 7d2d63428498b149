//! What a redo means: definitions that contracts cite.
#![tactic(auto)]

mod header;
pub mod laws;
pub mod worked;
pub mod worked_bytes;

pub use header::Header;
