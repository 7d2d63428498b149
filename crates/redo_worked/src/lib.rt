//! More worked examples of the definitions of `redo_spec`. Nothing stands on this crate, so a further example makes no other
//! crate be proved again.
#![tactic(auto)]

pub mod examples;
pub mod single_bytes;
