//! What a run of a logical standby does: where it begins, how it ends, and which marks it keeps.
#![tactic(auto)]

pub mod between;
pub mod broken;
pub mod laws;
