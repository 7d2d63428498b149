//! Tests of `redo_vec`, `redo_dict`, `redo_law`: what no clause says, as that ample memory is enough.
//!
//! They stand apart, so that each crate is proved once, and a test that changes makes no other crate be proved again.
#![tactic(auto)]

#[cfg(test)]
mod admission;
#[cfg(test)]
mod dictionary;
#[cfg(test)]
mod records;
