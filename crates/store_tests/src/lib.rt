//! Tests of `checkpoint`: what no clause says, as that ample memory is enough.
//!
//! They stand apart, so that the crate is proved once, and a test that changes makes no other crate be proved again.
#![tactic(auto)]

#[cfg(test)]
mod loads;
