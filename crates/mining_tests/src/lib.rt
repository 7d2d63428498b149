//! Tests of `redo_wire`, `log_registry`, `redo_reader`, `preparers`, `redo_lines`, `redo_text`, `lcr`, `log_miner`: what no clause
//! says, as that ample memory is enough.
//!
//! They stand apart, so that each crate is proved once, and a test that changes makes no other crate be proved again.
#![tactic(auto)]

#[cfg(test)]
mod chunks;
#[cfg(test)]
mod cutting;
#[cfg(test)]
mod log_lines;
#[cfg(test)]
mod log_texts;
#[cfg(test)]
mod mining;
#[cfg(test)]
mod preparing;
#[cfg(test)]
mod reading;
#[cfg(test)]
mod registry;
#[cfg(test)]
mod shelf;
