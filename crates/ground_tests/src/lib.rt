//! Tests of `rl_value`, `rl_base`, `rl_ports`, `rl_mem`, `rl_text`, `tag_lock`: what no clause says, as that ample memory is enough.
//!
//! They stand apart, so that each crate is proved once, and a test that changes makes no other crate be proved again.
#![tactic(auto)]

#[cfg(test)]
mod events;
#[cfg(test)]
mod literals;
#[cfg(test)]
mod locks;
#[cfg(test)]
mod memory_ports;
#[cfg(test)]
mod ports;
#[cfg(test)]
mod values;
