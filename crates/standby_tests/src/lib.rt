//! Tests of `kept_layout`, `script_words`, `script`, `view_lines`, `query_sessions`, `workload`, `standby`: what no clause says, as
//! that ample memory is enough.
//!
//! They stand apart, so that each crate is proved once, and a test that changes makes no other crate be proved again.
#![tactic(auto)]

#[cfg(test)]
mod kept_parts;
#[cfg(test)]
mod log_files;
#[cfg(test)]
mod queries;
#[cfg(test)]
mod scripts;
#[cfg(test)]
mod top_call;
#[cfg(test)]
mod views;
#[cfg(test)]
mod words;
#[cfg(test)]
mod workloads;
