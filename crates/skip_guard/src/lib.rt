//! Which changes are passed over by the standby, and which tables its users may write.
//!
//! A skip rule names tables by a pattern, or a transaction by its id, and counts from a commit on. The guard lets
//! users write the tables that are not maintained, and no others.
#![tactic(auto)]

mod entry;
mod full_name;
mod guard;
mod matching;
mod naming;
mod pattern;
mod pattern_form;
mod skips;

pub use entry::{SkipEntry, SkipFault, SkipRule};
pub use guard::{Level, allowed};
pub use pattern::Pattern;
pub use skips::Skips;
