//! The contents of a log, record by record, in both modes.
#![tactic(auto)]

mod ended;
mod going;
pub mod laws;
mod live;
mod lives;
mod mined;
mod miner;
mod vectors;
pub mod worked;

pub use mined::{Mined, MinedLines};
pub use miner::Miner;
pub use sql_text::{contents, sql_redo, sql_undo};
