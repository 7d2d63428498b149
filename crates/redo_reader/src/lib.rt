//! Reads the redo of registered logs from an archive, block by block, as records that are cut and not yet decoded.
#![tactic(auto)]

mod advance;
mod blocks;
mod cut;
pub mod laws;
mod place;
mod progress;
mod read_side;

pub use cut::{Cut, CutError};
pub use place::Place;
pub use read_side::ReadSide;
