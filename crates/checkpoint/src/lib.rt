//! The kept state of a standby, loaded from its durable store: the state, that nothing is kept, or the first key that is not in
//! the layout.
#![tactic(auto)]

mod applied;
mod area;
mod beginning;
mod fault;
mod image;
mod loading;
mod logs;
mod rows;
mod rules;
mod tables;

pub use fault::LoadFault;
pub use image::{Image, Loaded};
pub use loading::load;
pub use standby_spec::Mark;
