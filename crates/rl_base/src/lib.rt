//! How a command ends, the lines that a command prints, and the events of a run.
#![tactic(auto)]

mod events;
mod line;
mod lines;
mod replay;
mod status;
mod which;

pub use events::{EventLines, Events, MAX_EVENTS};
pub use line::{LF, Line};
pub use lines::Lines;
pub use replay::{Event, Events9};
pub use status::Status;
pub use which::Which;
