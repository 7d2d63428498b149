//! The lines of the views of a standby, from what its publisher shows.
#![tactic(auto)]

mod events;
mod logs;
mod progress;
mod skips;
mod state;
mod words;
pub mod worked;

pub use events::event_lines;
pub use logs::log_lines;
pub use progress::progress_lines;
pub use skips::{rule_line, skip_lines};
pub use state::{level_word, state_lines};
