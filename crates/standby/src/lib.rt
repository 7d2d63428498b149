//! The top calls of the standby: a command, given by its words, is done over five devices.
//!
//! Begin with `still.rt`, the call, and `specs/Answers.antt`, the table of its answers.
#![tactic(auto)]

mod command;
mod ended;
mod finished;
mod fold;
mod folding;
mod output;
mod printing;
mod reading;
mod say;
mod still;
mod unused;
mod verdict_words;
mod words;

pub use ended::Ended;
pub use say::refuse;
pub use still::sqlapply_still;
pub use unused::Unused;
