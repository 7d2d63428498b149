//! A lock that is tied to one run: what is taken from it stands for its run's tag, and its rank never falls.
//!
//! `TagLock` owns the locked value, a `Seat` is the right to take it, and a `Held` has it until it is given back.
//! What a value stands for is said by `Tagged`, and the tag that a value names by `Names`.
#![tactic(auto)]

mod guard;
mod lock;
mod meaning;
mod origin;
mod rule;
mod steps;
mod tells;
mod token;

pub use guard::Held;
pub use lock::TagLock;
pub use meaning::{Names, Tagged};
pub use token::Seat;
