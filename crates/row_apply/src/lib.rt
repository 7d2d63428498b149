//! The effect of a change on the rows that it finds, over written rows that nobody else sees yet.
#![tactic(auto)]

mod additions;
mod change_effect;
mod copies;
mod fault;
mod index;
mod key_values;
pub mod laws;
mod new_rows;
mod other_owners;
mod overlay;
mod rows;
mod seen;
mod writes;
mod written;

pub use change_effect::effect;
pub use fault::EffectFault;
pub use key_values::{has_null, key_row, unique_keys};
pub use overlay::Overlay;
pub use rows::Rows;
pub use writes::{Write, Writes};
