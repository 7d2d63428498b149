//! Decodes a cut record, and keeps records in a window, which takes their pieces in any order and gives them in that of
//! their numbers.
#![tactic(auto)]

mod laws;
mod piece;
mod ring;
mod slot;
mod window;

pub use laws::{pieces_are_drawn_in_order, the_window_stands_for_its_records};
pub use piece::{Made, Piece, prepare};
pub use window::{MAX_PENDING, Unposted, Window};
