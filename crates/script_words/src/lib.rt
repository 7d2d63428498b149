//! The words of a script's line, and what single words say: numbers, names, transaction ids.
//!
//! How a line is cut: specs/Words.antt. What a word says: specs/Numbers.antt and specs/Parts.antt.
#![tactic(auto)]

mod fault;
mod laws;
mod numbers;
mod parts;
mod words;

pub use fault::WordsFault;
pub use laws::words_join_to_their_line;
pub use numbers::{number_in, of_16_bits, of_32_bits, of_64_bits, sequence, u8_in, u32_in};
pub use parts::{behind_front, cut_at, name_of, xid_of};
pub use words::{is_word, words_of};
