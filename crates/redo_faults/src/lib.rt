//! The words of the faults by which a log cannot be read on.
#![tactic(auto)]

mod words;

pub use words::{cut_word, head_word, vector_word};
