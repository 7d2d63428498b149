//! Change vectors as lines of words, read and printed.
#![tactic(auto)]

mod laws;
mod printing;
mod printing_changes;
mod printing_tables;
mod reading;
mod reading_changes;
mod reading_tables;

pub use laws::{a_line_says_what_fits, a_printed_vector_is_read};
pub use line_fields::{
    LineFault, ReadFault, a_printed_number_is_read, decimal_of, few_columns, is_word, joined,
    joined_two, note_vector, number_of, push_bytes, push_part, split,
};
pub use printing::{print_vector, put_keyword};
pub use printing_tables::raw_literal;
pub use reading::{read_vector, vector_of_words};
