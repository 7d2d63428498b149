//! Words of a line, and what single fields say: numbers, transaction ids, names, values, and tables and columns that are known.
#![tactic(auto)]

mod fault;
mod fields;
mod known;
mod laws;
mod words;

pub use fault::{LineFault, ReadFault};
pub use fields::{is_name, name_of, number_of, u32_of, value_of, xid_of};
pub use known::{
    column_of, column_word, columns_known, copied, decimal_of, few_columns, note_vector, table_of,
    table_word,
};
pub use laws::a_printed_number_is_read;
pub use script_words::is_word;
pub use words::{joined, joined_two, push_bytes, push_part, split};
