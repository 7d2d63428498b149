//! SQL texts of changes, and the lines of a log's contents.
#![tactic(auto)]

mod expression;
mod line;
mod lists;
mod output;
mod statement;
pub mod worked;

pub use line::{change_line, contents, word_line};
pub use statement::{sql_redo, sql_undo};
