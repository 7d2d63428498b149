//! Queries over the tables behind a commit, what they are answered, and the lines of their answers.
#![tactic(auto)]

mod answer;
mod asking;
mod asks;
mod key_form;
pub mod laws;
mod limits;
mod lines;
mod query;
mod session;
mod table_rows;
pub mod worked;

pub use answer::{Answer, RowLines};
pub use asking::ask;
pub use asks::{Ask, Asks};
pub use key_form::{is_key_of, may_be_asked};
pub use limits::{MAX_ROWS_AT_ONCE, MAX_ROWS_DURING};
pub use lines::{answer_lines, ask_lines};
pub use query::{Form, Query};
pub use session::Session;
