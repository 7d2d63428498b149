//! Archived logs as text: written from one, and shown as one, record by record.
#![tactic(auto)]

mod draft;
mod fault;
mod fault_line;
mod heading;
mod laws;
mod showing;
mod sizes;
mod streaming;
mod writing;

pub use fault::WriteFault;
pub use fault_line::{LogFault, show_fault};
pub use laws::{
    a_fault_is_shown_where_there_is_one, a_shown_log_is_said, a_spelled_log_is_shown,
    a_text_says_a_log, pieces_are_shown_as_one,
};
pub use redo_lines::{
    LineFault, ReadFault, a_printed_vector_is_read, note_vector, print_vector, read_vector,
};
pub use showing::{show_header, show_record};
pub use streaming::Shown;
pub use writing::write_log;
