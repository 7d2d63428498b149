//! The dictionary of a redo: which tables it takes, and which changes and rows it accepts.
#![tactic(auto)]

mod change_form;
mod dict;
mod fault;
mod row_form;
mod search;
mod table_form;

pub use dict::Dict;
pub use fault::{ChangeFault, DictFault};
