//! A script: its statements, each with its line, read from bytes.
//!
//! The grammar is `specs/Statements.antt`; how bytes are lines, and a script, is `specs/Lines.antt`.
#![tactic(auto)]

mod events;
mod fault;
mod fields;
mod grammar;
mod laws;
mod limits;
mod lines;
mod parsing;
mod run_statements;
mod script;
mod settings;
mod standby_statements;
mod statement;
mod user_statements;
mod values;
pub mod worked;

pub use fault::ScriptFault;
pub use laws::a_long_script_is_refused_alike;
pub use limits::{MAX_BYTES, MAX_STATEMENTS};
pub use parsing::parse;
pub use script::Script;
pub use statement::{Asked, Statement, TableName};
pub use values::Values;
