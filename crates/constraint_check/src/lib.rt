//! Whether written rows meet the constraints of their tables, judged together at the end of a commit, as deferred constraints are.
#![tactic(auto)]

mod checking;
mod unique_values;
mod written_rows;

pub use checking::meets_constraints;
