//! What a script prints and leaves: the definitions that the contracts of `run` cite, from the bytes of a script and of the logs
//! to the printed lines and the kept state.
//!
//! There is no program code here. All that is determined is a function that computes; what a run leaves free is a relation.
#![tactic(auto)]

pub mod worked;
