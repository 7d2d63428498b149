//! Tests of `row_apply`, `skip_guard`, `plain_store`, `primary`, `row_tree`, `table_store`, `constraint_check`: what no clause says,
//! as that ample memory is enough.
//!
//! They stand apart, so that each crate is proved once, and a test that changes makes no other crate be proved again.
#![tactic(auto)]

#[cfg(test)]
mod constraints;
#[cfg(test)]
mod effects;
#[cfg(test)]
mod folds;
#[cfg(test)]
mod lines;
#[cfg(test)]
mod plain_rows;
#[cfg(test)]
mod row_trees;
#[cfg(test)]
mod skip_rules;
#[cfg(test)]
mod stored_tables;
