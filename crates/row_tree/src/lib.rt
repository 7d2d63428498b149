//! Rows by their keys, as a tree of shared blocks: a snapshot costs two counts, and a write copies one block a level.
#![tactic(auto)]

mod head;
mod item;
mod level;
mod node;
mod part;
mod seek;
mod tree;
mod walk;

pub use tree::{Tree, TreeEntries, tree_is_for_threads};
