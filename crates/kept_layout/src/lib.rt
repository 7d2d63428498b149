//! The pairs of a durable store, one by one: the items that a kept state is written as, and what each pair says.
#![tactic(auto)]

mod identity;
mod items;
mod numbers;
mod pairs;
mod rows;
mod spelling;

pub use identity::Identity;
pub use items::{
    applied_item, log_item, mark_item, row_drop, row_item, skip_item, standby_item, table_item,
    write_item,
};
pub use pairs::{applied_in, identity_in, log_in, mark_in, skip_in, table_in};
pub use rows::{row_in, row_place_in};
