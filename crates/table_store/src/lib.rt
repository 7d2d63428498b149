//! Tables that a snapshot costs nothing of: each table and each of its unique keys is a tree of shared blocks.
#![tactic(auto)]

mod counts;
mod fault;
mod kept_rows;
mod owner;
mod row_list;
mod shared_table;
mod stored_table;
mod table_list;
mod tables;
mod unique_lead;
mod view;

pub use fault::StoreFault;
pub use row_list::RowList;
pub use tables::{Tables, tables_are_for_threads};
pub use view::View;
