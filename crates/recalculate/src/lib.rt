//! A planner: a link state database with the edits that are done on it, and those that were undone.
#![tactic(auto)]

mod copying;
mod counts;
mod laws;
mod planner;
mod study;
mod table_cache;
mod touched;

pub use counts::Info;
pub use laws::{tables_keep_their_own_trees, untouched_trees_stay};
pub use planner::Planner;
pub use routing_table::{
    Table, TableFault, routers, routers_are_attached, table_of, tables_are_over_all_paths,
};
