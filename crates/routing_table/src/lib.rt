//! The routing table of a router (RFC 2328, 11 and 16).
//!
//! [`table_of`] makes it from a link state database alone, [`table_from`] from what the areas give
//! to which a router is attached, as [`KeptTrees::results_of`] returns it.
#![tactic(auto)]

mod area_trees;
mod attached;
mod kept_trees;
mod laws;
mod preference;
mod spare_area;
mod table;

pub use area_trees::AreaTrees;
pub use attached::routers;
pub use kept_trees::KeptTrees;
pub use laws::{routers_are_attached, tables_are_over_all_paths};
pub use table::{Table, TableFault, table_from, table_of};
