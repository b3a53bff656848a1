//! Observations of LSAs, joined into a link state database and so into its dump.
//!
//! Files report observations, which are instances of LSAs, each with its scope; and areas, each
//! with its kind. [`join`] makes the database whose sections have the newest of them.
//! [`lsdb::Database::dump`] writes its dump. It depends on which observations and areas there are,
//! and not on their order.
#![tactic(auto)]

mod area;
mod fault;
mod joining;
mod laws;
mod scopes;
mod section;

pub use fault::JoinFault;
pub use joining::join;
pub use laws::joined_in_any_order;
