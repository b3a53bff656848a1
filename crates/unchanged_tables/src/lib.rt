//! Routing tables that changes of metrics leave as they are (RFC 2328, 16.1).
//!
//! A metric of a router-LSA matters for a router's table only where its link is on a path of least
//! cost from the router, before or after the change. Where none is, the distances, the next hops
//! and so the table stay, and no tree has to be calculated to know it.
#![tactic(auto)]

mod cost_changes;
mod deciding;
mod distances;
mod laws;
mod steady;

pub use cost_changes::{AreaChange, cost_change};
pub use deciding::is_unchanged;
pub use laws::{steady_changes_leave_results, steady_changes_leave_tables};
