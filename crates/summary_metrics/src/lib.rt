//! The metrics of summary-LSAs that their originators, area border routers, should announce (RFC
//! 2328, 12.4.3).
//!
//! [`SummaryMetrics`] returns the metric that a stale summary-LSA should have. It keeps what it
//! calculates for one database.
#![tactic(auto)]

mod asbr_entries;
mod attached_areas;
mod border_costs;
mod by_router;
mod due_metric;
mod in_order;
mod inside;
mod laws;
mod metrics;
mod nets;
mod sources;

pub use laws::summaries_settle;
pub use metrics::SummaryMetrics;
