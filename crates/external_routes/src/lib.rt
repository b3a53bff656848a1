//! The external routes of a router (RFC 2328, 16.4 and 16.4.1), and the metrics that area border
//! routers announce (12.4.3).
//!
//! [`externals`] examines the AS-external-LSAs of a database. Each path leads over a way inside the
//! AS, which the crate `area_routes` has found.
#![tactic(auto)]

// Which areas a router is attached to.
mod areas;

// Ways inside the AS: which is preferred, and how they are looked up.
mod asbr_map;
mod choose;
mod forward;
mod inside;
mod place;

// The metrics of summary-LSAs.
mod coverage;
mod due_metric;

// The paths of AS-external-LSAs, and the routes that they make.
mod candidates;
mod external_lsas;
mod routes;

pub use choose::preferred;
pub use coverage::{covered, is_calculated};
pub use due_metric::{asbr_of_summary, due, is_among, metric_for};
pub use external_lsas::{ExternalLsa, ExternalLsas};
pub use routes::externals;
