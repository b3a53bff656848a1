//! Findings of audits that are about routes and summary-LSAs: where answers may not be trusted,
//! since routers may have other routes than they say, or announce other summaries than the database
//! has.
//!
//! Each public function returns the places of one kind of finding, in order.
#![tactic(auto)]

// What places are made from.
mod bits;
mod in_order;
mod places;
mod refreshed;

// Ways inside the AS.
mod inside;
mod preferring;
mod ways;

// External prefixes.
mod forward_unreached;
mod own_external;

// External routes with RFC1583Compatibility.
mod classless;
mod rfc1583;
mod same_route;

// Summary-LSAs.
mod announced;
mod missing;
mod missing_asbrs;
mod missing_at;
mod missing_nets;
mod not_due;

pub use forward_unreached::forward_unreached_places;
pub use missing::summary_missing_places;
pub use not_due::{summary_not_due_places, summary_raised_places};
pub use own_external::own_external_places;
pub use rfc1583::rfc1583_places;
