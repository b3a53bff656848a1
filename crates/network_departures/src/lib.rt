//! Routers that leave transit networks, or fail: the networks that each leaves, the routers that
//! stay on them, and what these originate then (RFC 2328, 9.4, 12.4.1 and 12.4.2).
//!
//! [`networks_left`] returns the network-LSAs of the networks that a [`Departure`] is from, and
//! [`network_after`] the network-LSA that is there afterwards, perhaps of a successor.
//! [`links_after`] answers what becomes of each link of a router-LSA. `specs/` says what each is.
#![tactic(auto)]

// Routers that go.
mod departure;

// The networks that they leave.
mod leaving;
mod staying;
mod successor;

// What others originate then.
mod link_changes;
mod rebuilding;

pub use departure::Departure;
pub use leaving::{is_left, networks_left};
pub use link_changes::links_after;
pub use rebuilding::network_after;
