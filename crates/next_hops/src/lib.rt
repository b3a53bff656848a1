//! The equal-cost next hops of each vertex of an area (RFC 2328, 16.1.1).
//!
//! A [`Hop`] is the first step of packets to a destination. [`Hops`] has, for each vertex of an
//! area's graph, the first hops of all paths of least cost from the calculating router.
#![tactic(auto)]

mod handed;
mod hop;
mod hops;
mod joins;
mod laws;
mod list;
mod passage;
mod passing;
mod renumbered;
mod shared;
mod storage;
mod table;

pub use hop::Hop;
pub use hops::Hops;
pub use laws::{hop_equality, hop_order, hops_law};
pub use list::HopList;
