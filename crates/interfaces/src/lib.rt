//! The interfaces that router-LSAs describe, the far ends of point-to-point links, and the routers
//! of transit networks (RFC 2328, 12.4.1, 12.4.2 and 16.1).
//!
//! A numbered point-to-point interface has two links in its router's LSA: one of type 1 to the
//! neighbor, and right after it one of type 3. [`interfaces_of`] puts them together, and
//! [`interfaces_in`] does so for a router in an area. [`far_ends`] answers which interfaces of the
//! neighbor are at the other end of one, and [`far_ends_in`] looks the neighbor up.
#![tactic(auto)]

// Routers and their interfaces.
mod interface;
mod router_lsa;

// The other ends of links.
mod back;
mod ends;
mod networks;

// What holds of the definitions.
mod laws;

pub use back::{addrs_of, costs_back, stub_between};
pub use ends::{far_ends, far_ends_in};
pub use interface::{Interface, interfaces_of};
pub use laws::{far_ends_lead_back, links_with_far_ends_are_edges};
pub use networks::{Member, lists_router, members_of, network_lsa_in};
pub use router_lsa::{interfaces_in, router_lsa_of};
