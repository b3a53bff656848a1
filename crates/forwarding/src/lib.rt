//! Forwarding graphs: where packets for an address go, router by router.
//!
//! A [`Forwarding`] has what is needed of a database: the graphs of its areas, and of each attached
//! router its table and the external prefixes that it announces. Of an address it gives the
//! [`ForwardingGraph`]: each router's match, and the ways of it to other routers, to networks of
//! its own and out of the network. Walks in it are the paths of packets.
#![tactic(auto)]

// The match of an address.
mod entry;
mod own_externals;
mod router_routes;
mod table_basis;

// Forwarding graphs and walks in them.
mod ends;
mod forwarding;
mod graph;
mod loop_free;
mod loops;
mod on_the_way;
mod reached;

// What holds of the definitions.
mod laws;

pub use ends::Ends;
pub use entry::Match;
pub use forwarding::Forwarding;
pub use graph::{ForwardingGraph, RouterStep};
pub use laws::matches_are_longest;
pub use loops::Loop;
pub use router_routes::RouterRoutes;
