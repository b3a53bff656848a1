//! The routers that next hops lead to (RFC 2328, 16.1.1), and the ways of routes.
//!
//! [`AreaGraphs`] has the graphs of all areas of a database. Of an interface it gives the routers
//! at the other ends of its links, those of them to which a route leads, and the routers with an
//! address on its network. [`ways_of`] gives where the next hops of a route lead: each [`Way`]
//! goes to another router, to a network of the router itself, or out of the network.
#![tactic(auto)]

// Lists of routers.
mod rising;

// The routers that next hops lead to.
mod area_graphs;
mod ends_over;
mod far_ends;
mod owners;
mod targets;
mod views;

// The ways of routes.
mod way;
mod ways;

pub use area_graphs::AreaGraphs;
pub use far_ends::push_some;
pub use rising::in_order;
pub use way::Way;
pub use ways::ways_of;
