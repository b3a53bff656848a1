//! The neighbors to which a route leads over one interface with several of them, as over
//! point-to-multipoint (RFC 2328, 12.4.1.4): those with whose link a path of least cost to a target
//! of the route begins.
#![tactic(auto)]

mod neighbors;

pub use neighbors::first_ends;
