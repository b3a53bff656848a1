//! What routers use for prefixes, what becomes of packets, and what expectations say of both.
//!
//! [`routes_of`] answers what a router uses, by neighbor, and [`path_of`] how packets go, router by
//! router. Both are of one database. [`has_route`], [`meets`] and [`path_holds`] decide what is
//! expected of them.
#![tactic(auto)]

// The links that ways lead over.
mod found;
mod sought;

// Ways and routes.
mod line;
mod routes;
mod way;

// Paths.
mod path;
mod step;

// Expectations.
mod passing;
mod path_condition;
mod route_condition;

pub use line::route_line;
pub use path::path_of;
pub use path_condition::path_holds;
pub use route_condition::{has_route, hops_of, meets, push_found_route};
pub use routes::{route_of, routes_of};
