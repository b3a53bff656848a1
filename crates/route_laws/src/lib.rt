//! Laws over the definition of routing tables: the routes within areas and between them are the
//! best of all ways (RFC 2328, 16.1 and 16.2).
//!
//! The definition of what an area gives keeps to each prefix only the area's own best ways, as the
//! calculation does. The laws say that nothing is lost by this: the routes are the best of the
//! ways of all areas, none of them left out before.
#![tactic(auto)]

mod laws;

pub use laws::{
    best_routes_are_one, inter_routes_are_best, intra_routes_are_best, tables_have_best_routes,
};
