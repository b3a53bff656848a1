//! The best ways to each destination, and routes by them (RFC 2328, 11).
//!
//! [`BestWays`] picks the best ways to each destination from any number of candidates, and joins
//! those that are equally good.
#![tactic(auto)]

// What routes are.
mod areas;
mod rank;
mod route;
mod route_list;

// The best of many candidates.
mod best;
mod best_routes;
mod contender;
mod merge;
mod way;

// What holds of the definitions.
mod laws;

pub use areas::AreaList;
pub use best::BestWays;
pub use laws::{rank_order, ways_are_best};
pub use rank::{PathType, Rank};
pub use route::Route;
pub use route_list::Routes;
pub use way::Way;
