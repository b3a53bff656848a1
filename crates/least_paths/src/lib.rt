//! The edges on paths of least cost from a router to some vertices of an area (RFC 2328, 16.1).
//!
//! [`least_edges`] finds them by the router's shortest-path tree alone. From the farthest vertex to
//! the nearest it marks those from which a path of least cost goes on to a target. An edge is on
//! one where it leads from the distance of its start to that of a marked vertex.
#![tactic(auto)]

mod edge_rows;
mod least_edge;
mod marks;

// What holds of the definitions.
mod laws;

pub use edge_rows::least_edges;
pub use laws::{edges_on_least_paths, least_paths_by_distances};
pub use least_edge::LeastEdge;
