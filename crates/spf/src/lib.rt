//! Shortest-path trees of an area (RFC 2328, 16.1): the distance of each vertex from one router,
//! and the order in which the vertices are reached.
//!
//! [`Tree::build`] is Dijkstra's algorithm over std's heap.
#![tactic(auto)]

mod dijkstra;
mod distances;
mod fault;
mod meter;
mod queue;
mod tree;

pub use fault::SpfFault;
pub use meter::Meter;
pub use tree::Tree;
