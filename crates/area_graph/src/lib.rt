//! The graph of an area (RFC 2328, 16.1): its vertices, which are routers and transit networks,
//! and the edges out of each.
//!
//! [`Graph`] numbers the vertices from 0 in the order of their LSAs in the area.
#![tactic(auto)]

// What a graph is.
mod cost_change;
mod edge;
mod fault;
mod graph;
mod vertex;

// The LSAs that make it.
mod back_links;
mod by_key;
mod naming;
mod numbers;
mod ranks;
mod used;

// How it is built.
mod build;
mod draft;
mod links;
mod rows;

// What holds of the definitions.
mod laws;

pub use by_key::lsa_of_vertex;
pub use cost_change::CostChange;
pub use edge::Edge;
pub use fault::GraphFault;
pub use graph::Graph;
pub use laws::{distances_are_over_all_paths, edges_join_both_ways};
pub use used::{VertexLsa, used_lsas};
pub use vertex::Vertex;
