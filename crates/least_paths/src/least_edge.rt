//! Edges on paths of least cost.

use area_graph::Vertex;
use lsa_codec::Addr;

/// An edge on a path of least cost, and the distance of the vertex that it starts from.
#[derive(Clone, Copy, Debug, PartialEq, Eq)]
pub struct LeastEdge {
    /// The vertex that it starts from.
    pub from: Vertex,
    /// The vertex that it leads to.
    pub to: Vertex,
    /// The cost of the output side of the router's interface; 0 out of a network (RFC 2328, 2.1).
    pub cost: u16,
    /// The Link Data of the router's link (RFC 2328, A.4.2).
    pub link_data: Addr,
    /// The distance of the vertex that it starts from.
    pub distance: u64,
}
