//! Edges.

use lsa_codec::Addr;

/// An edge out of a vertex of a graph, in eight bytes.
#[derive(Clone, Copy, Debug, PartialEq, Eq, Hash)]
pub struct Edge {
    /// The number of the vertex that it leads to. A graph has at most 8,192 vertices.
    pub to: u16,
    /// The cost of the output side of the router's interface; 0 out of a network (RFC 2328, 2.1).
    pub cost: u16,
    /// The Link Data of the router's link: the address of the interface that joins the router to
    /// the other vertex, or that interface's index where the link is unnumbered (RFC 2328, A.4.2).
    pub link_data: Addr,
}
