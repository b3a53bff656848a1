//! The vertices of an area's graph.

ghost use Rattle.std.specs.Prelude.{◌≡◌};
ghost use Rattle.area_graph.specs.Vertex.{is_network};

use lsa_codec::{Addr, RouterId};

/// A vertex of an area's graph (RFC 2328, 2.1).
#[derive(Clone, Copy, Debug, PartialEq, Eq, Hash)]
pub enum Vertex {
    /// A router, by its Router ID.
    Router(RouterId),
    /// A transit network, by the address of its Designated Router's interface.
    Network(Addr),
}

impl Vertex {
    /// Whether it is a transit network.
    pub fn is_network(self) -> bool
        ensures { result ≡ is_network self }
    {
        match self {
            Vertex::Router(_) => false,
            Vertex::Network(_) => true,
        }
    }
}
