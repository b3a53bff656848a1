//! Ways out of a router.

ghost use Rattle.std.specs.Prelude.{◌≡◌};
ghost use Rattle.hop_ends.specs.Ways.{is_direct, is_exit, router_over};

use lsa_codec::RouterId;
use next_hops::Hop;

/// One way of packets out of a router, by a next hop of the router's route (RFC 2328, 16.1.1).
#[derive(Clone, Copy, Debug, PartialEq, Eq)]
pub enum Way {
    /// Over this hop to another router.
    Via(Hop, RouterId),
    /// Over this hop to a network of the router itself, where they are delivered.
    Direct(Hop),
    /// Over this hop out of the network, to a forwarding address that no router of it has.
    Exit(Hop),
}

impl Way {
    /// The router that the way leads to, if there is one.
    pub fn router(self) -> Option<RouterId>
        ensures { result ≡ router_over self }
    {
        match self {
            Way::Via(_, router) => Some(router),
            Way::Direct(_) | Way::Exit(_) => None,
        }
    }

    /// Whether it leads to a network of the router itself.
    pub fn is_direct(self) -> bool
        ensures { result ≡ is_direct self }
    {
        match self {
            Way::Direct(_) => true,
            Way::Via(_, _) | Way::Exit(_) => false,
        }
    }

    /// Whether it leads out of the network.
    pub fn is_exit(self) -> bool
        ensures { result ≡ is_exit self }
    {
        match self {
            Way::Exit(_) => true,
            Way::Via(_, _) | Way::Direct(_) => false,
        }
    }
}
