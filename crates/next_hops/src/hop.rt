//! A next hop, its order and its text.

ghost use Rattle.std.specs.Prelude.{◌≡◌, Some};
ghost use Rattle.next_hops.specs.Hop.{hop_text, extended};

use lsa_codec::Addr;
use std::fmt;

/// The first step of packets on the way to a destination (RFC 2328, 16.1.1). An interface of the
/// calculating router is named by the Link Data of the router's own link.
///
/// Hops are ordered by their kinds, in the order of the variants, and then by their addresses as
/// numbers. The `Display` is `connected`, `link:10.0.0.1`, `attached:10.5.0.1` or
/// `gateway:10.5.0.1:10.5.0.3`.
#[derive(Clone, Copy, Debug, PartialEq, Eq, PartialOrd, Ord, Hash, Default)]
pub enum Hop {
    /// A stub network of the router itself.
    #[default]
    Connected,
    /// Over this interface, to the router at the other end of the link.
    Link(Addr),
    /// To this interface's network.
    Attached(Addr),
    /// Over this interface's network, to the router with this address on it.
    Gateway(Addr, Addr),
}

impl Hop {
    /// The hop where the path goes on to an address. From [`Attached`](Hop::Attached) that is the
    /// gateway on the interface's network; any other hop stays as it is.
    pub fn extended(self, address: Addr) -> Hop
        ensures { result ≡ extended self address }
    {
        match self {
            Hop::Attached(interface) => Hop::Gateway(interface, address),
            other => other,
        }
    }
}

impl fmt::Display for Hop {
    ghost output = { λ hop. Some (hop_text hop) };

    fn fmt<W: fmt::Write>(&self, f: &mut fmt::Formatter<W>) -> fmt::Result {
        match self {
            Hop::Connected => write!(f, "connected"),
            Hop::Link(interface) => write!(f, "link:{interface}"),
            Hop::Attached(interface) => write!(f, "attached:{interface}"),
            Hop::Gateway(interface, gateway) => write!(f, "gateway:{interface}:{gateway}"),
        }
    }
}
