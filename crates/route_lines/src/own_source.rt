//! What routers announce for external prefixes of their own.

ghost use Rattle.std.specs.Prelude.{◌≡◌};
ghost use Rattle.route_lines.specs.RouteLines.{external_kind};

use lsa_codec::Addr;
use study_words::RouteKind;

/// What a router announces for an external prefix of its own (RFC 2328, 16.4 (2)): the router has
/// another source for the prefix than OSPF, such as a static route.
#[derive(Clone, Copy, Debug, PartialEq, Eq)]
pub struct OwnSource {
    /// Whether its metric is of type 2, which counts before any cost.
    pub is_type2: bool,
    /// Its metric.
    pub metric: u32,
    /// The forwarding address; 0 means the router itself.
    pub forward: Addr,
}

impl OwnSource {
    /// The kind of routes that it gives to other routers.
    pub fn kind(self) -> RouteKind
        ensures { result ≡ external_kind self.is_type2 }
    {
        if self.is_type2 {
            RouteKind::External2
        } else {
            RouteKind::External1
        }
    }
}
