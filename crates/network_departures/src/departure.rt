//! Routers that go.

ghost use Rattle.std.specs.Prelude.{◌≡◌};
ghost use Rattle.network_departures.specs.Leaving.{router_of, fails};

use lsa_codec::{Prefix, RouterId};

/// A router goes, from a transit network or altogether. The others originate their router-LSAs
/// again, and a network of which it was Designated Router gets another one (RFC 2328, 9.4).
#[derive(Clone, Copy, Debug, PartialEq, Eq)]
pub enum Departure {
    /// The interfaces of a router to the transit networks with a prefix go.
    LeavesNetwork {
        /// The router.
        router: RouterId,
        /// The prefix.
        net: Prefix,
    },
    /// A router fails: it leaves all of its networks, and the links of others to it go. The stub
    /// links of their interfaces stay.
    Fails {
        /// The router.
        router: RouterId,
    },
}

impl Departure {
    /// The router that goes.
    pub fn router(&self) -> RouterId
        ensures { result ≡ router_of self.now }
    {
        match self {
            Departure::LeavesNetwork { router, .. } | Departure::Fails { router } => *router,
        }
    }

    /// Whether the router fails, and does not only leave a network.
    pub fn fails(&self) -> bool
        ensures { result ≡ fails self.now }
    {
        matches!(self, Departure::Fails { .. })
    }
}
