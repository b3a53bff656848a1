//! One end of a link between two routers.

ghost use Rattle.std.specs.Prelude.{◌≡◌};
ghost use Rattle.event_links.specs.Interfaces.{other_way};

use lsa_codec::{Addr, RouterId};

/// The interfaces of a router to a neighbor that have an address, or an index where they are
/// unnumbered (RFC 2328, A.4.2).
#[derive(Clone, Copy)]
pub struct LinkEnd {
    /// The router.
    pub router: RouterId,
    /// The neighbor.
    pub neighbor: RouterId,
    /// The address, or the index.
    pub address: Addr,
}

/// Those of the neighbor to the router that have it.
pub(crate) fn other_way(end: LinkEnd) -> LinkEnd
    ensures { result ≡ other_way end }
{
    LinkEnd {
        router: end.neighbor,
        neighbor: end.router,
        address: end.address,
    }
}
