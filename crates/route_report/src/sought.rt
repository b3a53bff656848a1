//! What is sought among the interfaces of a router.

use lsa_codec::{Addr, RouterId};

/// A router, one of its interfaces, and a neighbor that a link of the interface leads to.
#[derive(Clone, Copy, Debug, PartialEq, Eq)]
pub struct Leg {
    /// The router.
    pub router: RouterId,
    /// Its interface, by the Link Data of its links.
    pub interface: Addr,
    /// The neighbor.
    pub neighbor: RouterId,
}

/// A side of a link.
#[derive(Clone, Copy, Debug, PartialEq, Eq)]
pub enum Side {
    /// That of the router: the interface of the link, if the neighbor has a link back.
    Near,
    /// That of the neighbor: the interfaces of its links back.
    Far,
}

/// What is sought in all areas.
#[derive(Clone, Copy, Debug, PartialEq, Eq)]
pub enum Sought {
    /// The interfaces on a side of the point-to-point links of a leg.
    Ends(Leg, Side),
    /// The links of an interface of a router to transit networks that list the router.
    Nets(RouterId, Addr),
}
