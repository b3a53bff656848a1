//! Events: what happens to links and interfaces.

use crate::link_end::LinkEnd;
use lsa_codec::{Addr, RouterId};

/// What happens to the links of routers and to the costs of their interfaces. Each event changes
/// the router-LSAs that its routers would originate again (RFC 2328, 12.4.1), and no other LSAs.
#[derive(Clone, Copy)]
pub enum LinkEvent {
    /// All point-to-point links between two routers go, at both ends.
    CutLinks {
        /// One router.
        router: RouterId,
        /// The other one.
        neighbor: RouterId,
    },
    /// One point-to-point link between two routers goes, at both ends. The address is that of the
    /// interface of either router.
    CutLink(LinkEnd),
    /// The interfaces of a router to a neighbor get a cost.
    SetCost {
        /// The router.
        router: RouterId,
        /// The neighbor.
        neighbor: RouterId,
        /// The cost.
        metric: u16,
        /// Whether those of the neighbor to the router get it too.
        both: bool,
    },
    /// The interface of a router with an address gets a cost.
    SetCostAt {
        /// The router.
        router: RouterId,
        /// The address of the interface, or its index where it is unnumbered.
        address: Addr,
        /// The cost.
        metric: u16,
    },
    /// The links of a router to routers and transit networks get the greatest cost (RFC 6987).
    Drain {
        /// The router.
        router: RouterId,
    },
}
