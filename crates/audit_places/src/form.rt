//! The forms of places.

use crate::cost::Cost;
use crate::part::Part;
use area_graph::Vertex;
use lsa_codec::{Addr, AreaId, Prefix, RouterId};
use lsa_names::LsaName;
use std::alloc::{Allocator, Global};

/// Where something is found, and what.
#[derive(Drop)]
pub enum Form<A: Allocator = Global> {
    /// An LSA.
    Lsa(LsaName),
    /// A summary-LSA with another metric than it is due.
    Due {
        /// The summary-LSA.
        lsa: LsaName,
        /// Its metric.
        metric: u32,
        /// The metric that it is due, if it is due.
        due: Option<u32>,
    },
    /// A summary-LSA that is due and is not there.
    Missing {
        /// What it would be called, with the address of the prefix, or the boundary router, as its
        /// Link State ID.
        lsa: LsaName,
        /// The metric that it is due.
        metric: u32,
    },
    /// A router.
    Router(RouterId),
    /// What a router uses for a prefix.
    Route {
        /// The router.
        router: RouterId,
        /// The prefix.
        prefix: Prefix,
    },
    /// An area whose parts have no path between them.
    Parts {
        /// The area.
        area: AreaId,
        /// The parts, in order of their least routers.
        parts: Vec<Part<A>, A>,
    },
    /// A router that is named and not described.
    Undescribed {
        /// The area.
        area: AreaId,
        /// The router.
        router: RouterId,
        /// The router whose LSA names it.
        named_by: RouterId,
    },
    /// Networks of one prefix.
    Networks {
        /// The prefix.
        prefix: Prefix,
        /// Their Link State IDs, the addresses of their Designated Routers.
        addresses: Vec<Addr, A>,
    },
    /// An interface address of several routers.
    SharedAddress {
        /// The address.
        address: Addr,
        /// The routers, in rising order.
        routers: Vec<RouterId, A>,
    },
    /// A link without a link back.
    OneWay {
        /// The area.
        area: AreaId,
        /// The router.
        router: RouterId,
        /// The link's number in the router-LSA, counted from 1.
        number: usize,
        /// The router or transit network that it leads to.
        to: Vertex,
    },
    /// A router that a network-LSA lists, without a link to the network.
    Member {
        /// The network-LSA.
        lsa: LsaName,
        /// The router.
        router: RouterId,
    },
    /// A point-to-point link with other costs back.
    Unequal {
        /// The area.
        area: AreaId,
        /// The router.
        router: RouterId,
        /// The link's number in the router-LSA, counted from 1.
        number: usize,
        /// The router that it leads to.
        to: RouterId,
        /// Its cost.
        cost: u16,
        /// The costs of its far ends, in rising order.
        back: Vec<Cost, A>,
    },
    /// An interface with several neighbors.
    Interface {
        /// The area.
        area: AreaId,
        /// The router.
        router: RouterId,
        /// The address of the interface: the Link Data of its links.
        data: Addr,
        /// The neighbors, in rising order.
        neighbors: Vec<RouterId, A>,
    },
}
