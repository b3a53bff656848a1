//! What routers do with a packet.

use crate::route_source::RouteSource;
use lsa_codec::{Addr, Prefix, RouterId};

/// Where a way leads a packet.
#[derive(Clone, Copy, Debug, PartialEq, Eq)]
pub enum StepTarget {
    /// To this router, over a link of this cost.
    To(RouterId, u32),
    /// To its destination, on a network of the router.
    Delivered,
    /// Out of the network, to this address, if it is known.
    External(Option<Addr>),
}

/// A way of a router's match.
#[derive(Clone, Copy, Debug, PartialEq, Eq)]
pub struct StepWay {
    /// The prefix of the match.
    pub net: Prefix,
    /// Where the route comes from, and what it costs.
    pub source: RouteSource,
    /// The interface of the router over which the way leads, if there is one, by its address.
    pub out: Option<Addr>,
    /// Where it leads.
    pub target: StepTarget,
}

/// What a router does with a packet, by one of its ways.
#[derive(Clone, Copy, Debug, PartialEq, Eq)]
pub struct PathStep {
    /// The router.
    pub router: RouterId,
    /// The way; none where the router has no match, and drops the packet.
    pub way: Option<StepWay>,
}
