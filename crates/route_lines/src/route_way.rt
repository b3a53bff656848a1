//! Ways of routes.

use lsa_codec::{Addr, RouterId};
use std::alloc::{Allocator, Global};
use std::marker::Model;

/// Where a way leads.
#[derive(Clone, Copy, Debug, PartialEq, Eq)]
pub enum WayTarget {
    /// To this neighbor.
    Via(RouterId),
    /// To a network of the router itself, where packets are delivered.
    Direct,
    /// Out of the network: to this address, which no router has, or to a forwarding address on a
    /// stub network of the router itself.
    Exit(Option<Addr>),
}

/// A way of a route.
#[derive(Drop)]
pub struct RouteWay<A: Allocator = Global> {
    /// Where it leads.
    pub target: WayTarget,
    /// The interface of the router over which it leads, if there is one, by its address.
    pub out: Option<Addr>,
    /// The addresses of the neighbor's interface, in rising order: several where parallel links
    /// cannot be distinguished, and none where the way leads to no neighbor.
    pub addresses: Vec<Addr, A>,
}

impl<A: Allocator> Model for RouteWay<A> {
    ghost use Rattle.route_lines.specs.RouteLines.{RouteWayValue};

    ghost Value = { RouteWayValue };

    ghost view = { λ w. record {
      target = w.target;
      out = w.out;
      addresses = w.addresses.items;
    } };
}
