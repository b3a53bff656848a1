//! Routes.

use crate::areas::AreaList;
use crate::rank::PathType;
use lsa_codec::Prefix;
use next_hops::HopList;
use std::alloc::{Allocator, Global};
use std::marker::Model;

/// A route to a network, an entry of a routing table (RFC 2328, 11).
#[derive(Drop)]
pub struct Route<A: Allocator = Global> {
    /// The network.
    pub net: Prefix,
    /// The type of its paths.
    pub kind: PathType,
    /// The areas that the paths lead through, in rising order; none for an external route.
    pub areas: AreaList<A>,
    /// The cost of each path, without a type 2 metric.
    pub cost: u64,
    /// The type 2 metric of a route of that type, and 0 for other routes.
    pub cost2: u32,
    /// The next hops of all the paths, which are equally good.
    pub hops: HopList<A>,
}

impl<A: Allocator> Model for Route<A> {
    ghost use Rattle.best_ways.specs.Values.{RouteValue};

    ghost Value = { RouteValue };

    ghost view = { λ r.
        record {
          net = r.net;
          kind = r.kind;
          areas = r.areas;
          cost = r.cost;
          cost2 = r.cost2;
          hops = r.hops;
        } };
}
