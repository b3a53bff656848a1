//! Routes as studies show them.

use crate::route_source::RouteSource;
use crate::route_way::RouteWay;
use lsa_codec::{AreaId, Prefix};
use std::alloc::{Allocator, Global};
use std::marker::Model;

/// What a router uses for a prefix.
#[derive(Drop)]
pub struct RouteLine<A: Allocator = Global> {
    /// The prefix.
    pub net: Prefix,
    /// Where the route comes from, and what it costs.
    pub source: RouteSource,
    /// The least area that its paths lead through; none for an external route.
    pub area: Option<AreaId>,
    /// Its ways; none for an external prefix of the router itself.
    pub ways: Vec<RouteWay<A>, A>,
}

impl<A: Allocator> Model for RouteLine<A> {
    ghost use Rattle.route_lines.specs.RouteLines.{RouteLineValue};

    ghost Value = { RouteLineValue };

    ghost view = { λ r. record {
      net = r.net;
      source = r.source;
      area = r.area;
      ways = r.ways.items;
    } };
}
