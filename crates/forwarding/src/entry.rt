//! The entry of a router for a prefix.

ghost use Rattle.std.specs.Prelude.{◌≡◌, IfOk};
ghost use Rattle.lsdb.specs.Lists.{Lists};
ghost use Rattle.forwarding.specs.Matches.{own_entry, route_entry};
ghost use Rattle.hop_ends.specs.Owners.{AreGraphsOf};

use area_routes::Route;
use hop_ends::{AreaGraphs, Way, ways_of};
use lsa_codec::{Prefix, RouterId};
use std::alloc::{AllocError, Allocator, Global};
use std::marker::Model;

/// What a router uses for an address: the entry of the longest prefix that covers it (RFC 2328,
/// 11.1).
#[derive(Drop)]
pub struct Match<A: Allocator = Global> {
    /// The prefix.
    pub net: Prefix,
    /// Whether it is an external prefix that the router itself announces: the router has another
    /// source for it than OSPF, and no ways that the database shows.
    pub is_own: bool,
    /// The ways of the route, in order of its hops.
    pub ways: Vec<Way, A>,
}

impl<A: Allocator> Model for Match<A> {
    ghost use Rattle.forwarding.specs.Matches.{MatchValue};

    ghost Value = { MatchValue };

    ghost view = { λ m. record { net = m.net; is_own = m.is_own; ways = m.ways.items } };
}

impl<A: Allocator + Copy> Match<A> {
    /// The entry for an external prefix of the router's own. It takes no memory.
    pub(crate) fn own(alloc: A, net: Prefix) -> Match<A>
        ensures { result ≡ own_entry net }
    {
        Match {
            net,
            is_own: true,
            ways: Vec::new(alloc),
        }
    }

    /// The entry by a route of a router's table.
    pub(crate) fn by_route(
        alloc: A,
        graphs: &AreaGraphs<'_, A>,
        router: RouterId,
        route: &Route<A>,
    ) -> Result<Match<A>, AllocError>
        ensures { IfOk result (λ found. (db : Lists) → AreGraphsOf db graphs.now
            → found ≡ route_entry db router route.now) }
    {
        let ways = ways_of(alloc, graphs, router, route)?;
        Ok(Match {
            net: route.net,
            is_own: false,
            ways,
        })
    }
}
