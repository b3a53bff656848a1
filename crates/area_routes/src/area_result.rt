//! The result of one area.

ghost use Rattle.std.specs.Prelude.{◌≡◌, ◌^◌, All, map};
ghost use Rattle.next_hops.specs.Hop.{IsSortedHops};
ghost use Rattle.area_routes.specs.Intra.{intra_route, without_offers};
ghost use Rattle.area_routes.specs.Offers.{AreSortedOffers};
ghost use Rattle.area_routes.specs.Values.{ResultBelow};

use crate::entry::RouterEntry;
use best_ways::Route;
use lsa_codec::AreaId;
use std::alloc::{Allocator, Global};
use std::marker::Model;
use std::mem;

/// The result of the shortest-path tree of a router in one area (RFC 2328, 16.1): ways to prefixes,
/// and the other routers that are area border routers or AS boundary routers. Contracts see it as a
/// record of both.
///
/// The ways are kept as the routes of a router that is attached to this area alone, so they become
/// routes without a copy. Each cost is below 2^33: a distance is below 2^32, and the metric of a
/// link below 2^16.
#[derive(Drop)]
pub struct AreaResult<A: Allocator = Global> {
    pub(crate) area: AreaId,
    pub(crate) routes: Vec<Route<A>, A>,
    pub(crate) entries: Vec<RouterEntry<A>, A>,
}

impl<A: Allocator> Model for AreaResult<A> {
    ghost use Rattle.area_routes.specs.Values.{AreaResultValue};
    ghost use Rattle.area_routes.specs.steps.OneArea.{IsResultBy, result_by};

    ghost Value = { AreaResultValue };

    ghost view = { λ r. result_by r.area r.routes.items r.entries.items };

    ghost invariant = { λ r. IsResultBy r.area r.routes.items r.entries.items };
}

impl<A: Allocator + Copy> AreaResult<A> {
    /// The area.
    pub fn area(&self) -> AreaId
        ensures { result ≡ self.now.area }
    {
        self.area
    }

    /// The ways to prefixes, one for each, in order of prefix, as the routes of a router that is
    /// attached to this area alone.
    pub fn routes(&self) -> &[Route<A>]
        ensures routes { result.now ≡ map (intra_route self.now.area) self.now.offers }
        ensures sorted { AreSortedOffers self.now.offers }
        ensures below { ResultBelow (2 ^ 33) self.now }
    {
        self.routes.as_slice()
    }

    /// Takes out these routes.
    pub(crate) fn take_routes(&mut self, alloc: A) -> Vec<Route<A>, A>
        ensures routes { result.items ≡ map (intra_route self.old.area) self.old.offers }
        ensures sorted { AreSortedOffers self.old.offers }
        ensures hops { All (λ o. IsSortedHops o.hops) self.old.offers }
        ensures below { ResultBelow (2 ^ 33) self.old }
        ensures rest { self.new ≡ without_offers self.old }
    {
        mem::replace(&mut self.routes, Vec::new(alloc))
    }

    /// The entries of other routers, of the kinds [`Border`](crate::EntryKind::Border) and
    /// [`AsbrIntra`](crate::EntryKind::AsbrIntra).
    pub fn entries(&self) -> &[RouterEntry<A>]
        ensures entries { result.now ≡ self.now.entries }
        ensures below { ResultBelow (2 ^ 33) self.now }
    {
        self.entries.as_slice()
    }
}
