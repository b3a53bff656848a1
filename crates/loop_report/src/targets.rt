//! The routers that next hops lead to, worked out once for each router.

ghost use Rattle.std.specs.Prelude.{◌≡◌, ◌++◌, ◌∷◌, [], All, IfOk, MatchOption, ⊤};
ghost use Rattle.std.specs.Bool.{OnTrue};
ghost use Rattle.lsdb.specs.Lists.{Lists};
ghost use Rattle.hop_ends.specs.Owners.{AreGraphsOf, targets_of};
ghost use Rattle.loop_report.specs.steps.Targets.{AreHopsOf};

use best_ways::Route;
use forwarding::{Forwarding, RouterRoutes};
use hop_ends::AreaGraphs;
use lsa_codec::RouterId;
use next_hops::{Hop, HopList};
use std::alloc::{AllocError, Allocator};
use std::marker::Model;

/// A next hop of a router, and the routers that it leads to.
#[derive(Drop)]
pub(crate) struct HopTargets<A: Allocator> {
    hop: Hop,
    routers: Vec<RouterId, A>,
}

impl<A: Allocator> Model for HopTargets<A> {
    ghost use Rattle.loop_report.specs.steps.Targets.{TargetsValue};

    ghost Value = { TargetsValue };

    ghost view = { λ t. record { hop = t.hop; routers = t.routers.items } };
}

/// A router, and its next hops with the routers that they lead to.
#[derive(Drop)]
pub(crate) struct RouterHops<A: Allocator> {
    router: RouterId,
    hops: Vec<HopTargets<A>, A>,
}

impl<A: Allocator> Model for RouterHops<A> {
    ghost use Rattle.loop_report.specs.steps.Targets.{RouterHopsValue};

    ghost Value = { RouterHopsValue };

    ghost view = { λ h. record { router = h.router; hops = h.hops.items } };
}

/// The hops of some routes. One that is left out costs time alone.
fn hops_of<A: Allocator + Copy>(alloc: A, routes: &[Route<A>]) -> Result<HopList<A>, AllocError> {
    let mut hops = HopList::new(alloc)?;
    for route in routes {
        hops.join(route.hops.as_slice())?;
    }
    Ok(hops)
}

/// Whether two hops are one over a link, or to a gateway.
fn is_same(a: Hop, b: Hop) -> bool
    ensures { OnTrue result (a ≡ b) }
{
    match (a, b) {
        (Hop::Link(one), Hop::Link(other)) => one.0 == other.0,
        (Hop::Gateway(one, address), Hop::Gateway(other, gateway)) => {
            one.0 == other.0 && address.0 == gateway.0
        }
        _ => false,
    }
}

impl<A: Allocator + Copy> RouterHops<A> {
    /// The next hops of a router, each with the routers that it leads to.
    fn of(
        alloc: A,
        graphs: &AreaGraphs<'_, A>,
        routes: &RouterRoutes<A>,
    ) -> Result<RouterHops<A>, AllocError>
        ensures { IfOk result (λ known. (db : Lists) → AreGraphsOf db graphs.now
            → AreHopsOf db known) }
    {
        let router = routes.router();
        let used = hops_of(alloc, routes.routes().as_slice())?;
        let mut hops = Vec::new(alloc);
        for hop in used.as_slice() {
            let routers = graphs.targets_of(alloc, router, *hop)?;
            hops.push(HopTargets { hop: *hop, routers })?;
        }
        Ok(RouterHops { router, hops })
    }

    /// The router.
    pub(crate) fn router(&self) -> RouterId
        ensures { result ≡ self.now.router }
    {
        self.router
    }

    /// The routers that a next hop leads to, if it is one of those that were worked out.
    pub(crate) fn targets(&self, hop: Hop) -> Option<&[RouterId]>
        ensures { MatchOption result ⊤ (λ found. (db : Lists) → AreHopsOf db self.now
            → found.now ≡ targets_of db self.now.router hop) }
    {
        for known in &self.hops {
            if is_same(known.hop, hop) {
                return Some(&known.routers);
            }
        }
        None
    }
}

/// The next hops of all attached routers, in order of router.
///
/// # Errors
///
/// Memory ran out.
pub(crate) fn all_hops<A: Allocator + Copy>(
    alloc: A,
    forwarding: &Forwarding<'_, A>,
) -> Result<Vec<RouterHops<A>, A>, AllocError>
    ensures { IfOk result (λ found. (db : Lists) → AreGraphsOf db forwarding.now.graphs
        → All (AreHopsOf db) found.items) }
{
    let mut found = Vec::new(alloc);
    for routes in forwarding.routers() {
        found.push(RouterHops::of(alloc, forwarding.graphs(), routes)?)?;
    }
    Ok(found)
}
