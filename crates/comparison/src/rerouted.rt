//! Next hops that lead to other routers than they did.

ghost use Rattle.std.specs.Prelude.{◌≡◌, ◌++◌, ◌∷◌, [], if◌then◌else◌, IfOk, OnOk};
ghost use Rattle.std.specs.Cmp.Lexicographic.{pointwise};
ghost use Rattle.std.specs.List.{filter};
ghost use Rattle.comparison.specs.Rerouted.{hops_of, is_rerouted, rerouted, same_router};

use crate::databases::Databases;
use best_ways::Route;
use forwarding::RouterRoutes;
use lsa_codec::RouterId;
use next_hops::{Hop, HopList};
use std::alloc::{AllocError, Allocator};

/// Whether two lists of routers are one.
fn are_same_routers(before: &[RouterId], now: &[RouterId]) -> bool
    ensures { result ≡ pointwise same_router before.now now.now }
{
    before == now
}

/// Whether a next hop of a router leads to other routers than it did.
fn is_rerouted<A: Allocator + Copy>(
    alloc: A,
    both: &Databases<'_, '_, A>,
    router: RouterId,
    hop: Hop,
) -> Result<bool, AllocError>
    ensures { IfOk result (λ found. found ≡ is_rerouted both.now router hop) }
{
    let before = both.were().targets_of(alloc, router, hop)?;
    let now = both.are().targets_of(alloc, router, hop)?;
    Ok(!are_same_routers(before.as_slice(), now.as_slice()))
}

/// The hops of some routes, in order.
fn hops_of<A: Allocator + Copy>(alloc: A, routes: &[Route<A>]) -> Result<HopList<A>, AllocError>
    ensures { IfOk result (λ hops. hops ≡ hops_of routes.now) }
{
    let mut hops = HopList::new(alloc)?;
    for route in routes {
        hops.join(route.hops.as_slice())?;
    }
    Ok(hops)
}

/// Adds a hop to a list, if it leads to other routers than it did.
fn push_if<A: Allocator + Copy>(
    found: &mut Vec<Hop, A>,
    moved: bool,
    hop: Hop,
) -> Result<(), AllocError>
    ensures { OnOk result
        (found.new.items ≡ found.old.items ++ (if moved then hop ∷ [] else [])) }
{
    if moved {
        found.push(hop)?;
    }
    Ok(())
}

/// Those of some hops of a router that lead to other routers than they did.
fn rerouted_among<A: Allocator + Copy>(
    alloc: A,
    both: &Databases<'_, '_, A>,
    router: RouterId,
    hops: &[Hop],
) -> Result<Vec<Hop, A>, AllocError>
    ensures { IfOk result (λ found. found.items
        ≡ filter (is_rerouted both.now router) hops.now) }
{
    let mut found = Vec::new(alloc);
    for hop in hops {
        let moved = is_rerouted(alloc, both, router, *hop)?;
        push_if(&mut found, moved, *hop)?;
    }
    Ok(found)
}

/// The next hops of a router that lead to other routers than they did.
///
/// # Errors
///
/// Memory ran out.
pub(crate) fn rerouted<A: Allocator + Copy>(
    alloc: A,
    both: &Databases<'_, '_, A>,
    is: &RouterRoutes<A>,
) -> Result<Vec<Hop, A>, AllocError>
    ensures { IfOk result (λ found. found.items ≡ rerouted both.now is.now) }
{
    let hops = hops_of(alloc, is.routes().as_slice())?;
    rerouted_among(alloc, both, is.router(), hops.as_slice())
}
