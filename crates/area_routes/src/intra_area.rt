//! Intra-area routes.

ghost use Rattle.std.specs.Prelude.{◌≡◌, [], ◌∷◌, ◌++◌, ◌^◌, List, OnOk, IfOk, map};
ghost use Rattle.lsa_codec.specs.Prefix.{Net};
ghost use Rattle.best_ways.specs.Best.{Gathers};
ghost use Rattle.best_ways.specs.Candidate.{Candidate};
ghost use Rattle.area_routes.specs.Intra.{intra_candidate, intra_candidates, intra_of, without_offers};
ghost use Rattle.area_routes.specs.Values.{ResultBelow};
ghost use Rattle.best_ways.specs.Values.{RoutesBelow};
ghost use Rattle.area_routes.specs.steps.OneArea.{offered};

use crate::area_result::AreaResult;
use crate::inside_routes::InsideRoutes;
use best_ways::{BestWays, PathType, Rank, Route, Routes};
use lsa_codec::{AreaId, Prefix};
use std::alloc::{AllocError, Allocator};

/// The intra-area routes of a router, in order of prefix (RFC 2328, 16.1). The results are those
/// of all areas to which the router is attached.
///
/// The route to each prefix has the least cost that any of the areas offers, with the areas and the
/// next hops of all ways of that cost.
///
/// # Errors
///
/// Memory ran out.
pub fn intra<A: Allocator + Copy>(
    alloc: A,
    results: &[AreaResult<A>],
) -> Result<InsideRoutes<A>, AllocError>
    ensures routes { IfOk result (λ routes. routes ≡ intra_of results.now) }
    ensures small { IfOk result (λ routes. RoutesBelow (2 ^ 33) routes) }
{
    let mut ways = BestWays::new(alloc);
    for area in results {
        add_intra_candidates(&mut ways, area)?;
    }
    Ok(InsideRoutes::from_routes(ways.into_routes(alloc)?))
}

/// The same, but where there is one result, its routes are taken out of it: then no route is
/// copied, and no memory is taken.
///
/// # Errors
///
/// Memory ran out.
pub fn take_intra<A: Allocator + Copy>(
    alloc: A,
    results: &mut [AreaResult<A>],
) -> Result<InsideRoutes<A>, AllocError>
    ensures routes { IfOk result (λ routes. routes ≡ intra_of results.old) }
    ensures small { IfOk result (λ routes. RoutesBelow (2 ^ 33) routes) }
    ensures rest { map without_offers results.new ≡ map without_offers results.old }
{
    if results.len() != 1 {
        return intra(alloc, results);
    }
    Ok(intra_of_one(alloc, &mut results[0]))
}

/// The intra-area routes of a router that is attached to one area, taken out of the area's result.
fn intra_of_one<A: Allocator + Copy>(alloc: A, area: &mut AreaResult<A>) -> InsideRoutes<A>
    ensures routes { result ≡ intra_of (area.old ∷ []) }
    ensures small { RoutesBelow (2 ^ 33) result }
    ensures rest { area.new ≡ without_offers area.old }
{
    InsideRoutes::from_routes(Routes::from_sorted(area.take_routes(alloc)))
}

/// Takes all ways that an area offers into account.
fn add_intra_candidates<'a, A: Allocator + Copy>(
    ways: &mut BestWays<'a, Prefix, A>,
    area: &'a AreaResult<A>,
) -> Result<(), AllocError>
    ensures added { OnOk result ((cs : List (Candidate Net)) → Gathers cs ways.old
        → Gathers (cs ++ intra_candidates area.now) ways.new) }
    ensures below { ResultBelow (2 ^ 33) area.now }
{
    let routes = area.routes();
    for route in routes {
        add_intra_candidate(ways, area.area(), route)?;
    }
    Ok(())
}

/// Takes a way that an area offers, as a route, into account.
fn add_intra_candidate<'a, A: Allocator + Copy>(
    ways: &mut BestWays<'a, Prefix, A>,
    area: AreaId,
    route: &'a Route<A>,
) -> Result<(), AllocError>
    ensures { OnOk result ((cs : List (Candidate Net)) → Gathers cs ways.old
        → Gathers (cs ++ intra_candidate area (offered route.now) ∷ []) ways.new) }
{
    let rank = Rank {
        path: PathType::Intra,
        cost2: 0,
        class: 0,
        cost: route.cost,
    };
    ways.add_candidate(route.net, rank, Some(area), route.hops.as_slice())
}
