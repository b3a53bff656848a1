//! Routes by the best ways.

ghost use Rattle.std.specs.Prelude.{◌≡◌, ◌<◌, ◌++◌, ◌∷◌, [], ℕ, List, IfOk, OnOk, None, Some, All, map};
ghost use Rattle.std.specs.List.Sorted.{IsSorted};
ghost use Rattle.lsa_codec.specs.Order.{prefix_cmp};
ghost use Rattle.lsa_codec.specs.Prefix.{Net};
ghost use Rattle.best_ways.specs.Best.{Gathers, way_of, ways_of};
ghost use Rattle.best_ways.specs.Candidate.{Candidate};
ghost use Rattle.best_ways.specs.Routes.{areas_through, route_through, routes_of};
ghost use Rattle.best_ways.specs.Values.{RoutesBelow, WayValue};
ghost use Rattle.best_ways.specs.steps.Merge.{fresh, key_cmp};

use crate::areas::AreaList;
use crate::best::BestWays;
use crate::contender::Contender;
use crate::merge::next_alike;
use crate::route::Route;
use crate::route_list::Routes;
use crate::way::{Way, areas_of};
use lsa_codec::{AreaId, Prefix};
use std::alloc::{AllocError, Allocator};

impl<'a, A: Allocator + Copy> BestWays<'a, Prefix, A> {
    /// The routes by these ways, one for each. The cost of each route is at most that of some
    /// candidate.
    ///
    /// # Errors
    ///
    /// Memory ran out.
    pub fn into_routes(self, alloc: A) -> Result<Routes<A>, AllocError>
        ensures routes { IfOk result (λ routes. (cs : List (Candidate Net))
            → Gathers cs self.entry → routes ≡ routes_of cs) }
        ensures small { IfOk result (λ routes. (bound : ℕ) (cs : List (Candidate Net))
            → Gathers cs self.entry
            → All (λ c. c.rank.cost < bound) cs → RoutesBelow bound routes) }
    {
        let candidates = self.into_ordered()?;
        Ok(Routes::from_sorted(routes_in_order(alloc, &candidates, None)?))
    }

    /// The routes by these ways, one for each, where all lead through one area.
    ///
    /// # Errors
    ///
    /// Memory ran out.
    pub fn into_routes_through(self, alloc: A, area: AreaId) -> Result<Routes<A>, AllocError>
        ensures { IfOk result (λ routes. routes
            ≡ map (route_through (Some area)) (ways_of prefix_cmp self.entry)) }
    {
        let candidates = self.into_ordered()?;
        Ok(Routes::from_sorted(routes_in_order(alloc, &candidates, Some(area))?))
    }
}

/// The routes by the best ways of candidates that are in order of prefix, through one area or
/// through those of the ways.
fn routes_in_order<A: Allocator + Copy>(
    alloc: A,
    candidates: &[Contender<'_, Prefix>],
    area: Option<AreaId>,
) -> Result<Vec<Route<A>, A>, AllocError>
    requires { IsSorted (key_cmp prefix_cmp) candidates.now }
    ensures { IfOk result (λ routes. routes.items
        ≡ map (route_through area) (ways_of prefix_cmp candidates.now)) }
{
    let mut routes = Vec::with_capacity(alloc, candidates.len())?;
    let mut place = 0;
    while place < candidates.len() {
        let (first, others, end) = next_alike(candidates, place);
        if others.is_empty() {
            let route = route_of_one(alloc, area, first)?;
            routes.push(route)?;
        } else {
            push_best_route(alloc, area, first, others, &mut routes)?;
        }
        place = end;
    }
    Ok(routes)
}

/// Adds the route by the best way of several candidates for one destination, through one area or
/// through those of the way.
#[inline(never)]
fn push_best_route<A: Allocator + Copy>(
    alloc: A,
    area: Option<AreaId>,
    first: &Contender<'_, Prefix>,
    others: &[Contender<'_, Prefix>],
    routes: &mut Vec<Route<A>, A>,
) -> Result<(), AllocError>
    ensures { OnOk result ((way : WayValue)
        × (Some way ≡ way_of (first.now ∷ others.now))
        × (routes.new.items ≡ routes.old.items ++ route_through area (first.now.key, way) ∷ [])) }
{
    let way = Way::of(alloc, first, others)?;
    routes.push(route_through(alloc, area, first.key, way))?;
    Ok(())
}

/// The route by the way of one candidate, through one area or through its own.
#[inline(always)]
fn route_of_one<A: Allocator + Copy>(
    alloc: A,
    area: Option<AreaId>,
    candidate: &Contender<'_, Prefix>,
) -> Result<Route<A>, AllocError>
    ensures { IfOk result
        (λ route. route ≡ route_through area (candidate.now.key, fresh candidate.now)) }
{
    Ok(Route {
        net: candidate.key,
        kind: candidate.rank.path,
        cost: candidate.rank.cost,
        cost2: candidate.rank.cost2,
        areas: areas_through(alloc, area, areas_of(alloc, candidate.area)),
        hops: candidate.hop_list(alloc)?,
    })
}

/// The route to a prefix by the best way, through one area or through those of the way.
#[inline(always)]
fn route_through<A: Allocator + Copy>(
    alloc: A,
    area: Option<AreaId>,
    net: Prefix,
    way: Way<A>,
) -> Route<A>
    ensures { result ≡ route_through area (net, way) }
{
    Route {
        net,
        kind: way.rank.path,
        cost: way.rank.cost,
        cost2: way.rank.cost2,
        areas: areas_through(alloc, area, way.areas),
        hops: way.hops,
    }
}

/// One area, or those of a way.
fn areas_through<A: Allocator + Copy>(
    alloc: A,
    area: Option<AreaId>,
    areas: AreaList<A>,
) -> AreaList<A>
    ensures { result ≡ areas_through area areas }
{
    match area {
        Some(area) => AreaList::of_one(alloc, area),
        None => areas,
    }
}
