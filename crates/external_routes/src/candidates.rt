//! The paths that AS-external-LSAs offer.

ghost use Rattle.std.specs.Prelude.{◌≡◌, ◌<◌, ◌^◌, ◌++◌, ◌∷◌, [], true, false, List, OnOk, MatchOption};
ghost use Rattle.std.specs.List.{cons_option};
ghost use Rattle.lsa_codec.specs.Prefix.{Net};
ghost use Rattle.best_ways.specs.Best.{Gathers};
ghost use Rattle.best_ways.specs.Candidate.{Candidate};
ghost use Rattle.external_routes.specs.steps.Paths.{candidate_of, by_entry, by_route, rank_over, over};

use crate::choose::{entry_class, route_class};
use crate::external_lsas::ExternalLsa;
use crate::inside::Inside;
use area_routes::{BestWays, PathType, Rank, Route, RouterEntry};
use lsa_codec::{Addr, Prefix, RouterId};
use std::alloc::{AllocError, Allocator};

/// What the path of an LSA is compared by, over a way of this class and cost (RFC 2328, 16.4).
fn rank(lsa: &ExternalLsa, class: u8, cost: u64) -> Rank
    requires { cost < 2 ^ 34 }
    ensures { result ≡ rank_over lsa.now class cost }
{
    if lsa.is_type2 {
        Rank {
            path: PathType::Ext2,
            cost2: lsa.metric,
            class,
            cost,
        }
    } else {
        Rank {
            path: PathType::Ext1,
            cost2: 0,
            class,
            cost: cost + u64::from(lsa.metric),
        }
    }
}

/// Takes the path over an entry of the originator into account.
fn add_path_by_entry<'a, A: Allocator + Copy>(
    ways: &mut BestWays<'a, Prefix, A>,
    lsa: &ExternalLsa,
    entry: &'a RouterEntry<A>,
) -> Result<(), AllocError>
    requires { entry.now.cost < 2 ^ 34 }
    ensures { OnOk result ((cs : List (Candidate Net)) → Gathers cs ways.old
        → Gathers (cs ++ by_entry lsa.now entry.now ∷ []) ways.new) }
{
    let rank = rank(lsa, entry_class(entry), entry.cost);
    ways.add_candidate(lsa.net, rank, None, entry.hops.as_slice())
}

/// Takes the path over a route to the forwarding address into account.
fn add_path_by_route<'a, A: Allocator + Copy>(
    ways: &mut BestWays<'a, Prefix, A>,
    lsa: &ExternalLsa,
    route: &'a Route<A>,
) -> Result<(), AllocError>
    requires { route.now.cost < 2 ^ 34 }
    ensures { OnOk result ((cs : List (Candidate Net)) → Gathers cs ways.old
        → Gathers (cs ++ by_route lsa.now route.now ∷ []) ways.new) }
{
    let rank = rank(lsa, route_class(route), route.cost);
    ways.add_candidate_onward(lsa.net, rank, route.hops.as_slice(), lsa.forward)
}

/// Takes the path over the originator's preferred entry, or over the route to the forwarding
/// address, into account.
fn add_path_over<'a, A: Allocator + Copy>(
    ways: &mut BestWays<'a, Prefix, A>,
    lsa: &ExternalLsa,
    inside: &Inside<'a, A>,
    entry: &'a RouterEntry<A>,
) -> Result<(), AllocError>
    requires { entry.now.cost < 2 ^ 34 }
    ensures { OnOk result ((cs : List (Candidate Net)) → Gathers cs ways.old
        → Gathers
        (cs ++ cons_option (over inside.now.routes lsa.now entry.now) []) ways.new) }
{
    if lsa.forward == Addr(0) {
        return add_path_by_entry(ways, lsa, entry);
    }
    if let Some(route) = inside.forward_match(lsa.forward) {
        add_path_by_route(ways, lsa, route)?;
    }
    Ok(())
}

/// Takes the path that an LSA offers into account.
pub(crate) fn add_external_candidate<'a, A: Allocator + Copy>(
    ways: &mut BestWays<'a, Prefix, A>,
    inside: &mut Inside<'a, A>,
    router: RouterId,
    lsa: &ExternalLsa,
) -> Result<(), AllocError>
    ensures candidate { OnOk result ((cs : List (Candidate Net)) → Gathers cs ways.old
        → Gathers
        (cs ++ cons_option
        (candidate_of router inside.old.routes inside.old.entries lsa.now) []) ways.new) }
    ensures same { inside.new ≡ inside.old }
{
    if lsa.router != router
        && !inside.has_route(lsa.net)
        && let Some(entry) = inside.preferred(lsa.router)
    {
        add_path_over(ways, lsa, inside, entry)?;
    }
    Ok(())
}
