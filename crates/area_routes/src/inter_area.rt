//! Inter-area routes, and the entries of AS boundary routers of other areas.

ghost use Rattle.std.specs.Prelude.{◌≡◌, ◌++◌, ◌^◌, List, [], OnOk, IfOk, map};
ghost use Rattle.std.specs.List.{cons_option};
ghost use Rattle.lsa_codec.specs.Prefix.{Net};
ghost use Rattle.lsa_codec.specs.declared.address.RouterId.{RouterId as AnyRouter};
ghost use Rattle.lsdb.specs.Slots.{lists_of};
ghost use Rattle.best_ways.specs.Best.{Gathers};
ghost use Rattle.best_ways.specs.Candidate.{Candidate};
ghost use Rattle.area_routes.specs.Inter.{asbr_candidate, asbr_entry, candidate_to, inter_entries, inter_of, inter_routes, network_candidate};
ghost use Rattle.area_routes.specs.Values.{ResultBelow, EntriesBelow};

use crate::all_entries::all_entries;
use crate::area_result::AreaResult;
use crate::entry::{EntryKind, RouterEntry};
use crate::entry_list::RouterEntries;
use crate::examined::examined;
use crate::indexed_area::IndexedArea;
use crate::inside_routes::InsideRoutes;
use crate::inter_result::InterResult;
use crate::summary::{announced_asbr, announced_network, usable_metric};
use best_ways::{BestWays, PathType, Rank, Way};
use lsa_codec::{AreaId, Lsa, Prefix, RouterId};
use lsdb::{Database, Lsas, Section};
use std::alloc::{AllocError, Allocator};

/// The inter-area routes of a router, in order of prefix, and all its router entries (RFC 2328,
/// 16.2). The results are those of all areas to which the router is attached, in rising order, and
/// the routes are its intra-area routes.
///
/// A router attached to one area examines the summary-LSAs of that area. A router attached to
/// several areas examines only those of the backbone, and none where it is not attached to the
/// backbone. A summary-LSA is used where it is live, its metric is below LSInfinity, and its
/// originator is another router that has an entry as an area border router of the area. The cost is
/// the sum of that entry's cost and the metric. The ways of least cost to one prefix, or to one AS
/// boundary router, are joined.
///
/// # Errors
///
/// Memory ran out.
pub fn inter<A: Allocator + Copy>(
    alloc: A,
    database: &Database<A>,
    router: RouterId,
    results: &[AreaResult<A>],
    intra: &InsideRoutes<A>,
) -> Result<InterResult<A>, AllocError>
    ensures { IfOk result (λ found. found
        ≡ inter_of (lists_of database.now) router results.now intra.now) }
{
    let mut routers = all_entries(alloc, results)?;
    let Some(area) = examined(results) else {
        return Ok(InterResult {
            routes: InsideRoutes::new(alloc),
            routers: RouterEntries::from_vec(routers),
        });
    };
    let section = Section::Area(area.area());
    let area = IndexedArea::new(alloc, area)?;
    let routes = inter_routes(alloc, database.lsas(section), router, &area, intra)?;
    let mut entries = inter_entries(alloc, database.lsas(section), router, &area)?;
    routers.append(&mut entries)?;
    Ok(InterResult {
        routes,
        routers: RouterEntries::from_vec(routers),
    })
}

/// The inter-area routes by the summary-LSAs of the examined area.
fn inter_routes<A: Allocator + Copy>(
    alloc: A,
    lsas: Lsas<'_, A>,
    router: RouterId,
    area: &IndexedArea<'_, A>,
    intra: &InsideRoutes<A>,
) -> Result<InsideRoutes<A>, AllocError>
    requires { ResultBelow (2 ^ 33) area.now }
    ensures { IfOk result (λ routes. routes
        ≡ inter_routes router area.now intra.now lsas.entry) }
{
    if area.is_borderless() {
        return Ok(InsideRoutes::new(alloc));
    }
    let mut ways = BestWays::new(alloc);
    for lsa in lsas {
        add_network_candidate(&mut ways, lsa, router, area, intra)?;
    }
    Ok(InsideRoutes::from_routes(ways.into_routes(alloc)?))
}

/// The entries of AS boundary routers of other areas, by router, by the summary-LSAs of the
/// examined area.
fn inter_entries<A: Allocator + Copy>(
    alloc: A,
    lsas: Lsas<'_, A>,
    router: RouterId,
    area: &IndexedArea<'_, A>,
) -> Result<Vec<RouterEntry<A>, A>, AllocError>
    requires { ResultBelow (2 ^ 33) area.now }
    ensures entries { IfOk result (λ entries. entries.items
        ≡ inter_entries router area.now lsas.entry) }
    ensures small { IfOk result (λ entries. EntriesBelow (2 ^ 34) entries.items) }
{
    if area.is_borderless() {
        return Ok(Vec::new(alloc));
    }
    let mut ways = BestWays::new(alloc);
    for lsa in lsas {
        add_asbr_candidate(&mut ways, lsa, router, area)?;
    }
    entries(alloc, ways.into_list(alloc)?, area.area())
}

/// Takes the way to a prefix of another area that an LSA gives, if it does, into account.
fn add_network_candidate<'a, A: Allocator + Copy>(
    ways: &mut BestWays<'a, Prefix, A>,
    lsa: &Lsa<A>,
    router: RouterId,
    area: &IndexedArea<'a, A>,
    intra: &InsideRoutes<A>,
) -> Result<(), AllocError>
    ensures { OnOk result ((cs : List (Candidate Net)) → Gathers cs ways.old
        → Gathers
        (cs ++ cons_option (network_candidate router area.now intra.now lsa.now) []) ways.new) }
{
    if let Some(net) = announced_network(lsa, intra) {
        add_summary_candidate(ways, net, lsa, router, area)?;
    }
    Ok(())
}

/// Takes the way to an AS boundary router of another area that an LSA gives, if it does, into
/// account.
fn add_asbr_candidate<'a, A: Allocator + Copy>(
    ways: &mut BestWays<'a, RouterId, A>,
    lsa: &Lsa<A>,
    router: RouterId,
    area: &IndexedArea<'a, A>,
) -> Result<(), AllocError>
    ensures { OnOk result ((cs : List (Candidate AnyRouter)) → Gathers cs ways.old
        → Gathers
        (cs ++ cons_option (asbr_candidate router area.now lsa.now) []) ways.new) }
{
    if let Some(asbr) = announced_asbr(lsa, router, area) {
        add_summary_candidate(ways, asbr, lsa, router, area)?;
    }
    Ok(())
}

/// Takes the way by a summary-LSA to its destination into account, where the LSA is usable and its
/// originator has an entry.
fn add_summary_candidate<'a, K: Ord + Copy + Drop, A: Allocator + Copy>(
    ways: &mut BestWays<'a, K, A>,
    key: K,
    lsa: &Lsa<A>,
    router: RouterId,
    area: &IndexedArea<'a, A>,
) -> Result<(), AllocError>
    ensures { OnOk result ((cs : List (Candidate K)) → Gathers cs ways.old
        → Gathers
        (cs ++ cons_option (candidate_to router area.now lsa.now key) []) ways.new) }
{
    let (Some(metric), Some(border)) = (usable_metric(lsa, router), area.border(lsa.key().adv))
    else {
        return Ok(());
    };
    let rank = Rank {
        path: PathType::Inter,
        cost2: 0,
        class: 0,
        cost: border.cost + u64::from(metric),
    };
    ways.add_candidate(key, rank, Some(area.area()), border.hops.as_slice())
}

/// The entry of an AS boundary router of another area.
fn entry<A: Allocator + Copy>(asbr: RouterId, way: Way<A>, area: AreaId) -> RouterEntry<A>
    ensures { result ≡ asbr_entry area (asbr, way) }
{
    RouterEntry {
        router: asbr,
        area,
        kind: EntryKind::AsbrInter,
        cost: way.rank().cost,
        hops: way.hops,
    }
}

/// The entry of an AS boundary router of another area, for each way.
fn entries<A: Allocator + Copy>(
    alloc: A,
    ways: Vec<(RouterId, Way<A>), A>,
    area: AreaId,
) -> Result<Vec<RouterEntry<A>, A>, AllocError>
    ensures { IfOk result (λ entries. entries.items ≡ map (asbr_entry area) ways.items) }
{
    ways.into_iter()
        .map(|(asbr, way)| entry(asbr, way, area))
        .collect(alloc)
}
