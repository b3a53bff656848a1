//! The results of a router's areas.

ghost use Rattle.std.specs.Prelude.{◌≡◌, IfOk, List};
ghost use Rattle.std.specs.Option.{option_copied};
ghost use Rattle.lsdb.specs.Lists.{Lists};
ghost use Rattle.area_routes.specs.Inter.{entries_of_all};
ghost use Rattle.best_ways.specs.Routes.{route_to};
ghost use Rattle.area_routes.specs.Values.{AreaResultValue};
ghost use Rattle.external_routes.specs.Choose.{preferred};
ghost use Rattle.area_routes.specs.AreaResults.{results_of};
ghost use Rattle.summary_metrics.specs.SummaryMetrics.{AreGiven, AreInside};
ghost use Rattle.summary_metrics.specs.steps.AnnouncedCosts.{IsAnnouncedFor, asbr_cost, entry_cost, net_cost, route_cost};

use crate::asbr_entries::asbr_entries;
use crate::border_costs::BorderCosts;
use crate::nets::Nets;
use crate::sources::BackboneSummaries;
use area_routes::{AreaResult, InsideRoutes, Route, RouterEntries, RouterEntry, intra};
use external_routes::{is_among, preferred};
use lsa_codec::{AreaId, Prefix, RouterId};
use std::alloc::{AllocError, Allocator};
use std::marker::Model;

/// The intra-area routes of a router, the entries of AS boundary routers of its areas, and the
/// costs of the area border routers of the backbone.
#[derive(Drop)]
pub(crate) struct Inside<A: Allocator> {
    nets: Nets<A>,
    routes: InsideRoutes<A>,
    entries: RouterEntries<A>,
    borders: BorderCosts<A>,
}

impl<A: Allocator> Model for Inside<A> {
    ghost use Rattle.std.specs.Prelude.{◌≡◌, map};
    ghost use Rattle.summary_metrics.specs.SummaryMetrics.{InsideValue};

    ghost Value = { InsideValue };

    ghost view = { λ i. record { routes = i.routes; entries = i.entries; borders = i.borders } };

    ghost invariant = { λ i. i.nets ≡ map (λ r. r.net) i.routes };
}

/// The cost of an intra-area route; none where one of its paths leads through the area.
fn route_cost<A: Allocator + Copy>(area: AreaId, route: &Route<A>) -> Option<u64>
    ensures { result ≡ route_cost area route.now }
{
    if is_among(area, route.areas.as_slice()) {
        return None;
    }
    Some(route.cost)
}

/// The cost of an entry; none where it is of the area.
fn entry_cost<A: Allocator + Copy>(area: AreaId, entry: &RouterEntry<A>) -> Option<u64>
    ensures { result ≡ entry_cost area entry.now }
{
    if entry.area == area {
        return None;
    }
    Some(entry.cost)
}

impl<A: Allocator + Copy> Inside<A> {
    /// The routes, entries and costs of the results of a router's areas.
    pub(crate) fn of(alloc: A, results: &[AreaResult<A>]) -> Result<Inside<A>, AllocError>
        ensures { IfOk result (AreGiven results.now) }
    {
        let routes = intra(alloc, results)?;
        let nets = routes.as_routes().nets(alloc)?;
        Ok(Inside {
            nets: Nets::from_sorted(nets),
            routes,
            entries: asbr_entries(alloc, results)?,
            borders: BorderCosts::of(alloc, results)?,
        })
    }

    /// The intra-area route to a prefix, if there is one.
    fn route_to(&self, net: Prefix) -> Option<&Route<A>>
        ensures { option_copied result ≡ route_to self.now.routes net }
    {
        let routes = self.routes.as_routes().as_slice();
        match self.nets.place_of(net) {
            Some(place) => Some(&routes[place]),
            None => None,
        }
    }

    /// The preferred entry of an AS boundary router, if there is one.
    fn entry_of(&self, asbr: RouterId) -> Option<&RouterEntry<A>>
        ensures { (results : List AreaResultValue) → AreGiven results self.now
            → option_copied result ≡ preferred (entries_of_all results) asbr }
    {
        preferred(self.entries.as_slice(), asbr)
    }

    /// The cost for a prefix that a router announces into an area, if it does.
    pub(crate) fn net_cost(
        &self,
        area: AreaId,
        router: RouterId,
        net: Prefix,
        summaries: &Option<BackboneSummaries<A>>,
    ) -> Option<u64>
        ensures { (db : Lists) → AreInside db router self.now → IsAnnouncedFor db area summaries.now
            → result ≡ net_cost db area router (results_of db router) net }
    {
        if let Some(route) = self.route_to(net) {
            return route_cost(area, route);
        }
        match summaries {
            Some(summaries) if area != AreaId::BACKBONE => {
                self.borders.announced_from(router, summaries.of_net(net))
            }
            _ => None,
        }
    }

    /// The cost for an AS boundary router that a router announces into an area, if it does.
    pub(crate) fn asbr_cost(
        &self,
        area: AreaId,
        router: RouterId,
        asbr: RouterId,
        summaries: &Option<BackboneSummaries<A>>,
    ) -> Option<u64>
        ensures { (db : Lists) → AreInside db router self.now → IsAnnouncedFor db area summaries.now
            → result ≡ asbr_cost db area router (results_of db router) asbr }
    {
        if let Some(entry) = self.entry_of(asbr) {
            return entry_cost(area, entry);
        }
        if asbr == router {
            return None;
        }
        match summaries {
            Some(summaries) if area != AreaId::BACKBONE => {
                self.borders.announced_from(router, summaries.of_asbr(asbr))
            }
            _ => None,
        }
    }
}
