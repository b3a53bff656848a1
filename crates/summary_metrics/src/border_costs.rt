//! The costs of area border routers of the backbone.

ghost use Rattle.std.specs.Prelude.{◌≡◌, ◌<◌, ◌^◌, ◌++◌, ◌∷◌, [], List, IfOk, IfSome, OnOk, Some, map};
ghost use Rattle.std.specs.List.Sorted.{IsStrictlySortedBy};
ghost use Rattle.std.specs.Option.{option_map};
ghost use Rattle.std.specs.Map.{lookup};
ghost use Rattle.std.specs.Ordering.{eq_by_cmp};
ghost use Rattle.lsa_codec.specs.Order.{router_cmp};
ghost use Rattle.area_routes.specs.declared.entry.EntryKind.TheVariants.{Border};
ghost use Rattle.area_routes.specs.Inter.{same_kind};
ghost use Rattle.area_routes.specs.Values.{EntryValue};
ghost use Rattle.summary_metrics.specs.SummaryMetrics.{HasCosts, backbone_entries};
ghost use Rattle.summary_metrics.specs.steps.AnnouncedCosts.{CostsBelow, cost_from, lesser_cost, announced_from};

use crate::in_order::in_order;
use crate::sources::Source;
use area_routes::{AreaResult, EntryKind, RouterEntry, backbone};
use lsa_codec::RouterId;
use std::alloc::{AllocError, Allocator};
use std::cell::Cell;
use std::collections::BTreeMap;
use std::marker::Model;

/// The costs of area border routers, in order of router, each below 2^33. Contracts see them as the
/// list of these pairs.
///
/// The two border routers of an area mostly announce the same destinations, so a router is looked
/// up first where the last two were found. The cost does not depend on where it was looked up, so
/// contracts do not mention it.
#[derive(Drop)]
pub(crate) struct BorderCosts<A: Allocator> {
    costs: Vec<(RouterId, u64), A>,
    last: Cell<usize>,
    second_last: Cell<usize>,
}

impl<A: Allocator> Model for BorderCosts<A> {
    ghost use Rattle.std.specs.Prelude.{List, ℕ, map};
    ghost use Rattle.std.specs.List.Sorted.{IsStrictlySortedBy};
    ghost use Rattle.lsa_codec.specs.Order.{router_cmp};
    ghost use Rattle.lsa_codec.specs.declared.address.RouterId.{RouterId};
    ghost use Rattle.summary_metrics.specs.steps.AnnouncedCosts.{CostsBelow};

    ghost Value = { List (RouterId × ℕ) };

    ghost view = { λ b. b.costs.items };

    ghost invariant = { λ b. CostsBelow b.costs.items
        × IsStrictlySortedBy router_cmp (map (λ e. e.0) b.costs.items) };
}

/// Whether an entry is that of an area border router.
fn is_border<A: Allocator + Copy>(entry: &RouterEntry<A>) -> bool
    ensures { result ≡ same_kind entry.now.kind Border }
{
    entry.kind == EntryKind::Border
}

/// Adds the cost of an area border router, unless the router has one already, which then stays.
fn insert_cost<A: Allocator + Copy>(
    costs: &mut BTreeMap<RouterId, u64, A>,
    entry: &RouterEntry<A>,
) -> Result<(), AllocError>
    ensures { OnOk result ((entries : List EntryValue) → HasCosts entries costs.old.entries
        → HasCosts (entries ++ entry.now ∷ []) costs.new.entries) }
{
    if !is_border(entry) {
        return Ok(());
    }
    if let Some(first) = costs.insert(entry.router, entry.cost)? {
        costs.insert(entry.router, first)?;
    }
    Ok(())
}

/// The lesser of the least cost so far and another cost, if there is one.
fn lesser(least: Option<u64>, cost: Option<u64>) -> Option<u64>
    ensures { result ≡ lesser_cost least cost }
{
    match (least, cost) {
        (Some(least), Some(cost)) if cost < least => Some(cost),
        (Some(least), _) => Some(least),
        (None, cost) => cost,
    }
}

/// The costs of the area border routers among some entries.
fn costs_of<A: Allocator + Copy>(
    alloc: A,
    entries: &[RouterEntry<A>],
) -> Result<BTreeMap<RouterId, u64, A>, AllocError>
    ensures { IfOk result (λ costs. HasCosts entries.now costs.entries) }
{
    let mut costs = BTreeMap::new(alloc);
    for entry in entries {
        insert_cost(&mut costs, entry)?;
    }
    Ok(costs)
}

impl<A: Allocator + Copy> BorderCosts<A> {
    /// Costs below 2^33, in order of router. It takes no memory.
    fn from_sorted(costs: Vec<(RouterId, u64), A>) -> BorderCosts<A>
        requires below { CostsBelow costs.items }
        requires sorted { IsStrictlySortedBy router_cmp (map (λ e. e.0) costs.items) }
        ensures { result ≡ costs.items }
    {
        BorderCosts {
            costs,
            last: Cell::new(0),
            second_last: Cell::new(0),
        }
    }

    /// The costs of the area border routers of an area.
    fn of_area(alloc: A, area: &AreaResult<A>) -> Result<BorderCosts<A>, AllocError>
        ensures { IfOk result (HasCosts area.now.entries) }
    {
        let costs = costs_of(alloc, area.entries())?;
        Ok(BorderCosts::from_sorted(in_order(alloc, costs)?))
    }

    /// The costs of the area border routers of the backbone, by the results of a router's areas.
    pub(crate) fn of(alloc: A, results: &[AreaResult<A>]) -> Result<BorderCosts<A>, AllocError>
        ensures { IfOk result (HasCosts (backbone_entries results.now)) }
    {
        match backbone(results) {
            Some(area) => BorderCosts::of_area(alloc, area),
            None => Ok(BorderCosts::from_sorted(Vec::new(alloc))),
        }
    }

    /// The cost at a place, if it is that of a router.
    fn cost_at(&self, place: usize, router: RouterId) -> Option<u64>
        ensures { IfSome result
            (λ cost. Some cost ≡ lookup (eq_by_cmp router_cmp router) self.now) }
    {
        if place >= self.costs.len() {
            return None;
        }
        let (other, cost) = self.costs[place];
        if other != router {
            return None;
        }
        Some(cost)
    }

    /// The cost of an area border router and its place, by a binary search.
    fn search(&self, router: RouterId) -> Option<(usize, u64)>
        ensures { option_map (λ found. found.1) result
            ≡ lookup (eq_by_cmp router_cmp router) self.now }
    {
        let costs = self.costs.as_slice();
        match costs.binary_search_by_key(&router, |cost| cost.0) {
            Ok(place) => Some((place, costs[place].1)),
            Err(_) => None,
        }
    }

    /// The cost of an area border router, by a search whose place is noted.
    fn search_and_note(&self, router: RouterId) -> Option<u64>
        ensures { result ≡ lookup (eq_by_cmp router_cmp router) self.now }
    {
        match self.search(router) {
            Some((place, cost)) => {
                self.second_last.set(self.last.get());
                self.last.set(place);
                Some(cost)
            }
            None => None,
        }
    }

    /// The cost of an area border router, looked up first at a place, and then where the second
    /// last was found.
    fn look_up(&self, place: usize, router: RouterId) -> Option<u64>
        ensures { result ≡ lookup (eq_by_cmp router_cmp router) self.now }
    {
        if let Some(cost) = self.cost_at(place, router) {
            return Some(cost);
        }
        if let Some(cost) = self.cost_at(self.second_last.get(), router) {
            return Some(cost);
        }
        self.search_and_note(router)
    }

    /// The cost of an area border router.
    fn cost_of(&self, router: RouterId) -> Option<u64>
        ensures cost { result ≡ lookup (eq_by_cmp router_cmp router) self.now }
        ensures below { IfSome result (λ cost. cost < 2 ^ 33) }
    {
        self.look_up(self.last.get(), router)
    }

    /// The sum of the cost to the originator of a summary and the summary's metric; none where the
    /// originator is the calculating router.
    fn cost_from(&self, router: RouterId, source: &Source) -> Option<u64>
        ensures { result ≡ cost_from router self.now source.now }
    {
        if source.originator == router {
            return None;
        }
        let cost = self.cost_of(source.originator)?;
        Some(cost + u64::from(source.metric))
    }

    /// The minimum of these costs over some sources.
    pub(crate) fn announced_from(&self, router: RouterId, sources: &[Source]) -> Option<u64>
        ensures { result ≡ announced_from router self.now sources.now }
    {
        let mut least = None;
        for source in sources {
            least = lesser(least, self.cost_from(router, source));
        }
        least
    }
}
