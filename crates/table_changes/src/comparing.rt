//! How two entries for a prefix differ.

ghost use Rattle.std.specs.Prelude.{◌≡◌};
ghost use Rattle.std.specs.Option.{option_copied};
ghost use Rattle.table_changes.specs.Changes.{change_between, change_of, leads_elsewhere, same_way};

use crate::change::Change;
use crate::equality::{are_equal_hops, has_hop, is_same_kind};
use next_hops::Hop;
use router_entries::Entry;
use std::cmp::Ordering;

/// Whether one of the hops is among those that lead to other routers.
fn leads_elsewhere(rerouted: &[Hop], hops: &[Hop]) -> bool
    ensures { result ≡ leads_elsewhere rerouted.now hops.now }
{
    hops.iter().any(|hop| has_hop(rerouted, *hop))
}

/// Whether two entries lead the same way: through the same area, over the same hops, to the same
/// routers.
fn is_same_way(rerouted: &[Hop], before: &Entry<'_>, now: &Entry<'_>) -> bool
    ensures { result ≡ same_way rerouted.now before.now now.now }
{
    before.area == now.area
        && are_equal_hops(before.hops, now.hops)
        && !leads_elsewhere(rerouted, now.hops)
}

/// What differs between two entries, if anything does.
fn change_between(rerouted: &[Hop], before: &Entry<'_>, now: &Entry<'_>) -> Option<Change>
    ensures { result ≡ change_between rerouted.now before.now now.now }
{
    if !is_same_kind(before.kind, now.kind) {
        return Some(Change::OtherKind);
    }
    match (before.metric, before.cost).cmp(&(now.metric, now.cost)) {
        Ordering::Less => Some(Change::Costlier),
        Ordering::Equal if is_same_way(rerouted, before, now) => None,
        Ordering::Equal => Some(Change::Moved),
        Ordering::Greater => Some(Change::Cheaper),
    }
}

/// What differs for a prefix between the entry before and the one of now, if anything does. The
/// hops of `rerouted` are those that lead to other routers than they did.
pub fn change_of(
    rerouted: &[Hop],
    before: Option<&Entry<'_>>,
    now: Option<&Entry<'_>>,
) -> Option<Change>
    ensures { result ≡ change_of rerouted.now
        (option_copied before.entry) (option_copied now.entry) }
{
    match (before, now) {
        (None, None) => None,
        (Some(_), None) => Some(Change::Missing),
        (None, Some(_)) => Some(Change::Gained),
        (Some(before), Some(now)) => change_between(rerouted, before, now),
    }
}
