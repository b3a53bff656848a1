//! The preferred entries of all AS boundary routers, found by router.

ghost use Rattle.std.specs.Prelude.{◌≡◌, ◌+◌, ◌<◌, length, IfOk, OnOk};
ghost use Rattle.std.specs.BTreeMap.{get};
ghost use Rattle.std.specs.Option.{option_copied};
ghost use Rattle.lsa_codec.specs.Order.{router_cmp};
ghost use Rattle.external_routes.specs.steps.Lookup.{comes_first, entry_at, MapsPreferred};

use crate::choose::{is_asbr, preference};
use area_routes::RouterEntry;
use lsa_codec::RouterId;
use std::alloc::{AllocError, Allocator};
use std::cmp::Ordering;
use std::collections::BTreeMap;

/// The index of the preferred entry of each AS boundary router.
pub(crate) type AsbrMap<A> = BTreeMap<RouterId, usize, A>;

/// The entry of a router whose index is in the map.
fn entry_for<'a, A: Allocator + Copy>(
    asbrs: &AsbrMap<A>,
    entries: &'a [RouterEntry<A>],
    router: RouterId,
) -> Option<&'a RouterEntry<A>>
    ensures { option_copied result ≡ entry_at entries.now (get router_cmp asbrs.now router) }
{
    let index = asbrs.get(&router)?;
    entries.get(*index)
}

/// Whether an entry comes first: it is preferred to the other, if there is one.
fn comes_first<A: Allocator + Copy>(entry: &RouterEntry<A>, other: Option<&RouterEntry<A>>) -> bool
    ensures { result ≡ comes_first entry.now (option_copied other.entry) }
{
    match other {
        Some(other) => preference(entry, other) == Ordering::Less,
        None => true,
    }
}

/// Inserts the index of an entry, where the entry is preferred to the one in the map for the same
/// router.
fn insert_entry<A: Allocator + Copy>(
    asbrs: &mut AsbrMap<A>,
    entries: &[RouterEntry<A>],
    index: usize,
) -> Result<(), AllocError>
    requires { index < length entries.now }
    ensures { OnOk result (MapsPreferred entries.now index asbrs.old
        → MapsPreferred entries.now (index + 1) asbrs.new) }
{
    let entry = &entries[index];
    let router = entry.router;
    if is_asbr(entry, router) && comes_first(entry, entry_for(asbrs, entries, router)) {
        asbrs.insert(router, index)?;
    }
    Ok(())
}

/// The indexes of the preferred entries of all AS boundary routers.
pub(crate) fn map_asbrs<A: Allocator + Copy>(
    alloc: A,
    entries: &[RouterEntry<A>],
) -> Result<AsbrMap<A>, AllocError>
    ensures { IfOk result (MapsPreferred entries.now (length entries.now)) }
{
    let mut asbrs = BTreeMap::new(alloc);
    for index in 0..entries.len() {
        insert_entry(&mut asbrs, entries, index)?;
    }
    Ok(asbrs)
}
