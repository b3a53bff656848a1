//! The classes of ways inside the AS, and the preferred entry of an AS boundary router.

ghost use Rattle.std.specs.Prelude.{◌≡◌, not};
ghost use Rattle.std.specs.List.{list_any};
ghost use Rattle.std.specs.Option.{option_copied};
ghost use Rattle.lsa_codec.specs.Areas.{is_backbone};
ghost use Rattle.area_graph.specs.Least.{later};
ghost use Rattle.external_routes.specs.Choose.{entry_class, is_asbr, preference, preferred, route_class};

use area_routes::{EntryKind, PathType, Route, RouterEntry};
use lsa_codec::{AreaId, RouterId};
use std::alloc::Allocator;
use std::cmp::Ordering;

/// The class of an entry: 0 for an intra-area path through an area that is not the backbone, else 1
/// (RFC 2328, 16.4.1).
pub(crate) fn entry_class<A: Allocator + Copy>(entry: &RouterEntry<A>) -> u8
    ensures { result ≡ entry_class entry.now }
{
    if entry.kind == EntryKind::AsbrIntra && entry.area != AreaId::BACKBONE {
        0
    } else {
        1
    }
}

/// Whether one of the areas is not the backbone.
fn leaves_backbone(areas: &[AreaId]) -> bool
    ensures { result ≡ list_any (λ area. not (is_backbone area)) areas.now }
{
    areas.iter().any(|area| *area != AreaId::BACKBONE)
}

/// The class of a route: 0 for an intra-area route where one of its areas is not the backbone, else
/// 1 (RFC 2328, 16.4.1).
pub(crate) fn route_class<A: Allocator + Copy>(route: &Route<A>) -> u8
    ensures { result ≡ route_class route.now }
{
    match route.kind {
        PathType::Intra if leaves_backbone(route.areas.as_slice()) => 0,
        _ => 1,
    }
}

/// Which of two entries is preferred (RFC 2328, 16.4.1).
pub(crate) fn preference<A: Allocator + Copy>(a: &RouterEntry<A>, b: &RouterEntry<A>) -> Ordering
    ensures { result ≡ preference a.now b.now }
{
    let class = entry_class(a).cmp(&entry_class(b));
    class.then(a.cost.cmp(&b.cost)).then(b.area.cmp(&a.area))
}

/// Whether an entry is one of the router as an AS boundary router.
pub(crate) fn is_asbr<A: Allocator + Copy>(entry: &RouterEntry<A>, router: RouterId) -> bool
    ensures { result ≡ is_asbr router entry.now }
{
    entry.kind != EntryKind::Border && entry.router == router
}

/// The preferred one of the best entry so far and another entry.
fn better<'a, A: Allocator + Copy>(
    best: Option<&'a RouterEntry<A>>,
    entry: &'a RouterEntry<A>,
) -> &'a RouterEntry<A>
    ensures { result.now ≡ later preference (option_copied best.entry) entry.now }
{
    match best {
        Some(best) if preference(entry, best) != Ordering::Less => best,
        _ => entry,
    }
}

/// The preferred one of a router's entries as an AS boundary router (RFC 2328, 16.4.1). Intra-area
/// entries of non-backbone areas come before all others, then the least cost, then the largest Area
/// ID. It takes no memory.
pub fn preferred<A: Allocator + Copy>(
    entries: &[RouterEntry<A>],
    asbr: RouterId,
) -> Option<&RouterEntry<A>>
    ensures { option_copied result ≡ preferred entries.now asbr }
{
    let mut best = None;
    for entry in entries {
        if is_asbr(entry, asbr) {
            best = Some(better(best, entry));
        }
    }
    best
}
