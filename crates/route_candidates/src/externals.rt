//! The AS-external-LSAs of a prefix.

ghost use Rattle.std.specs.Prelude.{◌≡◌, ◌<◌, ◌^◌, IfOk, IfSome, not};
ghost use Rattle.std.specs.List.{list_any};
ghost use Rattle.std.specs.Option.{option_copied};
ghost use Rattle.lsa_codec.specs.Areas.{is_backbone};
ghost use Rattle.lsa_codec.specs.Fields.{kind_of};
ghost use Rattle.lsa_codec.specs.LsTypes.{external_lsa};
ghost use Rattle.external_routes.specs.Choose.{entry_class, route_class};
ghost use Rattle.external_routes.specs.External.{external_rank};
ghost use Rattle.route_candidates.specs.Outside.{external_draft, external_drafts, judged_boundary, judged_external, judged_flooded, judged_forward, judged_way};

use crate::inside_view::InsideView;
use crate::router_view::RouterView;
use area_candidates::{Draft, FoundLsa, Judged, Rule, lsas_in_order};
use area_routes::{EntryKind, PathType, Rank, Route, RouterEntry};
use lsa_codec::{Addr, AreaId, EXTERNAL_LSA, ExternalView, LS_INFINITY, Lsa, Prefix};
use std::alloc::{AllocError, Allocator};

/// The class of an entry: 0 for a path within an area other than the backbone, which is preferred,
/// else 1 (RFC 2328, 16.4.1).
fn entry_class<A: Allocator + Copy>(entry: &RouterEntry<A>) -> u8
    ensures { result ≡ entry_class entry.now }
{
    if entry.kind == EntryKind::AsbrIntra && entry.area != AreaId::BACKBONE {
        0
    } else {
        1
    }
}

/// Whether one of the areas is not the backbone.
fn leaves_backbone(areas: &[AreaId]) -> bool
    ensures { result ≡ list_any (λ area. not (is_backbone area)) areas.now }
{
    areas.iter().any(|area| *area != AreaId::BACKBONE)
}

/// The class of a route, by the same rule: 0 where it is an intra-area route and one of its areas
/// is not the backbone.
fn route_class<A: Allocator + Copy>(route: &Route<A>) -> u8
    ensures { result ≡ route_class route.now }
{
    match route.kind {
        PathType::Intra if leaves_backbone(route.areas.as_slice()) => 0,
        _ => 1,
    }
}

/// What an external path over a way of this class and cost is compared by (RFC 2328, 16.4).
fn external_rank(lsa: &ExternalView<'_>, class: u8, cost: u64) -> Rank
    requires { cost < 2 ^ 34 }
    ensures { result ≡ external_rank lsa.now class cost }
{
    let metric = lsa.metric();
    let (path, cost2, cost) = if lsa.is_type2() {
        (PathType::Ext2, metric, cost)
    } else {
        (PathType::Ext1, 0, cost + u64::from(metric))
    };
    Rank {
        path,
        cost2,
        class,
        cost,
    }
}

/// An AS-external-LSA over a way inside the AS.
fn judged_way(is_inside: bool, lsa: &ExternalView<'_>, class: u8, cost: u64) -> Judged
    requires { cost < 2 ^ 34 }
    ensures { result ≡ judged_way is_inside lsa.now class cost }
{
    if is_inside {
        return Judged::out_at(cost, Rule::InsidePreferred);
    }
    Judged::left(cost, external_rank(lsa, class, cost))
}

/// An AS-external-LSA over a route to its forwarding address.
fn judged_forward<A: Allocator + Copy>(
    is_inside: bool,
    lsa: &ExternalView<'_>,
    route: Option<&Route<A>>,
) -> Judged
    requires { IfSome route (λ r. r.now.cost < 2 ^ 34) }
    ensures { result ≡ judged_forward is_inside lsa.now (option_copied route.entry) }
{
    match route {
        Some(route) => judged_way(is_inside, lsa, route_class(route), route.cost),
        None => Judged::out(Rule::ForwardNotReached),
    }
}

/// An AS-external-LSA over the preferred way to its originator, or over a route to its forwarding
/// address.
fn judged_boundary<A: Allocator + Copy>(
    is_inside: bool,
    inside: &InsideView<A>,
    lsa: &ExternalView<'_>,
    entry: Option<&RouterEntry<A>>,
) -> Judged
    requires { IfSome entry (λ e. e.now.cost < 2 ^ 34) }
    ensures { result ≡ judged_boundary is_inside inside.now lsa.now (option_copied entry.entry) }
{
    let Some(entry) = entry else {
        return Judged::out(Rule::BoundaryNotReached);
    };
    let forward = lsa.forward();
    if forward == Addr(0) {
        return judged_way(is_inside, lsa, entry_class(entry), entry.cost);
    }
    judged_forward(is_inside, lsa, inside.forward_match(forward))
}

/// What the rules say of an AS-external-LSA that is flooded to the router.
fn judged_flooded<A: Allocator + Copy>(
    is_inside: bool,
    view: &RouterView<'_, A>,
    lsa: &Lsa<A>,
    external: &ExternalView<'_>,
) -> Judged
    requires { external.now ≡ lsa.now }
    ensures { result ≡ judged_flooded is_inside view.now lsa.now }
{
    let originator = lsa.key().adv;
    if lsa.at_max_age() {
        Judged::out(Rule::ExternalMaxAge)
    } else if external.metric() >= LS_INFINITY {
        Judged::out(Rule::ExternalInfinity)
    } else if originator == view.router() {
        Judged::out(Rule::ExternalItsOwn)
    } else {
        let inside = view.inside();
        judged_boundary(is_inside, inside, external, inside.preferred(originator))
    }
}

/// What the rules say of an AS-external-LSA.
fn judged_external<A: Allocator + Copy>(
    view: &RouterView<'_, A>,
    found: &FoundLsa<'_, A>,
    is_inside: bool,
    external: &ExternalView<'_>,
) -> Judged
    requires { external.now ≡ found.now.lsa }
    ensures { result ≡ judged_external is_inside view.now found.now.lsa }
{
    if view.is_outside_stubs() {
        judged_flooded(is_inside, view, found.lsa(), external)
    } else {
        Judged::out(Rule::StubAreasAlone)
    }
}

/// An AS-external-LSA as a candidate.
fn external_draft<A: Allocator + Copy>(
    is_inside: bool,
    view: &RouterView<'_, A>,
    found: &FoundLsa<'_, A>,
) -> Draft
    requires { kind_of found.now.lsa ≡ external_lsa }
    ensures { result ≡ external_draft is_inside view.now found.now }
{
    let lsa = found.lsa();
    let Some(external) = lsa.external() else {
        unreachable!()
    };
    Draft {
        lsa: found.name(),
        link: None,
        metric: external.metric(),
        judged: judged_external(view, found, is_inside, &external),
    }
}

/// The AS-external-LSAs with the prefix as candidates, by originator and Link State ID, where a
/// candidate inside the AS is used or not.
///
/// # Errors
///
/// Memory ran out.
pub(crate) fn external_drafts<A: Allocator + Copy>(
    alloc: A,
    is_inside: bool,
    view: &RouterView<'_, A>,
    net: Prefix,
) -> Result<Vec<Draft, A>, AllocError>
    ensures { IfOk result (λ drafts. drafts.items ≡ external_drafts is_inside view.now net) }
{
    let lsas = lsas_in_order(alloc, view.database(), None, EXTERNAL_LSA, net)?;
    let mut drafts = Vec::new(alloc);
    for found in &lsas {
        drafts.push(external_draft(is_inside, view, found))?;
    }
    Ok(drafts)
}
