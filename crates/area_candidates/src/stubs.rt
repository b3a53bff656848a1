//! The stub links with a prefix in an area.

ghost use Rattle.std.specs.Prelude.{◌≡◌, ◌+◌, ◌<◌, ◌^◌, ◌++◌, [], IfOk, IfSome, OnOk};
ghost use Rattle.std.specs.List.{cons_option};
ghost use Rattle.lsa_codec.specs.Links.{links_of};
ghost use Rattle.area_candidates.specs.InOrder.{is_prefix};
ghost use Rattle.area_candidates.specs.Within.{intra_drafts, drafts_within, judged_stub, judged_stub_at, stub_draft, stub_drafts, stub_drafts_of};

use crate::area_view::AreaView;
use crate::draft::{Draft, Judged, costing};
use crate::found_lsa::FoundLsa;
use crate::networks::{network_drafts, vertex_of};
use crate::ordered_lsas::lsas_in_order;
use crate::rule::Rule;
use area_routes::PathType;
use lsa_codec::{Link, Lsa, Prefix, ROUTER_LSA, RouterView};
use std::alloc::{AllocError, Allocator};

/// Whether a prefix is this one.
fn is_prefix(net: Prefix, other: Option<Prefix>) -> bool
    ensures { result ≡ is_prefix net other }
{
    match other {
        Some(other) => other.addr().0 == net.addr().0 && other.len() == net.len(),
        None => false,
    }
}

/// A stub link of a router at a distance.
fn judged_stub_at(metric: u16, distance: Option<u64>) -> Judged
    requires { IfSome distance (λ d. d < 2 ^ 32) }
    ensures { result ≡ judged_stub_at metric distance }
{
    let Some(distance) = distance else {
        return Judged::out(Rule::VertexNotReached);
    };
    Judged::left(
        distance,
        costing(PathType::Intra, distance + u64::from(metric)),
    )
}

/// What the rules say of a stub link of a router-LSA.
fn judged_stub<A: Allocator + Copy>(view: &AreaView<'_, A>, lsa: &Lsa<A>, metric: u16) -> Judged
    ensures { result ≡ judged_stub view.now lsa.now metric }
{
    if lsa.at_max_age() {
        return Judged::out(Rule::VertexMaxAge);
    }
    judged_stub_at(metric, view.distance(vertex_of(lsa)))
}

/// A link with its number as a candidate, if it is a stub link with the prefix.
fn stub_draft<A: Allocator + Copy>(
    view: &AreaView<'_, A>,
    net: Prefix,
    found: &FoundLsa<'_, A>,
    number: u16,
    link: Link,
) -> Option<Draft>
    ensures { result ≡ stub_draft view.now net found.now (number, link) }
{
    if !is_prefix(net, link.net()) {
        return None;
    }
    Some(Draft {
        lsa: found.name(),
        link: Some(number),
        metric: u32::from(link.metric),
        judged: judged_stub(view, found.lsa(), link.metric),
    })
}

/// Adds a link of a router-LSA with its number, if it is a stub link with the prefix.
fn push_stub_draft<A: Allocator + Copy>(
    drafts: &mut Vec<Draft, A>,
    view: &AreaView<'_, A>,
    net: Prefix,
    found: &FoundLsa<'_, A>,
    number: u16,
    link: Link,
) -> Result<(), AllocError>
    ensures { OnOk result (drafts.new.items ≡ drafts.old.items
        ++ cons_option (stub_draft view.now net found.now (number, link)) []) }
{
    if let Some(draft) = stub_draft(view, net, found, number, link) {
        drafts.push(draft)?;
    }
    Ok(())
}

/// The links of a router-LSA.
fn links_of<A: Allocator + Copy>(alloc: A, lsa: &RouterView<'_>) -> Result<Vec<Link, A>, AllocError>
    ensures { IfOk result (λ links. links.items ≡ links_of lsa.now) }
{
    lsa.links().collect(alloc)
}

/// Adds the stub links of a router-LSA with the prefix, by number.
fn push_stub_drafts<A: Allocator + Copy>(
    alloc: A,
    drafts: &mut Vec<Draft, A>,
    view: &AreaView<'_, A>,
    net: Prefix,
    found: &FoundLsa<'_, A>,
) -> Result<(), AllocError>
    ensures { OnOk result
        (drafts.new.items ≡ drafts.old.items ++ stub_drafts_of view.now net found.now) }
{
    let Some(lsa) = found.lsa().router() else {
        return Ok(());
    };
    let links = links_of(alloc, &lsa)?;
    for place in 0..lsa.link_count() {
        let link = links[usize::from(place)];
        push_stub_draft(drafts, view, net, found, place + 1, link)?;
    }
    Ok(())
}

/// Adds the stub links of an area with the prefix, by router and number.
fn push_stubs<A: Allocator + Copy>(
    alloc: A,
    drafts: &mut Vec<Draft, A>,
    view: &AreaView<'_, A>,
    net: Prefix,
) -> Result<(), AllocError>
    ensures { OnOk result (drafts.new.items ≡ drafts.old.items ++ stub_drafts view.now net) }
{
    let lsas = lsas_in_order(alloc, view.database(), Some(view.area()), ROUTER_LSA, net)?;
    for found in &lsas {
        push_stub_drafts(alloc, drafts, view, net, found)?;
    }
    Ok(())
}

/// Adds the candidates of an area: its networks of the prefix, and the stub links with it.
fn push_within<A: Allocator + Copy>(
    alloc: A,
    drafts: &mut Vec<Draft, A>,
    view: &AreaView<'_, A>,
    net: Prefix,
) -> Result<(), AllocError>
    ensures { OnOk result (drafts.new.items ≡ drafts.old.items ++ drafts_within net view.now) }
{
    let mut networks = network_drafts(alloc, view, net)?;
    drafts.append(&mut networks)?;
    push_stubs(alloc, drafts, view, net)
}

/// The candidates within the areas of a router, area by area.
///
/// # Errors
///
/// Memory ran out.
pub fn intra_drafts<A: Allocator + Copy>(
    alloc: A,
    views: &[AreaView<'_, A>],
    net: Prefix,
) -> Result<Vec<Draft, A>, AllocError>
    ensures { IfOk result (λ drafts. drafts.items ≡ intra_drafts views.now net) }
{
    let mut drafts = Vec::new(alloc);
    for view in views {
        push_within(alloc, &mut drafts, view, net)?;
    }
    Ok(drafts)
}
