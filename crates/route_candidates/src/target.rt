//! Where the used candidates of a route lead within areas.

ghost use Rattle.std.specs.Prelude.{◌≡◌, ◌++◌, [], IfOk, OnOk};
ghost use Rattle.std.specs.List.{cons_option, filter_map, flat_map};
ghost use Rattle.std.specs.Option.{option_copied};
ghost use Rattle.lsa_codec.specs.Fields.{kind_of};
ghost use Rattle.lsa_codec.specs.LsTypes.{external_lsa};
ghost use Rattle.route_candidates.specs.Targets.{border_target, border_targets_in, boundary_targets, costs, external_targets, forward_targets, inside_target, inside_targets, target_in, targets_of, targets_of_one, targets_over};
ghost use Rattle.route_candidates.specs.RouterViews.{inside_of};

use crate::all_candidates::candidates;
use crate::candidate::Candidate;
use crate::router_view::RouterView;
use area_candidates::{AreaView, Standing, found_at, judged_border};
use area_graph::Vertex;
use area_routes::{EntryKind, Route, RouterEntry};
use lsa_codec::{
    ASBR_SUMMARY_LSA, Addr, AreaId, EXTERNAL_LSA, ExternalView, Lsa, NETWORK_LSA, Prefix,
    ROUTER_LSA, SUMMARY_LSA,
};
use lsa_names::LsaName;
use lsdb::{Lsas, Section};
use std::alloc::{AllocError, Allocator};

/// A vertex of an area to which a route leads.
#[derive(Clone, Copy, Debug, PartialEq, Eq)]
pub struct Target {
    /// The area.
    pub area: AreaId,
    /// The network, the router of a stub link, or the border router or AS boundary router.
    pub vertex: Vertex,
    /// The LSA by which it is one: that of the candidate or, of an external candidate, the
    /// summary-LSA for its AS boundary router, or one for its forwarding address. There is none
    /// where an AS boundary router of the area is reached within it.
    pub by: Option<LsaName>,
}

/// The vertex of an area that an LSA inside the AS leads to.
fn target_in(lsa: LsaName, area: AreaId) -> Option<Target>
    ensures { result ≡ target_in lsa area }
{
    let vertex = match lsa.key.kind {
        NETWORK_LSA => Vertex::Network(lsa.key.id),
        ROUTER_LSA | SUMMARY_LSA => Vertex::Router(lsa.key.adv),
        _ => return None,
    };
    Some(Target {
        area,
        vertex,
        by: Some(lsa),
    })
}

/// The target of a candidate inside the AS, if it is used.
fn inside_target(candidate: &Candidate) -> Option<Target>
    ensures { result ≡ inside_target candidate.now }
{
    if !candidate.rule.is_used() {
        return None;
    }
    target_in(candidate.lsa, candidate.lsa.area?)
}

/// The targets of a route inside the AS.
fn inside_targets<A: Allocator + Copy>(
    alloc: A,
    view: &RouterView<'_, A>,
    net: Prefix,
) -> Result<Vec<Target, A>, AllocError>
    ensures { IfOk result (λ targets. targets.items ≡ inside_targets view.now net) }
{
    let candidates = candidates(alloc, view, net)?;
    candidates.iter().filter_map(inside_target).collect(alloc)
}

/// Whether a candidate is left, at this cost.
fn costs(cost: u64, standing: Standing) -> bool
    ensures { result ≡ costs cost standing }
{
    match standing {
        Standing::Out(_) => false,
        Standing::Left(rank) => rank.cost == cost,
    }
}

/// The area border router of a summary-LSA of type 4 for an AS boundary router, if it gives the
/// cost of this entry.
fn border_target<A: Allocator + Copy>(
    view: &AreaView<'_, A>,
    entry: &RouterEntry<A>,
    lsa: &Lsa<A>,
) -> Option<Target>
    ensures { result ≡ border_target view.now entry.now lsa.now }
{
    let key = lsa.key();
    if key.kind != ASBR_SUMMARY_LSA
        || key.id.0 != entry.router.0
        || !costs(entry.cost, judged_border(view, lsa).standing)
    {
        return None;
    }
    Some(Target {
        area: view.area(),
        vertex: Vertex::Router(key.adv),
        by: Some(LsaName::of(Some(view.area()), lsa)),
    })
}

/// Adds the area border router of a summary-LSA of type 4, if it gives the cost of an entry.
fn push_border_target<A: Allocator + Copy>(
    targets: &mut Vec<Target, A>,
    entry: &RouterEntry<A>,
    view: &AreaView<'_, A>,
    lsa: &Lsa<A>,
) -> Result<(), AllocError>
    ensures { OnOk result (targets.new.items
        ≡ targets.old.items ++ cons_option (border_target view.now entry.now lsa.now) []) }
{
    if let Some(target) = border_target(view, entry, lsa) {
        targets.push(target)?;
    }
    Ok(())
}

/// Adds the area border routers of some LSAs of an area that give the cost of an entry.
fn push_borders_of<A: Allocator + Copy>(
    targets: &mut Vec<Target, A>,
    entry: &RouterEntry<A>,
    view: &AreaView<'_, A>,
    lsas: Lsas<'_, A>,
) -> Result<(), AllocError>
    ensures { OnOk result (targets.new.items
        ≡ targets.old.items ++ filter_map (border_target view.now entry.now) lsas.entry) }
{
    for lsa in lsas {
        push_border_target(targets, entry, view, lsa)?;
    }
    Ok(())
}

/// Adds the area border routers that give the cost of an entry, if this is the entry's area.
fn push_border_targets<A: Allocator + Copy>(
    targets: &mut Vec<Target, A>,
    entry: &RouterEntry<A>,
    view: &AreaView<'_, A>,
) -> Result<(), AllocError>
    ensures { OnOk result
        (targets.new.items ≡ targets.old.items ++ border_targets_in entry.now view.now) }
{
    let area = view.area();
    if area.0 != entry.area.0 {
        return Ok(());
    }
    let lsas = view.database().lsas(Section::Area(area));
    push_borders_of(targets, entry, view, lsas)
}

/// Where an entry of an AS boundary router leads.
fn boundary_targets<A: Allocator + Copy>(
    alloc: A,
    views: &[AreaView<'_, A>],
    entry: &RouterEntry<A>,
) -> Result<Vec<Target, A>, AllocError>
    ensures { IfOk result (λ targets. targets.items ≡ boundary_targets views.now entry.now) }
{
    let mut targets = Vec::new(alloc);
    match entry.kind {
        EntryKind::Border => (),
        EntryKind::AsbrIntra => targets.push(Target {
            area: entry.area,
            vertex: Vertex::Router(entry.router),
            by: None,
        })?,
        EntryKind::AsbrInter => push_all_borders(&mut targets, entry, views)?,
    }
    Ok(targets)
}

/// Adds the area border routers of all areas that give the cost of an entry.
fn push_all_borders<A: Allocator + Copy>(
    targets: &mut Vec<Target, A>,
    entry: &RouterEntry<A>,
    views: &[AreaView<'_, A>],
) -> Result<(), AllocError>
    ensures { OnOk result (targets.new.items
        ≡ targets.old.items ++ flat_map (border_targets_in entry.now) views.now) }
{
    for view in views {
        push_border_targets(targets, entry, view)?;
    }
    Ok(())
}

/// Where the route to a forwarding address leads.
fn forward_targets<A: Allocator + Copy>(
    alloc: A,
    view: &RouterView<'_, A>,
    route: Option<&Route<A>>,
) -> Result<Vec<Target, A>, AllocError>
    ensures { IfOk result (λ targets. targets.items
        ≡ forward_targets view.now (option_copied route.entry)) }
{
    match route {
        Some(route) => inside_targets(alloc, view, route.net),
        None => Ok(Vec::new(alloc)),
    }
}

/// Where an AS-external-LSA leads, over its originator's preferred entry.
fn targets_over<A: Allocator + Copy>(
    alloc: A,
    view: &RouterView<'_, A>,
    lsa: &ExternalView<'_>,
    entry: Option<&RouterEntry<A>>,
) -> Result<Vec<Target, A>, AllocError>
    ensures { IfOk result (λ targets. targets.items ≡ targets_over view.now
        (inside_of view.now.db view.now.router) lsa.now (option_copied entry.entry)) }
{
    let Some(entry) = entry else {
        return Ok(Vec::new(alloc));
    };
    let forward = lsa.forward();
    if forward == Addr(0) {
        return boundary_targets(alloc, view.areas(), entry);
    }
    forward_targets(alloc, view, view.inside().forward_match(forward))
}

/// Where an AS-external-LSA leads.
fn external_targets<A: Allocator + Copy>(
    alloc: A,
    view: &RouterView<'_, A>,
    lsa: &Lsa<A>,
) -> Result<Vec<Target, A>, AllocError>
    requires { kind_of lsa.now ≡ external_lsa }
    ensures { IfOk result (λ targets. targets.items ≡ external_targets view.now lsa.now) }
{
    let Some(external) = lsa.external() else {
        unreachable!()
    };
    let entry = view.inside().preferred(lsa.key().adv);
    targets_over(alloc, view, &external, entry)
}

/// The targets of a candidate, if it is used.
fn targets_of_one<A: Allocator + Copy>(
    alloc: A,
    view: &RouterView<'_, A>,
    candidate: &Candidate,
) -> Result<Vec<Target, A>, AllocError>
    ensures { IfOk result (λ targets. targets.items ≡ targets_of_one view.now candidate.now) }
{
    let key = candidate.lsa.key;
    if candidate.rule.is_used() && key.kind == EXTERNAL_LSA {
        return match found_at(view.database(), candidate.lsa.area, key) {
            Some(found) => external_targets(alloc, view, found.lsa()),
            None => Ok(Vec::new(alloc)),
        };
    }
    let mut targets = Vec::new(alloc);
    if let Some(target) = inside_target(candidate) {
        targets.push(target)?;
    }
    Ok(targets)
}

/// The targets of a route by its candidates: the networks and routers whose LSAs have the prefix at
/// the least cost; or the area border routers of the summary-LSAs; or those routers, AS boundary
/// routers and networks to which the AS-external-LSAs lead.
///
/// # Errors
///
/// Memory ran out.
pub fn targets<A: Allocator + Copy>(
    alloc: A,
    view: &RouterView<'_, A>,
    candidates: &[Candidate],
) -> Result<Vec<Target, A>, AllocError>
    ensures { IfOk result (λ targets. targets.items ≡ targets_of view.now candidates.now) }
{
    let mut targets = Vec::new(alloc);
    for candidate in candidates {
        targets.append(&mut targets_of_one(alloc, view, candidate)?)?;
    }
    Ok(targets)
}
