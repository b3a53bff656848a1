//! The summary-LSAs of a prefix.

ghost use Rattle.std.specs.Prelude.{◌≡◌, ◌++◌, ◌<◌, ◌^◌, false, IfOk, IfSome, OnOk};
ghost use Rattle.lsa_codec.specs.Fields.{kind_of};
ghost use Rattle.lsa_codec.specs.LsTypes.{asbr_summary_lsa, summary_lsa};
ghost use Rattle.lsa_codec.specs.Views.{metric_of};
ghost use Rattle.area_candidates.specs.Between.{drafts_between, inter_drafts, is_border, is_examined, judged_by, judged_examined, judged_over, judged_summary, summary_draft};

use crate::area_view::AreaView;
use crate::draft::{Draft, Judged, costing};
use crate::found_lsa::FoundLsa;
use crate::ordered_lsas::lsas_in_order;
use crate::rule::Rule;
use area_graph::Vertex;
use area_routes::PathType;
use interfaces::router_lsa_of;
use lsa_codec::{AreaId, LS_INFINITY, Lsa, Prefix, RouterId, SUMMARY_LSA};
use std::alloc::{AllocError, Allocator};

/// Bit B of a router-LSA, of an area border router (RFC 2328, A.4.2).
const BIT_B: u8 = 1;

/// Whether the summary-LSAs of an area are examined: of the only one of a router's areas, or of the
/// backbone (RFC 2328, 16.2).
#[tactic(auto, using(crate::proofs::Alone::is_one_by_length))]
fn is_examined<A: Allocator + Copy>(views: &[AreaView<'_, A>], view: &AreaView<'_, A>) -> bool
    ensures { result ≡ is_examined views.now view.now }
{
    views.len() == 1 || view.area() == AreaId::BACKBONE
}

/// Whether a router sets bit B in an area.
fn is_border<A: Allocator + Copy>(view: &AreaView<'_, A>, router: RouterId) -> bool
    ensures { result ≡ is_border view.now router }
{
    match router_lsa_of(view.database(), view.area(), router) {
        Some(lsa) => lsa.flags() & BIT_B != 0,
        None => false,
    }
}

/// A summary-LSA whose originator is an area border router at a distance.
fn judged_over(is_within: bool, metric: u32, distance: u64) -> Judged
    requires { distance < 2 ^ 32 }
    ensures { result ≡ judged_over is_within metric distance }
{
    if is_within {
        return Judged::out_at(distance, Rule::IntraPreferred);
    }
    Judged::left(
        distance,
        costing(PathType::Inter, distance + u64::from(metric)),
    )
}

/// A summary-LSA by the distance of its originator.
fn judged_by(is_within: bool, is_abr: bool, metric: u32, distance: Option<u64>) -> Judged
    requires { IfSome distance (λ d. d < 2 ^ 32) }
    ensures { result ≡ judged_by is_within is_abr metric distance }
{
    match distance {
        None => Judged::out(Rule::BorderNotReached),
        Some(distance) if is_abr => judged_over(is_within, metric, distance),
        Some(distance) => Judged::out_at(distance, Rule::BorderWithoutBitB),
    }
}

/// What the rules say of a summary-LSA with this metric, of an area that is examined.
fn judged_examined<A: Allocator + Copy>(
    is_within: bool,
    view: &AreaView<'_, A>,
    lsa: &Lsa<A>,
    metric: u32,
) -> Judged
    requires { metric ≡ metric_of lsa.now }
    ensures { result ≡ judged_examined is_within view.now lsa.now }
{
    let originator = lsa.key().adv;
    if lsa.at_max_age() {
        Judged::out(Rule::SummaryMaxAge)
    } else if metric >= LS_INFINITY {
        Judged::out(Rule::SummaryInfinity)
    } else if originator == view.router() {
        Judged::out(Rule::SummaryItsOwn)
    } else {
        let distance = view.distance(Vertex::Router(originator));
        judged_by(is_within, is_border(view, originator), metric, distance)
    }
}

/// What the rules say of a summary-LSA for an AS boundary router, of an area that is examined. None
/// of them looks at routes within areas.
pub fn judged_border<A: Allocator + Copy>(view: &AreaView<'_, A>, lsa: &Lsa<A>) -> Judged
    requires { kind_of lsa.now ≡ asbr_summary_lsa }
    ensures { result ≡ judged_examined false view.now lsa.now }
{
    let Some(summary) = lsa.summary() else {
        unreachable!()
    };
    judged_examined(false, view, lsa, summary.metric())
}

/// What the rules say of a summary-LSA.
fn judged_summary<A: Allocator + Copy>(
    is_within: bool,
    is_examined: bool,
    view: &AreaView<'_, A>,
    lsa: &Lsa<A>,
    metric: u32,
) -> Judged
    requires { metric ≡ metric_of lsa.now }
    ensures { result ≡ judged_summary is_within is_examined view.now lsa.now }
{
    if !is_examined {
        return Judged::out(Rule::AreaNotExamined);
    }
    judged_examined(is_within, view, lsa, metric)
}

/// A summary-LSA as a candidate. Other LSAs have no metric, and come to none.
fn summary_draft<A: Allocator + Copy>(
    is_within: bool,
    is_examined: bool,
    view: &AreaView<'_, A>,
    found: &FoundLsa<'_, A>,
) -> Draft
    requires { kind_of found.now.lsa ≡ summary_lsa }
    ensures { result ≡ summary_draft is_within is_examined view.now found.now }
{
    let lsa = found.lsa();
    let Some(summary) = lsa.summary() else {
        unreachable!()
    };
    let metric = summary.metric();
    Draft {
        lsa: found.name(),
        link: None,
        metric,
        judged: judged_summary(is_within, is_examined, view, lsa, metric),
    }
}

/// Adds the summary-LSAs of an area with the prefix, by originator and Link State ID.
fn push_between<A: Allocator + Copy>(
    alloc: A,
    drafts: &mut Vec<Draft, A>,
    is_within: bool,
    views: &[AreaView<'_, A>],
    view: &AreaView<'_, A>,
    net: Prefix,
) -> Result<(), AllocError>
    ensures { OnOk result (drafts.new.items
        ≡ drafts.old.items ++ drafts_between is_within views.now net view.now) }
{
    let is_examined = is_examined(views, view);
    let lsas = lsas_in_order(alloc, view.database(), Some(view.area()), SUMMARY_LSA, net)?;
    for found in &lsas {
        drafts.push(summary_draft(is_within, is_examined, view, found))?;
    }
    Ok(())
}

/// The summary-LSAs of the areas of a router with the prefix as candidates, area by area, where an
/// intra-area candidate is used or not.
///
/// # Errors
///
/// Memory ran out.
pub fn inter_drafts<A: Allocator + Copy>(
    alloc: A,
    is_within: bool,
    views: &[AreaView<'_, A>],
    net: Prefix,
) -> Result<Vec<Draft, A>, AllocError>
    ensures { IfOk result (λ drafts. drafts.items ≡ inter_drafts is_within views.now net) }
{
    let mut drafts = Vec::new(alloc);
    for view in views {
        push_between(alloc, &mut drafts, is_within, views, view, net)?;
    }
    Ok(drafts)
}
