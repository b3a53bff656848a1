//! Whether each walk of a packet passes a router.

ghost use Rattle.std.specs.Prelude.{◌≡◌, ◌↔◌, ◌∷◌, [], true, IfOk, OnOk};
ghost use Rattle.std.specs.List.{list_all};
ghost use Rattle.std.specs.Option.{option_copied};
ghost use Rattle.forwarding.specs.Graphs.{next_in};
ghost use Rattle.forwarding.specs.Walks.{AreReached};
ghost use Rattle.route_report.specs.Passing.{IsPassed, ends_by};
ghost use Rattle.route_report.specs.steps.Sure.{Adds, leads_into, leads_only_into, sure_by};

use forwarding::{ForwardingGraph, RouterStep};
use hop_ends::Way;
use lsa_codec::RouterId;
use std::alloc::{AllocError, Allocator};
use std::collections::BTreeSet;

/// Whether a router ends walks.
fn ends_by<A: Allocator + Copy>(step: &RouterStep<A>) -> bool
    ensures { result ≡ ends_by step.now }
{
    step.delivers() || step.leaves_network() || step.drops()
}

/// Whether a way ends, or leads to a router of a set.
fn leads_into<A: Allocator + Copy>(sure: &BTreeSet<RouterId, A>, way: Way) -> bool
    ensures { result ≡ leads_into sure.now.keys way }
{
    match way.router() {
        Some(router) => sure.contains(&router),
        None => true,
    }
}

/// Whether all of some ways end, or lead to routers of a set.
fn all_lead_into<A: Allocator + Copy>(sure: &BTreeSet<RouterId, A>, ways: &[Way]) -> bool
    ensures { result ≡ list_all (leads_into sure.now.keys) ways.now }
{
    ways.iter().all(|way| leads_into(sure, *way))
}

/// Whether a router sends only to routers of a set.
fn leads_only_into<A: Allocator + Copy>(sure: &BTreeSet<RouterId, A>, step: &RouterStep<A>) -> bool
    ensures { result ≡ leads_only_into sure.now.keys step.now }
{
    match &step.matched {
        Some(found) => all_lead_into(sure, &found.ways),
        None => true,
    }
}

/// Whether walks from a router go on to routers of a set alone: from each of these, walks pass the
/// router that is asked for.
fn sure_by<A: Allocator + Copy>(sure: &BTreeSet<RouterId, A>, step: Option<&RouterStep<A>>) -> bool
    ensures { result ≡ sure_by sure.now.keys (option_copied step.entry) }
{
    match step {
        Some(step) => !ends_by(step) && leads_only_into(sure, step),
        None => true,
    }
}

/// Adds a router to those from which each walk passes the one that is asked for, if it is such a
/// router.
fn add_sure<A: Allocator + Copy>(
    graph: &ForwardingGraph<A>,
    sure: &mut BTreeSet<RouterId, A>,
    router: RouterId,
) -> Result<(), AllocError>
    ensures { OnOk result (Adds graph.now (router ∷ []) sure.old.keys sure.new.keys) }
{
    if sure.contains(&router) || !sure_by(sure, graph.step(router)) {
        return Ok(());
    }
    sure.insert(router)?;
    Ok(())
}

/// Adds those of some routers from which each walk passes the one that is asked for, one after
/// another.
fn add_each<A: Allocator + Copy>(
    graph: &ForwardingGraph<A>,
    sure: &mut BTreeSet<RouterId, A>,
    routers: &[RouterId],
) -> Result<(), AllocError>
    ensures { OnOk result (Adds graph.now routers.now sure.old.keys sure.new.keys) }
{
    for router in routers {
        add_sure(graph, sure, *router)?;
    }
    Ok(())
}

/// Whether each walk from a router passes another one, where these are the routers that walks
/// reach.
pub(crate) fn is_passed<A: Allocator + Copy>(
    alloc: A,
    graph: &ForwardingGraph<A>,
    routers: &[RouterId],
    start: RouterId,
    router: RouterId,
) -> Result<bool, AllocError>
    requires { AreReached (next_in graph.now) start routers.now }
    ensures { IfOk result (λ yes. (yes ≡ true) ↔ IsPassed graph.now start router) }
{
    let mut sure = BTreeSet::new(alloc);
    sure.insert(router)?;
    let mut count = 0;
    'passes: while sure.len() != count {
        count = sure.len();
        add_each(graph, &mut sure, routers)?;
    }
    Ok(sure.contains(&start))
}
