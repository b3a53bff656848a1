//! Two forwarding graphs of an address, before and after routers change over.

ghost use Rattle.std.specs.Prelude.{◌≡◌, All, IfOk, List, OnOk};
ghost use Rattle.std.specs.Option.{option_copied};
ghost use Rattle.lsa_codec.specs.declared.address.RouterId.{RouterId as AnyRouter};
ghost use Rattle.forwarding.specs.Graphs.{next_in};
ghost use Rattle.microloops.specs.Changeover.{AreMicroloops, next_in_either};
ghost use Rattle.microloops.specs.steps.Groups.{Has};
ghost use Rattle.microloops.specs.steps.Matched.{ways_of};

use crate::microloop::Microloop;
use crate::search::Search;
use forwarding::{ForwardingGraph, RouterStep};
use hop_ends::Way;
use lsa_codec::RouterId;
use std::alloc::{AllocError, Allocator};
use std::collections::BTreeSet;

/// Adds the routers of a graph to a set.
fn insert_routers<A: Allocator + Copy>(
    routers: &mut BTreeSet<RouterId, A>,
    graph: &ForwardingGraph<A>,
) -> Result<(), AllocError>
    ensures kept { OnOk result ((router : AnyRouter) → Has routers.old router
        → Has routers.new router) }
    ensures all { OnOk result (All (λ step. Has routers.new step.router) graph.now) }
{
    for step in graph.as_slice() {
        routers.insert(step.router)?;
    }
    Ok(())
}

/// The routers of both graphs.
fn routers_of<A: Allocator + Copy>(
    alloc: A,
    before: &ForwardingGraph<A>,
    after: &ForwardingGraph<A>,
) -> Result<BTreeSet<RouterId, A>, AllocError>
    ensures before { IfOk result (λ routers. All (λ step. Has routers step.router) before.now) }
    ensures after { IfOk result (λ routers. All (λ step. Has routers step.router) after.now) }
{
    let mut routers = BTreeSet::new(alloc);
    insert_routers(&mut routers, before)?;
    insert_routers(&mut routers, after)?;
    Ok(routers)
}

/// The ways of a router's match, if it has one.
fn ways_of<A: Allocator + Copy>(step: Option<&RouterStep<A>>) -> &[Way]
    ensures { result.now ≡ ways_of (option_copied step.entry) }
{
    let Some(step) = step else {
        return &[];
    };
    match &step.matched {
        Some(found) => &found.ways,
        None => &[],
    }
}

/// The routers to which a router sends in a graph.
fn targets_in<A: Allocator + Copy>(
    alloc: A,
    graph: &ForwardingGraph<A>,
    router: RouterId,
) -> Result<Vec<RouterId, A>, AllocError>
    ensures { IfOk result (λ targets. targets.items ≡ next_in graph.now router) }
{
    let ways = ways_of(graph.step(router));
    ways.iter().filter_map(|way| way.router()).collect(alloc)
}

/// The routers to which a router sends before or after.
fn targets_of<A: Allocator + Copy>(
    alloc: A,
    before: &ForwardingGraph<A>,
    after: &ForwardingGraph<A>,
    router: RouterId,
) -> Result<Vec<RouterId, A>, AllocError>
    ensures { IfOk result (λ targets. targets.items ≡ next_in_either before.now after.now router) }
{
    let mut targets = targets_in(alloc, before, router)?;
    let mut more = targets_in(alloc, after, router)?;
    targets.append(&mut more)?;
    Ok(targets)
}

/// What may loop while routers change over from the forwarding graph before to that after, both of
/// one address: the loops of both graphs together, where each router sends by either, in order of
/// their least routers. A loop of one graph is one of them, or part of one.
///
/// # Errors
///
/// Memory ran out.
pub fn microloops<A: Allocator + Copy>(
    alloc: A,
    before: &ForwardingGraph<A>,
    after: &ForwardingGraph<A>,
) -> Result<Vec<Microloop<A>, A>, AllocError>
    ensures { IfOk result (λ loops. AreMicroloops before.now after.now loops.items) }
{
    let routers = routers_of(alloc, before, after)?;
    let mut search = Search::new(alloc, routers);
    'routers: while let Some(router) = search.next_router()? {
        let targets = targets_of(alloc, before, after, router)?;
        search.begin(router, targets)?;
    }
    search.into_loops()
}
