//! The steps on paths of least cost in an area.

ghost use Rattle.std.specs.Prelude.{◌≡◌, ◌<◌, ◌^◌, AllPairs, IfOk, OnOk};
ghost use Rattle.std.specs.declared.cmp.Ordering.TheVariants.{Less};
ghost use Rattle.explanation.specs.WaySteps.{AreSteps, AreTargetsIn};
ghost use Rattle.explanation.specs.steps.Edges.{AreEdgesIn, InsertsSteps, IsStepFrom, IsStepOver, IsToTarget, onward, step_of};

use crate::way_step::WayStep;
use area_candidates::AreaView;
use area_graph::Vertex;
use least_paths::{LeastEdge, edges_on_least_paths, least_edges};
use lsa_codec::{Addr, AreaId, RouterId};
use route_candidates::Target;
use std::alloc::{AllocError, Allocator};
use std::collections::BTreeSet;

/// The vertices of an area that are targets.
pub(crate) fn targets_in<A: Allocator + Copy>(
    alloc: A,
    targets: &[Target],
    area: AreaId,
) -> Result<Vec<Vertex, A>, AllocError>
    ensures { IfOk result (λ vertices. AreTargetsIn targets.now area vertices.items) }
{
    targets
        .iter()
        .filter(|target| target.area == area)
        .map(|target| target.vertex)
        .collect(alloc)
}

/// The edges of an area on paths of least cost to targets.
pub(crate) fn edges_in<A: Allocator + Copy>(
    alloc: A,
    view: &AreaView<'_, A>,
    targets: &[Vertex],
) -> Result<Vec<LeastEdge, A>, AllocError>
    ensures { IfOk result (λ edges. AreEdgesIn view.now targets.now edges.items) }
{
    edges_on_least_paths();
    let (graph, tree) = view.graph_and_tree();
    least_edges(alloc, graph, tree, targets)
}

/// A step out of a router over an edge.
#[derive(Clone, Copy)]
struct Start {
    area: AreaId,
    router: RouterId,
    edge: LeastEdge,
}

impl Start {
    /// The step to a router or a network, over a network or not.
    fn step(&self, is_network: bool, end: Addr, over: Option<Addr>) -> WayStep
        requires { self.now.edge.distance < 2 ^ 32 }
        ensures { result ≡ step_of self.now is_network end over }
    {
        WayStep {
            area: self.area,
            distance: self.edge.distance,
            router: self.router,
            is_network,
            end,
            out: self.edge.link_data,
            over,
            cost: self.edge.cost,
            sum: self.edge.distance + u64::from(self.edge.cost),
        }
    }
}

/// The router that an edge leads to from a network, if it does.
fn onward(edge: &LeastEdge, network: Addr) -> Option<RouterId>
    ensures { result ≡ onward edge.now network }
{
    match (edge.from, edge.to) {
        (Vertex::Network(from), Vertex::Router(router)) if from == network => Some(router),
        _ => None,
    }
}

/// Adds a step.
fn insert_step<A: Allocator + Copy>(
    steps: &mut BTreeSet<WayStep, A>,
    step: WayStep,
) -> Result<(), AllocError>
    ensures { OnOk result (InsertsSteps (λ other. other ≡ step) steps.old.keys steps.new.keys) }
{
    steps.insert(step)?;
    Ok(())
}

/// Adds the step to a network, where it is a target.
fn insert_target<A: Allocator + Copy>(
    steps: &mut BTreeSet<WayStep, A>,
    start: Start,
    network: Addr,
    targets: &[Vertex],
) -> Result<(), AllocError>
    requires { start.edge.distance < 2 ^ 32 }
    ensures { OnOk result (InsertsSteps
        (IsToTarget start network targets.now) steps.old.keys steps.new.keys) }
{
    if targets.contains(&Vertex::Network(network)) {
        steps.insert(start.step(true, network, None))?;
    }
    Ok(())
}

/// Adds the steps over a network: to itself, where it is a target, and to each router to which an
/// edge leads from it.
fn insert_over<A: Allocator + Copy>(
    steps: &mut BTreeSet<WayStep, A>,
    start: Start,
    network: Addr,
    edges: &[LeastEdge],
    targets: &[Vertex],
) -> Result<(), AllocError>
    requires { start.edge.distance < 2 ^ 32 }
    ensures { OnOk result (InsertsSteps
        (IsStepOver start network edges.now targets.now) steps.old.keys steps.new.keys) }
{
    insert_target(steps, start, network, targets)?;
    for edge in edges {
        if let Some(router) = onward(edge, network) {
            steps.insert(start.step(false, Addr(router.0), Some(network)))?;
        }
    }
    Ok(())
}

/// Adds the steps out of a router over an edge.
fn insert_steps<A: Allocator + Copy>(
    steps: &mut BTreeSet<WayStep, A>,
    start: Start,
    edges: &[LeastEdge],
    targets: &[Vertex],
) -> Result<(), AllocError>
    requires { start.edge.distance < 2 ^ 32 }
    ensures { OnOk result (InsertsSteps
        (IsStepFrom start edges.now targets.now) steps.old.keys steps.new.keys) }
{
    match start.edge.to {
        Vertex::Router(router) => insert_step(steps, start.step(false, Addr(router.0), None)),
        Vertex::Network(network) => insert_over(steps, start, network, edges, targets),
    }
}

/// The steps on paths of least cost in an area to its targets, in order.
///
/// # Errors
///
/// Memory ran out.
pub(crate) fn steps_in<A: Allocator + Copy>(
    alloc: A,
    view: &AreaView<'_, A>,
    targets: &[Vertex],
    edges: &[LeastEdge],
) -> Result<Vec<WayStep, A>, AllocError>
    requires { AreEdgesIn view.now targets.now edges.now }
    ensures steps { IfOk result (λ steps. AreSteps view.now targets.now steps.items) }
    ensures order { IfOk result (λ steps.
        AllPairs (λ a b. ⟦<WayStep as Ord>⟧.cmp a b ≡ Less) steps.items) }
{
    edges_on_least_paths();
    let area = view.area();
    let mut steps = BTreeSet::new(alloc);
    for edge in edges {
        match edge.from {
            Vertex::Router(router) => {
                let start = Start {
                    area,
                    router,
                    edge: *edge,
                };
                insert_steps(&mut steps, start, edges, targets)?;
            }
            Vertex::Network(_) => (),
        }
    }
    steps.into_iter().collect(alloc)
}
