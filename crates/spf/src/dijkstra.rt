//! Vertices settled in the order of their distances (Dijkstra's algorithm, RFC 2328, 16.1).

ghost use Rattle.std.specs.Prelude.{◌≡◌, ℕ, ◌<◌, ◌≤◌, ◌+◌, ◌^◌, [], ◌∷◌, ◌++◌, length, replicate, OnOk};
ghost use Rattle.area_graph.specs.Topology.{IsTopology};
ghost use Rattle.spf.specs.Candidates.{candidate_at};
ghost use Rattle.spf.specs.steps.Search.{IsNoneFarther, PushesEdge, PushesNeighbors, SettlesOne, SettlesNew, IsSettled};
ghost use Rattle.spf.specs.steps.Table.{AreWaiting, settled_in, unreached};

use crate::distances::DistanceTable;
use crate::queue::{Candidate, Queue};
use area_graph::{Edge, Graph};
use std::alloc::{AllocError, Allocator};

/// A vertex at a distance, as a candidate.
fn candidate<A: Allocator + Copy>(graph: &Graph<A>, distance: u32, index: usize) -> Candidate
    requires { index < length graph.now.vertices }
    ensures { result ≡ candidate_at graph.now distance index }
{
    Candidate {
        distance,
        is_router: !graph.is_network(index),
        index: index as u16,
    }
}

/// Adds a candidate for the vertex that an edge leads to, unless that vertex is settled and no
/// farther, or has a candidate that is no farther.
fn push_edge<A: Allocator + Copy>(
    graph: &Graph<A>,
    edge: Edge,
    distance: u32,
    distances: &mut DistanceTable<A>,
    queue: &mut Queue<A>,
) -> Result<(), AllocError>
    requires sized { length distances.old ≡ length graph.now.vertices }
    requires target { edge.to < length graph.now.vertices }
    requires small { distance < 2 ^ 30 }
    requires order { IsNoneFarther (settled_in distances.old) distance }
    requires waiting { AreWaiting distances.old queue.old }
    ensures pushes { OnOk result
        (PushesEdge graph.now edge distance (settled_in distances.old) queue.old queue.new) }
    ensures sized { length distances.new ≡ length distances.old }
    ensures settled { settled_in distances.new ≡ settled_in distances.old }
    ensures waiting { OnOk result (AreWaiting distances.new queue.new) }
{
    let distance = distance + u32::from(edge.cost);
    let to = edge.to as usize;
    if distances.least(to) <= distance {
        return Ok(());
    }
    distances.note(to, distance);
    queue.push(candidate(graph, distance, to))?;
    Ok(())
}

/// Adds candidates for the edges out of a vertex, but for those to vertices that are known to be no
/// farther.
fn push_neighbors<A: Allocator + Copy>(
    graph: &Graph<A>,
    from: usize,
    distance: u32,
    distances: &mut DistanceTable<A>,
    queue: &mut Queue<A>,
) -> Result<(), AllocError>
    requires sized { length distances.old ≡ length graph.now.vertices }
    requires from { from < length graph.now.vertices }
    requires small { distance < 2 ^ 30 }
    requires order { IsNoneFarther (settled_in distances.old) distance }
    requires waiting { AreWaiting distances.old queue.old }
    ensures pushes { OnOk result
        (PushesNeighbors graph.now from distance (settled_in distances.old) queue.old queue.new) }
    ensures count { OnOk result (length queue.new < length queue.old + 2 ^ 64) }
    ensures settled { settled_in distances.new ≡ settled_in distances.old }
    ensures waiting { OnOk result (AreWaiting distances.new queue.new) }
{
    for &edge in graph.edges(from) {
        push_edge(graph, edge, distance, distances, queue)?;
    }
    Ok(())
}

/// Gives a vertex its distance, and follows its edges.
fn settle_one<A: Allocator + Copy>(
    graph: &Graph<A>,
    next: Candidate,
    distances: &mut DistanceTable<A>,
    order: &mut Vec<u16, A>,
    queue: &mut Queue<A>,
) -> Result<(), AllocError>
    requires sized { length distances.old ≡ length graph.now.vertices }
    requires within { next.index < length graph.now.vertices }
    requires small { next.distance < 2 ^ 30 }
    requires order { IsNoneFarther (settled_in distances.old) next.distance }
    requires waiting { AreWaiting distances.old (next ∷ queue.old) }
    ensures settles { OnOk result
        (SettlesOne graph.now next (settled_in distances.old) order.old.items queue.old
        (settled_in distances.new) order.new.items queue.new) }
    ensures waiting { OnOk result (AreWaiting distances.new queue.new) }
{
    let index = next.index as usize;
    distances.set(index, next.distance);
    order.push(next.index)?;
    push_neighbors(graph, index, next.distance, distances, queue)?;
    Ok(())
}

/// Settles the vertex of a candidate, unless it is settled.
fn settle_new<A: Allocator + Copy>(
    graph: &Graph<A>,
    next: Candidate,
    distances: &mut DistanceTable<A>,
    order: &mut Vec<u16, A>,
    queue: &mut Queue<A>,
) -> Result<(), AllocError>
    requires sized { length distances.old ≡ length graph.now.vertices }
    requires within { next.index < length graph.now.vertices }
    requires small { next.distance < 2 ^ 30 }
    requires order { IsNoneFarther (settled_in distances.old) next.distance }
    requires waiting { AreWaiting distances.old (next ∷ queue.old) }
    ensures settles { OnOk result
        (SettlesNew graph.now next (settled_in distances.old) order.old.items queue.old
        (settled_in distances.new) order.new.items queue.new) }
    ensures waiting { OnOk result (AreWaiting distances.new queue.new) }
{
    if distances.get(next.index as usize).is_none() {
        settle_one(graph, next, distances, order, queue)?;
    }
    Ok(())
}

/// Settles every vertex that a path from the root reaches, in the order of their distances.
pub(crate) fn settle_all<A: Allocator + Copy>(
    alloc: A,
    graph: &Graph<A>,
    root: usize,
    distances: &mut DistanceTable<A>,
    order: &mut Vec<u16, A>,
) -> Result<(), AllocError>
    requires unreached { distances.old ≡ replicate (length graph.now.vertices) unreached }
    requires root { root < length graph.now.vertices }
    requires shape { IsTopology graph.now }
    requires unordered { order.old.items ≡ [] }
    ensures { OnOk result
        (IsSettled graph.now root (settled_in distances.new) order.new.items) }
{
    let mut queue = Queue::new(alloc);
    queue.push(candidate(graph, 0, root))?;
    while let Some(next) = queue.pop() {
        settle_new(graph, next, distances, order, &mut queue)?;
    }
    Ok(())
}
