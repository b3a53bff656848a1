//! Hops handed from a vertex to the ends of its edges.

ghost use Rattle.std.specs.Prelude.{◌≡◌, ◌<◌, ◌^◌, length, slice_index_or, None, IfSome, IfOk, OnOk};
ghost use Rattle.std.specs.Bool.{OnTrue, OnFalse};
ghost use Rattle.next_hops.specs.FirstHops.{hops_at};
ghost use Rattle.next_hops.specs.steps.Passing.{IsExtended, IsPassed, IsPassedFrom, IsTight, arc_of, first_at};
ghost use Rattle.next_hops.specs.steps.Table.{GoOn, Hands, IsKept, IsWhole, Stays, hops_so_far, kept_list};

use crate::hop::Hop;
use crate::passage::Passage;
use crate::table::HopTable;
use area_graph::{Edge, Graph};
use spf::Tree;
use std::alloc::{AllocError, Allocator};

/// The first hop of a path of this edge alone.
fn first_hop<A: Allocator + Copy>(graph: &Graph<A>, edge: &Edge) -> Hop
    requires { edge.now.to < length graph.now.vertices }
    ensures { result ≡ first_at graph.now edge.now.to edge.now.link_data }
{
    if graph.is_network(edge.to as usize) {
        Hop::Attached(edge.link_data)
    } else {
        Hop::Link(edge.link_data)
    }
}

/// Hands the hop of an edge out of the root to the vertex at its end.
fn pass_first<A: Allocator + Copy>(
    alloc: A,
    graph: &Graph<A>,
    tree: &Tree<A>,
    from: usize,
    edge: &Edge,
    table: &mut HopTable<A>,
) -> Result<(), AllocError>
    requires sized { length (hops_so_far table.old) ≡ length graph.now.vertices }
    requires to { edge.now.to < length graph.now.vertices }
    requires whole { IsWhole table.old }
    ensures { OnOk result
        (Hands (λ i h. (i ≡ edge.now.to) × (from ≡ tree.now.root)
        × (first_at graph.now edge.now.to edge.now.link_data ≡ h)) table.old table.new) }
{
    if from != tree.root() {
        return Ok(());
    }
    let number = table.number_of(alloc, &[first_hop(graph, edge)])?;
    table.hand(alloc, number, edge.to as usize)
}

/// A vertex that hands on its hops: its distance, the number of their list, and how they go on.
#[derive(Clone, Copy)]
struct Source {
    vertex: usize,
    distance: Option<u64>,
    number: usize,
    passage: Passage,
}

/// A vertex as the source of its hops.
fn source_of<A: Allocator + Copy>(
    alloc: A,
    vertex: usize,
    distance: Option<u64>,
    table: &mut HopTable<A>,
) -> Result<Source, AllocError>
    requires vertex { vertex < length (hops_so_far table.old) }
    requires whole { IsWhole table.old }
    ensures vertex { IfOk result (λ source. source.vertex ≡ vertex) }
    ensures distance { IfOk result (λ source. source.distance ≡ distance) }
    ensures within { IfOk result (λ source. IsKept table.new source.number) }
    ensures hops { IfOk result (λ source. kept_list table.new source.number
        ≡ hops_at (hops_so_far table.old) vertex) }
    ensures passage { IfOk result (λ source. GoOn source.passage
        (kept_list table.new source.number)) }
    ensures stays { OnOk result (Stays table.old table.new) }
{
    let number = table.settle(alloc, vertex)?;
    let passage = Passage::of(table.list(number));
    Ok(Source {
        vertex,
        distance,
        number,
        passage,
    })
}

/// Whether an edge is the last of a path of least cost.
fn is_tight<A: Allocator + Copy>(tree: &Tree<A>, source: &Source, edge: &Edge) -> bool
    requires to { edge.now.to < length tree.now.distances }
    requires from { source.now.distance
        ≡ slice_index_or tree.now.distances source.now.vertex None }
    requires small { IfSome source.now.distance (λ d. d < 2 ^ 32) }
    ensures yes { OnTrue result (IsTight tree.now.distances (arc_of source.now.vertex edge.now)) }
    ensures no { OnFalse result
        (¬ IsTight tree.now.distances (arc_of source.now.vertex edge.now)) }
{
    match (source.distance, tree.distance(edge.to as usize)) {
        (Some(near), Some(far)) => near + u64::from(edge.cost) == far,
        _ => false,
    }
}

/// Hands hops, each over one more edge, to the vertex at its end.
fn pass_hops<A: Allocator + Copy>(
    alloc: A,
    source: &Source,
    edge: &Edge,
    table: &mut HopTable<A>,
) -> Result<(), AllocError>
    requires number { IsKept table.old source.now.number }
    requires passage { GoOn source.now.passage (kept_list table.old source.now.number) }
    requires to { edge.now.to < length (hops_so_far table.old) }
    requires whole { IsWhole table.old }
    ensures { OnOk result
        (Hands (λ i h. (i ≡ edge.now.to)
        × IsExtended (kept_list table.old source.now.number) edge.now.link_data h)
        table.old table.new) }
{
    match source.passage {
        Passage::Empty => Ok(()),
        Passage::Unchanged => table.hand(alloc, source.number, edge.to as usize),
        Passage::Extended => {
            let number = table.extended(alloc, source.number, edge.link_data)?;
            table.hand(alloc, number, edge.to as usize)
        }
    }
}

/// Hands the hops of a vertex over one edge, where that is the last of a path of least cost.
fn pass_edge<A: Allocator + Copy>(
    alloc: A,
    graph: &Graph<A>,
    tree: &Tree<A>,
    source: &Source,
    edge: &Edge,
    table: &mut HopTable<A>,
) -> Result<(), AllocError>
    requires sized { length (hops_so_far table.old) ≡ length graph.now.vertices }
    requires measured { length tree.now.distances ≡ length graph.now.vertices }
    requires from { source.now.distance
        ≡ slice_index_or tree.now.distances source.now.vertex None }
    requires small { IfSome source.now.distance (λ d. d < 2 ^ 32) }
    requires to { edge.now.to < length graph.now.vertices }
    requires number { IsKept table.old source.now.number }
    requires passage { GoOn source.now.passage (kept_list table.old source.now.number) }
    requires whole { IsWhole table.old }
    ensures { OnOk result
        (Hands (λ i h. (i ≡ edge.now.to)
        × IsPassed graph.now tree.now (kept_list table.old source.now.number)
        (arc_of source.now.vertex edge.now) h) table.old table.new) }
{
    if !is_tight(tree, source, edge) {
        return Ok(());
    }
    pass_first(alloc, graph, tree, source.vertex, edge, table)?;
    pass_hops(alloc, source, edge, table)
}

/// Hands the hops of a vertex over each edge out of it that is the last of a path of least cost.
pub(crate) fn pass_on<A: Allocator + Copy>(
    alloc: A,
    graph: &Graph<A>,
    tree: &Tree<A>,
    from: usize,
    table: &mut HopTable<A>,
) -> Result<(), AllocError>
    requires sized { length (hops_so_far table.old) ≡ length graph.now.vertices }
    requires measured { length tree.now.distances ≡ length graph.now.vertices }
    requires from { from < length graph.now.vertices }
    requires whole { IsWhole table.old }
    ensures { OnOk result
        (Hands (λ i h. IsPassedFrom graph.now tree.now (hops_at (hops_so_far table.old) from)
        from i h) table.old table.new) }
{
    let source = source_of(alloc, from, tree.distance(from), table)?;
    for edge in graph.edges(from) {
        pass_edge(alloc, graph, tree, &source, edge, table)?;
    }
    Ok(())
}
