//! The vertices from which paths of least cost go on to targets.

ghost use Rattle.std.specs.Prelude.{◌≡◌, ◌<◌, ◌^◌, length, Contains, IfOk};
ghost use Rattle.std.specs.List.{list_any};
ghost use Rattle.area_graph.specs.Topology.{row_at};
ghost use Rattle.area_graph.specs.declared.vertex.Vertex.{Vertex as AnyVertex};
ghost use Rattle.spf.specs.Distances.{IsTreeOf};
ghost use Rattle.least_paths.specs.steps.Marks.{AreMarks, IsReached, IsReachedTarget, LeadsOn, Marks, leads_on};

use area_graph::{Edge, Graph, Vertex};
use spf::Tree;
use std::alloc::{AllocError, Allocator};

/// Marks a target, if it is reached.
fn mark_target<A: Allocator + Copy>(
    graph: &Graph<A>,
    tree: &Tree<A>,
    target: Vertex,
    marks: &mut [bool],
)
    requires sized { length marks.old ≡ length graph.now.vertices }
    requires measured { length tree.now.distances ≡ length graph.now.vertices }
    ensures { Marks (IsReached graph.now tree.now.distances target) marks.old marks.new }
{
    let Some(index) = graph.index_of(target) else {
        return;
    };
    if tree.distance(index).is_some() {
        marks[index] = true;
    }
}

/// Marks the targets that are reached.
fn mark_targets<A: Allocator + Copy>(
    graph: &Graph<A>,
    tree: &Tree<A>,
    targets: &[Vertex],
    marks: &mut [bool],
)
    requires sized { length marks.old ≡ length graph.now.vertices }
    requires measured { length tree.now.distances ≡ length graph.now.vertices }
    ensures { Marks (IsReachedTarget graph.now tree.now.distances targets.now) marks.old marks.new }
{
    for target in targets {
        mark_target(graph, tree, *target, marks);
    }
}

/// Whether an edge out of a vertex at a distance is the last of a path of least cost, and leads to
/// a marked vertex.
pub(crate) fn leads_on<A: Allocator + Copy>(
    tree: &Tree<A>,
    marks: &[bool],
    distance: u64,
    edge: &Edge,
) -> bool
    requires to { edge.now.to < length tree.now.distances }
    requires sized { edge.now.to < length marks.now }
    requires small { distance < 2 ^ 32 }
    ensures { result ≡ leads_on tree.now.distances marks.now distance edge.now }
{
    let index = edge.to as usize;
    match tree.distance(index) {
        Some(far) => distance + u64::from(edge.cost) == far && marks[index],
        None => false,
    }
}

/// Whether an edge out of a vertex at a distance leads on to a marked one.
fn some_leads_on<A: Allocator + Copy>(
    graph: &Graph<A>,
    tree: &Tree<A>,
    marks: &[bool],
    from: usize,
    distance: u64,
) -> bool
    requires from { from < length graph.now.vertices }
    requires sized { length marks.now ≡ length graph.now.vertices }
    requires measured { length tree.now.distances ≡ length graph.now.vertices }
    requires small { distance < 2 ^ 32 }
    ensures { result
        ≡ list_any (leads_on tree.now.distances marks.now distance) (row_at graph.now from) }
{
    for edge in graph.edges(from) {
        if leads_on(tree, marks, distance, edge) {
            return true;
        }
    }
    false
}

/// Marks a vertex, if an edge leads on from it to a marked one.
fn mark_from<A: Allocator + Copy>(graph: &Graph<A>, tree: &Tree<A>, from: usize, marks: &mut [bool])
    requires from { from < length graph.now.vertices }
    requires sized { length marks.old ≡ length graph.now.vertices }
    requires measured { length tree.now.distances ≡ length graph.now.vertices }
    ensures { Marks (λ i. (i ≡ from) × LeadsOn graph.now tree.now.distances marks.old from)
        marks.old marks.new }
{
    let Some(distance) = tree.distance(from) else {
        return;
    };
    if some_leads_on(graph, tree, marks, from, distance) {
        marks[from] = true;
    }
}

/// Which vertices are targets that are reached, or have a path of least cost through them to one.
///
/// Each edge leads to a vertex that is settled later. So each vertex is decided before those that
/// lead to it, where the last that was settled comes first.
pub(crate) fn marks<A: Allocator + Copy>(
    alloc: A,
    graph: &Graph<A>,
    tree: &Tree<A>,
    targets: &[Vertex],
) -> Result<Vec<bool, A>, AllocError>
    requires tree { (root : AnyVertex) × IsTreeOf graph.now root tree.now }
    ensures { IfOk result (λ marks. (root : AnyVertex) → IsTreeOf graph.now root tree.now
        → AreMarks graph.now root targets.now marks.items) }
{
    let mut marks = vec![in alloc; false; graph.len()]?;
    mark_targets(graph, tree, targets, &mut marks);
    let order = tree.order();
    for i in (0..order.len()).rev() {
        mark_from(graph, tree, usize::from(order[i]), &mut marks);
    }
    Ok(marks)
}
