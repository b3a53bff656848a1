//! The edges on paths of least cost to some vertices.

ghost use Rattle.std.specs.Prelude.{◌≡◌, ◌<◌, ◌++◌, [], length, IfOk, OnOk};
ghost use Rattle.std.specs.List.{cons_option};
ghost use Rattle.area_graph.specs.declared.vertex.Vertex.{Vertex as AnyVertex};
ghost use Rattle.spf.specs.Distances.{IsTreeOf};
ghost use Rattle.least_paths.specs.LeastPaths.{AreLeastEdges};
ghost use Rattle.least_paths.specs.steps.Rows.{least_at, least_row};

use crate::least_edge::LeastEdge;
use crate::marks::{leads_on, marks};
use area_graph::{Edge, Graph, Vertex};
use spf::Tree;
use std::alloc::{AllocError, Allocator};

/// An edge out of a vertex, if it leads on to a marked one.
fn least_edge<A: Allocator + Copy>(
    graph: &Graph<A>,
    tree: &Tree<A>,
    marks: &[bool],
    from: usize,
    edge: &Edge,
) -> Option<LeastEdge>
    requires from { from < length graph.now.vertices }
    requires to { edge.now.to < length graph.now.vertices }
    requires sized { length marks.now ≡ length graph.now.vertices }
    requires measured { length tree.now.distances ≡ length graph.now.vertices }
    ensures { result ≡ least_at graph.now tree.now.distances marks.now from edge.now }
{
    let distance = tree.distance(from)?;
    if !leads_on(tree, marks, distance, edge) {
        return None;
    }
    Some(LeastEdge {
        from: graph.vertex(from),
        to: graph.vertex(edge.to as usize),
        cost: edge.cost,
        link_data: edge.link_data,
        distance,
    })
}

/// Adds an edge out of a vertex, if it leads on to a marked one.
fn push_edge<A: Allocator + Copy>(
    found: &mut Vec<LeastEdge, A>,
    graph: &Graph<A>,
    tree: &Tree<A>,
    marks: &[bool],
    from: usize,
    edge: &Edge,
) -> Result<(), AllocError>
    requires from { from < length graph.now.vertices }
    requires to { edge.now.to < length graph.now.vertices }
    requires sized { length marks.now ≡ length graph.now.vertices }
    requires measured { length tree.now.distances ≡ length graph.now.vertices }
    ensures { OnOk result (found.new.items ≡ found.old.items
        ++ cons_option (least_at graph.now tree.now.distances marks.now from edge.now) []) }
{
    if let Some(least) = least_edge(graph, tree, marks, from, edge) {
        found.push(least)?;
    }
    Ok(())
}

/// Adds the edges out of a vertex that lead on to marked ones.
fn push_row<A: Allocator + Copy>(
    found: &mut Vec<LeastEdge, A>,
    graph: &Graph<A>,
    tree: &Tree<A>,
    marks: &[bool],
    from: usize,
) -> Result<(), AllocError>
    requires from { from < length graph.now.vertices }
    requires sized { length marks.now ≡ length graph.now.vertices }
    requires measured { length tree.now.distances ≡ length graph.now.vertices }
    ensures { OnOk result (found.new.items
        ≡ found.old.items ++ least_row graph.now tree.now.distances marks.now from) }
{
    for edge in graph.edges(from) {
        push_edge(found, graph, tree, marks, from, edge)?;
    }
    Ok(())
}

/// The edges on paths of least cost from the root of a tree to some vertices of its graph. They
/// come vertex by vertex, each once. No path leads to a target that is not reached.
///
/// # Errors
///
/// Memory ran out.
pub fn least_edges<A: Allocator + Copy>(
    alloc: A,
    graph: &Graph<A>,
    tree: &Tree<A>,
    targets: &[Vertex],
) -> Result<Vec<LeastEdge, A>, AllocError>
    requires { (root : AnyVertex) × IsTreeOf graph.now root tree.now }
    ensures { IfOk result (λ found. (root : AnyVertex) → IsTreeOf graph.now root tree.now
        → AreLeastEdges graph.now root targets.now found.items) }
{
    let marks = marks(alloc, graph, tree, targets)?;
    let mut found = Vec::new(alloc);
    for from in 0..graph.len() {
        push_row(&mut found, graph, tree, &marks, from)?;
    }
    Ok(found)
}
