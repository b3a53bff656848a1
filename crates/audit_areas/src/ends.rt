//! The vertices to which edges lead.

ghost use Rattle.std.specs.Prelude.{◌≡◌, ◌<◌, ℕ, List, All, IfOk, length, map};
ghost use Rattle.std.specs.List.{list_any};
ghost use Rattle.area_graph.specs.AreaEdges.{area_edges};
ghost use Rattle.area_graph.specs.Area.{used};
ghost use Rattle.area_graph.specs.Graphs.{IsGraphOf};
ghost use Rattle.area_graph.specs.Vertex.{is_same};
ghost use Rattle.audit_areas.specs.Areas.{AreEnds, has_edge, is_other};
ghost use Rattle.audit_areas.specs.steps.Ends.{end_at};

use area_graph::{Edge, Graph, Vertex};
use std::alloc::{AllocError, Allocator};

/// Whether two vertices are the same.
fn is_same(one: Vertex, other: Vertex) -> bool
    ensures { result ≡ is_same one other }
{
    match (one, other) {
        (Vertex::Router(one), Vertex::Router(other)) => one.0 == other.0,
        (Vertex::Network(one), Vertex::Network(other)) => one.0 == other.0,
        _ => false,
    }
}

/// Whether a vertex is one of the ends of edges.
pub fn is_end(ends: &[Vertex], vertex: Vertex) -> bool
    ensures { result ≡ list_any (is_same vertex) ends.now }
{
    ends.iter().any(|end| is_same(vertex, *end))
}

/// Whether one of the ends of edges is another vertex.
pub fn has_other_end(ends: &[Vertex], vertex: Vertex) -> bool
    ensures { result ≡ list_any (is_other vertex) ends.now }
{
    ends.iter().any(|end| !is_same(vertex, *end))
}

/// Whether an edge of a graph leads out of a vertex.
pub(crate) fn has_edge<A: Allocator + Copy>(graph: &Graph<A>, vertex: Vertex) -> bool
    ensures { (lsas : List (List ℕ)) → IsGraphOf lsas graph.now
        → result ≡ has_edge (area_edges (used lsas)) vertex }
{
    match graph.index_of(vertex) {
        Some(number) => !graph.edges(number).is_empty(),
        None => false,
    }
}

/// The vertices to which some edges of a graph lead.
fn ends_of<A: Allocator + Copy>(
    alloc: A,
    graph: &Graph<A>,
    edges: &[Edge],
) -> Result<Vec<Vertex, A>, AllocError>
    requires { All (λ e. e.to < length graph.now.vertices) edges.now }
    ensures { IfOk result (λ ends. ends.items ≡ map (end_at graph.now) edges.now) }
{
    let mut ends = Vec::with_capacity(alloc, edges.len())?;
    for edge in edges {
        ends.push(graph.vertex(edge.to as usize))?;
    }
    Ok(ends)
}

/// The vertices to which edges of a graph lead out of a vertex.
pub(crate) fn ends_from<A: Allocator + Copy>(
    alloc: A,
    graph: &Graph<A>,
    vertex: Vertex,
) -> Result<Vec<Vertex, A>, AllocError>
    ensures { IfOk result (λ ends. (lsas : List (List ℕ)) → IsGraphOf lsas graph.now
        → AreEnds (area_edges (used lsas)) vertex ends.items) }
{
    match graph.index_of(vertex) {
        Some(number) => ends_of(alloc, graph, graph.edges(number)),
        None => Ok(Vec::new(alloc)),
    }
}
