//! The LSAs on which a route rests.

ghost use Rattle.std.specs.Prelude.{◌≡◌, ◌==◌, ◌&&◌, ◌||◌, not, length, OnOk};
ghost use Rattle.std.specs.List.{list_any};
ghost use Rattle.area_graph.specs.Vertex.{is_same};
ghost use Rattle.area_graph.specs.declared.vertex.Vertex.TheVariants.{Router as AnyRouter};
ghost use Rattle.explanation.specs.steps.Edges.{AreEdgesIn};
ghost use Rattle.explanation.specs.steps.Resting.{InsertsRests, IsCandidateRest, IsLsaOnPaths, IsTargetRest, IsVertexRestBy, is_on_paths};

use crate::rest::Rest;
use area_candidates::{AreaView, vertex_of};
use area_graph::{Vertex, used_lsas};
use least_paths::{LeastEdge, edges_on_least_paths};
use lsa_codec::{Lsa, RouterId};
use lsa_names::LsaName;
use lsdb::Section;
use route_candidates::{Candidate, Target};
use std::alloc::{AllocError, Allocator};
use std::collections::BTreeSet;

/// Adds the LSAs of candidates that are used.
pub(crate) fn insert_candidates<A: Allocator + Copy>(
    rests: &mut BTreeSet<Rest, A>,
    candidates: &[Candidate],
) -> Result<(), AllocError>
    ensures { OnOk result
        (InsertsRests (IsCandidateRest candidates.now) rests.old.keys rests.new.keys) }
{
    for candidate in candidates {
        if candidate.rule.is_used() {
            rests.insert(Rest::of(candidate.lsa))?;
        }
    }
    Ok(())
}

/// Adds the LSAs by which targets are reached.
pub(crate) fn insert_targets<A: Allocator + Copy>(
    rests: &mut BTreeSet<Rest, A>,
    targets: &[Target],
) -> Result<(), AllocError>
    ensures { OnOk result (InsertsRests (IsTargetRest targets.now) rests.old.keys rests.new.keys) }
{
    for target in targets {
        if let Some(name) = target.by {
            rests.insert(Rest::of(name))?;
        }
    }
    Ok(())
}

/// Whether a vertex is the router itself, where there is a target.
fn is_root(router: RouterId, targets: &[Vertex], vertex: Vertex) -> bool
    ensures { result ≡ is_same vertex (AnyRouter router) && not (length targets.now == 0) }
{
    vertex == Vertex::Router(router) && !targets.is_empty()
}

/// Whether an edge starts or ends at a vertex.
fn touches(edge: &LeastEdge, vertex: Vertex) -> bool
    ensures { result ≡ is_same edge.now.from vertex || is_same edge.now.to vertex }
{
    edge.from == vertex || edge.to == vertex
}

/// Whether some edge starts or ends at a vertex.
fn is_end(edges: &[LeastEdge], vertex: Vertex) -> bool
    ensures { result
        ≡ list_any (λ e. is_same e.from vertex || is_same e.to vertex) edges.now }
{
    edges.iter().any(|edge| touches(edge, vertex))
}

/// Whether a vertex is on paths of least cost from a router to targets: it is a target, the router
/// itself, where there is one, or an end of one of these edges.
fn is_on_paths(router: RouterId, targets: &[Vertex], edges: &[LeastEdge], vertex: Vertex) -> bool
    ensures { result ≡ is_on_paths router targets.now edges.now vertex }
{
    targets.contains(&vertex) || is_root(router, targets, vertex) || is_end(edges, vertex)
}

/// Adds the LSA in use of a vertex, if the vertex is on paths of least cost.
fn insert_vertex<A: Allocator + Copy>(
    rests: &mut BTreeSet<Rest, A>,
    view: &AreaView<'_, A>,
    targets: &[Vertex],
    edges: &[LeastEdge],
    lsa: &Lsa<A>,
) -> Result<(), AllocError>
    ensures { OnOk result (InsertsRests
        (IsLsaOnPaths view.now targets.now edges.now lsa.now) rests.old.keys rests.new.keys) }
{
    if is_on_paths(view.router(), targets, edges, vertex_of(lsa)) {
        rests.insert(Rest::of(LsaName::of(Some(view.area()), lsa)))?;
    }
    Ok(())
}

/// Adds the LSAs of the vertices on paths of least cost in an area, their ends included; none where
/// the area has no target.
pub(crate) fn insert_paths<A: Allocator + Copy>(
    alloc: A,
    rests: &mut BTreeSet<Rest, A>,
    view: &AreaView<'_, A>,
    targets: &[Vertex],
    edges: &[LeastEdge],
) -> Result<(), AllocError>
    requires { AreEdgesIn view.now targets.now edges.now }
    ensures { OnOk result
        (InsertsRests (IsVertexRestBy view.now targets.now) rests.old.keys rests.new.keys) }
{
    edges_on_least_paths();
    let used = used_lsas(alloc, view.database().lsas(Section::Area(view.area())))?;
    for vertex in &used {
        insert_vertex(rests, view, targets, edges, vertex.lsa())?;
    }
    Ok(())
}
