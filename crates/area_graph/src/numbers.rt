//! The vertices of a graph and their numbers.

ghost use Rattle.std.specs.Prelude.{◌≡◌, ◌≢◌, ◌<◌, length, map, position, OnOk, IfOk, IfSome, IfNone, Contains, AllPairs};
ghost use Rattle.indexmap.specs.IndexSet.{insert_key};
ghost use Rattle.area_graph.specs.Area.{vertex_of};
ghost use Rattle.area_graph.specs.Vertex.{is_network, is_same};

use crate::used::{VertexLsa, vertex_of};
use crate::vertex::Vertex;
use indexmap::IndexSet;
use std::alloc::{AllocError, Allocator};
use std::hash::{BuildHasherDefault, FoldHasher};

/// Vertices in order, each of which is found by a hash.
pub(crate) type Vertices<A> = IndexSet<Vertex, BuildHasherDefault<FoldHasher>, A>;

/// The number of a vertex, which is its place in the order.
pub(crate) fn number_of<A: Allocator + Copy>(
    vertices: &Vertices<A>,
    vertex: Vertex,
) -> Option<usize>
    ensures number { result ≡ position (is_same vertex) vertices.now.keys }
    ensures within { IfSome result (λ i. i < length vertices.now.keys) }
    ensures absent { IfNone result (¬ Contains vertices.now.keys vertex) }
{
    vertices.get_index_of(&vertex)
}

/// The number of a vertex. One number is tried first.
pub(crate) fn number_near<A: Allocator + Copy>(
    vertices: &Vertices<A>,
    near: usize,
    vertex: Vertex,
) -> Option<usize>
    requires { AllPairs (λ v w. v ≢ w) vertices.now.keys }
    ensures number { result ≡ position (is_same vertex) vertices.now.keys }
    ensures within { IfSome result (λ i. i < length vertices.now.keys) }
{
    match vertices.get_index(near) {
        Some(other) if *other == vertex => Some(near),
        _ => number_of(vertices, vertex),
    }
}

fn add_vertex<A: Allocator + Copy>(
    vertices: &mut Vertices<A>,
    vertex: Vertex,
) -> Result<(), AllocError>
    ensures { OnOk result (vertices.new.keys ≡ insert_key is_same vertices.old.keys vertex) }
{
    vertices.insert(vertex)?;
    Ok(())
}

/// Whether each vertex is a transit network.
pub(crate) fn networks_among<A: Allocator + Copy>(
    alloc: A,
    vertices: &[Vertex],
) -> Result<Vec<bool, A>, AllocError>
    ensures { IfOk result (λ networks. networks.items ≡ map is_network vertices.now) }
{
    let mut networks = Vec::with_capacity(alloc, vertices.len())?;
    for vertex in vertices {
        networks.push(vertex.is_network())?;
    }
    Ok(networks)
}

/// The vertices of LSAs, in their order.
pub(crate) fn vertices<A: Allocator + Copy>(
    alloc: A,
    lsas: &[VertexLsa<'_, A>],
) -> Result<Vertices<A>, AllocError>
    requires { AllPairs (λ v w. v ≢ w) (map vertex_of lsas.now) }
    ensures { IfOk result (λ found. found.keys ≡ map vertex_of lsas.now) }
{
    let mut found = IndexSet::with_capacity(alloc, lsas.len())?;
    for lsa in lsas {
        add_vertex(&mut found, vertex_of(lsa.lsa()))?;
    }
    Ok(found)
}
