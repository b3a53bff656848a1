//! The vertices of an area that are reached.

ghost use Rattle.std.specs.Prelude.{◌≡◌, ◌<◌, List, ℕ, Option, Some, None, length, slice_get, map, filter_map, if◌then◌else◌, IfOk};
ghost use Rattle.lsa_codec.specs.Views.{net_of_lsa};
ghost use Rattle.area_graph.specs.declared.vertex.Vertex.{Vertex};
ghost use Rattle.area_graph.specs.Area.{is_network_lsa, vertex_of};
ghost use Rattle.next_hops.specs.declared.hop.Hop.{Hop as AnyHop};
ghost use Rattle.area_routes.specs.Reached.{reached_by};

use area_graph::VertexLsa;
use lsa_codec::{Lsa, Prefix};
use lsdb::Lsas;
use next_hops::{Hop, HopList, Hops};
use spf::Tree;
use std::alloc::{AllocError, Allocator};
use std::marker::Model;

/// The LSA of a vertex that is reached, the vertex's distance and its next hops.
#[derive(Drop)]
pub(crate) struct Reached<'a, A: Allocator> {
    lsa: &'a Lsa<A>,
    distance: u64,
    hops: &'a [Hop],
}

impl<'a, A: Allocator> Model for Reached<'a, A> {
    ghost use Rattle.area_routes.specs.Reached.{ReachedValue};
    ghost use Rattle.area_routes.specs.steps.ReachedVertices.{IsReached};

    ghost Value = { ReachedValue };

    ghost view = { λ r. record { lsa = r.lsa.now; distance = r.distance; hops = r.hops.now } };

    ghost invariant = { λ r. IsReached
        (record { lsa = r.lsa.now; distance = r.distance; hops = r.hops.now }) };
}

impl<'a, A: Allocator + Copy> Reached<'a, A> {
    ghost use Rattle.std.specs.Prelude.{◌^◌};

    /// The router-LSA or network-LSA.
    pub(crate) fn lsa(&self) -> &'a Lsa<A>
        ensures { result.now ≡ self.now.lsa }
    {
        self.lsa
    }

    /// The distance from the calculating router.
    pub(crate) fn distance(&self) -> u64
        ensures distance { result ≡ self.now.distance }
        ensures near { result < 2 ^ 32 }
    {
        self.distance
    }

    /// The next hops.
    pub(crate) fn hops(&self) -> &'a [Hop]
        ensures { result.now ≡ self.now.hops }
    {
        self.hops
    }

    /// A list of the next hops.
    pub(crate) fn hop_list(&self, alloc: A) -> Result<HopList<A>, AllocError>
        ensures { IfOk result (λ hops. hops ≡ self.now.hops) }
    {
        HopList::of(alloc, self.hops)
    }

    /// The prefix of a network; None for a router.
    pub(crate) fn net(&self) -> Option<Prefix>
        ensures { result ≡
            (if is_network_lsa self.now.lsa then Some (net_of_lsa self.now.lsa) else None) }
    {
        match self.lsa.network() {
            Some(network) => Some(network.net()),
            None => None,
        }
    }
}

/// The vertex of an LSA, where the tree reaches it.
pub(crate) fn reached_at<'a, A: Allocator + Copy>(
    lsa: &VertexLsa<'a, A>,
    tree: &Tree<A>,
    hops: &'a Hops<A>,
    index: usize,
) -> Option<Reached<'a, A>>
    requires tree { index < length tree.now.distances }
    requires hops { index < length hops.now }
    ensures { (distance : Vertex → Option ℕ) (first : Vertex → List AnyHop) (lsas : List (List ℕ))
        → tree.now.distances ≡ map (λ l. distance (vertex_of l)) lsas
        → hops.now ≡ map (λ l. first (vertex_of l)) lsas
        → slice_get lsas index ≡ Some lsa.now
        → result ≡ reached_by distance first lsa.now }
{
    reached_with(lsa.lsa(), tree, hops, index)
}

/// The vertex with a number, where the tree reaches it. `lsa` is its LSA.
fn reached_with<'a, A: Allocator + Copy>(
    lsa: &'a Lsa<A>,
    tree: &Tree<A>,
    hops: &'a Hops<A>,
    index: usize,
) -> Option<Reached<'a, A>>
    requires tree { index < length tree.now.distances }
    requires hops { index < length hops.now }
    ensures { (distance : Vertex → Option ℕ) (first : Vertex → List AnyHop) (lsas : List (List ℕ))
        → tree.now.distances ≡ map (λ l. distance (vertex_of l)) lsas
        → hops.now ≡ map (λ l. first (vertex_of l)) lsas
        → slice_get lsas index ≡ Some lsa.now
        → result ≡ reached_by distance first lsa.now }
{
    match tree.distance(index) {
        Some(distance) => Some(Reached {
            lsa,
            distance,
            hops: hops.of(index),
        }),
        None => None,
    }
}

/// The vertices of an area that a tree reaches, in the order of their numbers. The LSAs are those
/// of all vertices.
pub(crate) fn reached_vertices<'a, A: Allocator + Copy>(
    alloc: A,
    lsas: &[VertexLsa<'a, A>],
    tree: &Tree<A>,
    hops: &'a Hops<A>,
) -> Result<Vec<Reached<'a, A>, A>, AllocError>
    requires tree { length tree.now.distances ≡ length lsas.now }
    requires hops { length hops.now ≡ length lsas.now }
    ensures { IfOk result (λ reached. (distance : Vertex → Option ℕ) (first : Vertex → List AnyHop)
        → tree.now.distances ≡ map (λ l. distance (vertex_of l)) lsas.now
        → hops.now ≡ map (λ l. first (vertex_of l)) lsas.now
        → reached.items ≡ filter_map (reached_by distance first) lsas.now) }
{
    let mut reached = Vec::with_capacity(alloc, tree.order().len())?;
    for index in 0..lsas.len() {
        if let Some(vertex) = reached_at(&lsas[index], tree, hops, index) {
            reached.push(vertex)?;
        }
    }
    Ok(reached)
}

/// The vertices of an area that a tree reaches, in the order of their numbers, where each of the
/// LSAs is that of a vertex. The number of the LSAs is `count`.
pub(crate) fn reached_of_all<'a, A: Allocator + Copy>(
    alloc: A,
    lsas: Lsas<'a, A>,
    count: usize,
    tree: &Tree<A>,
    hops: &'a Hops<A>,
) -> Result<Vec<Reached<'a, A>, A>, AllocError>
    requires count { count ≡ length lsas }
    requires tree { length tree.now.distances ≡ count }
    requires hops { length hops.now ≡ count }
    ensures { IfOk result (λ reached. (distance : Vertex → Option ℕ) (first : Vertex → List AnyHop)
        → tree.now.distances ≡ map (λ l. distance (vertex_of l)) lsas.entry
        → hops.now ≡ map (λ l. first (vertex_of l)) lsas.entry
        → reached.items ≡ filter_map (reached_by distance first) lsas.entry) }
{
    let mut rest = lsas;
    let mut reached = Vec::with_capacity(alloc, tree.order().len())?;
    for index in 0..count {
        let Some(lsa) = rest.next() else {
            unreachable!()
        };
        if let Some(vertex) = reached_with(lsa, tree, hops, index) {
            reached.push(vertex)?;
        }
    }
    Ok(reached)
}
