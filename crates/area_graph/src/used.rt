//! The LSAs of an area that make its graph: those in use.

ghost use Rattle.std.specs.Prelude.{◌≡◌, IfOk};
ghost use Rattle.area_graph.specs.Area.{is_vertex_lsa, vertex_lsas, highest, used, vertex_of};

use crate::ranks::{is_outranked, ranks};
use crate::vertex::Vertex;
use lsa_codec::{Lsa, NETWORK_LSA, ROUTER_LSA, RouterId};
use lsdb::Lsas;
use std::alloc::{AllocError, Allocator};
use std::marker::Model;

/// The LSA of a vertex of an area's graph. Contracts see it as its bytes.
#[derive(Drop)]
pub struct VertexLsa<'a, A: Allocator> {
    lsa: &'a Lsa<A>,
}

impl<'a, A: Allocator> Model for VertexLsa<'a, A> {
    ghost use Rattle.std.specs.Prelude.{List, ℕ};

    ghost Value = { List ℕ };

    ghost view = { λ v. v.lsa.now };
}

impl<'a, A: Allocator + Copy> VertexLsa<'a, A> {
    pub(crate) fn of(lsa: &'a Lsa<A>) -> VertexLsa<'a, A>
        ensures { result ≡ lsa.now }
    {
        VertexLsa { lsa }
    }

    /// The router-LSA or network-LSA.
    pub fn lsa(&self) -> &'a Lsa<A>
        ensures { result.now ≡ self.now }
    {
        self.lsa
    }
}

/// The vertex of a router-LSA or network-LSA.
pub(crate) fn vertex_of<A: Allocator + Copy>(lsa: &Lsa<A>) -> Vertex
    ensures { result ≡ vertex_of lsa.now }
{
    let key = lsa.key();
    if key.kind == ROUTER_LSA {
        Vertex::Router(RouterId(key.id.0))
    } else {
        Vertex::Network(key.id)
    }
}

/// Whether it is the LSA of a vertex: a router-LSA or network-LSA below MaxAge.
pub(crate) fn is_vertex_lsa<A: Allocator + Copy>(lsa: &Lsa<A>) -> bool
    ensures { result ≡ is_vertex_lsa lsa.now }
{
    let kind = lsa.key().kind;
    !lsa.at_max_age() && (kind == ROUTER_LSA || kind == NETWORK_LSA)
}

/// The live router-LSAs and network-LSAs, in their order.
fn vertex_lsas<'a, A: Allocator + Copy>(
    alloc: A,
    lsas: Lsas<'a, A>,
) -> Result<Vec<VertexLsa<'a, A>, A>, AllocError>
    ensures { IfOk result (λ found. found.items ≡ vertex_lsas lsas.entry) }
{
    let mut found = Vec::new(alloc);
    for lsa in lsas {
        if is_vertex_lsa(lsa) {
            found.push(VertexLsa::of(lsa))?;
        }
    }
    Ok(found)
}

/// The LSAs that no other outranks, in their order.
fn highest<'a, A: Allocator + Copy>(
    alloc: A,
    lsas: &[VertexLsa<'a, A>],
) -> Result<Vec<VertexLsa<'a, A>, A>, AllocError>
    ensures { IfOk result (λ found. found.items ≡ highest lsas.now) }
{
    let ranks = ranks(alloc, lsas)?;
    let mut found = Vec::new(alloc);
    for lsa in lsas {
        if !is_outranked(&ranks, lsa.lsa()) {
            found.push(VertexLsa::of(lsa.lsa()))?;
        }
    }
    Ok(found)
}

/// The LSAs of an area that are in use, in their order: the live router-LSAs and, of the live
/// network-LSAs of one Link State ID, the one with the greatest Advertising Router. They are the
/// LSAs of the vertices of the area's graph, in the order of the vertices' numbers.
///
/// # Errors
///
/// Memory ran out.
#[tactic(auto, unfolding(crate::specs::Area::used))]
pub fn used_lsas<'a, A: Allocator + Copy>(
    alloc: A,
    lsas: Lsas<'a, A>,
) -> Result<Vec<VertexLsa<'a, A>, A>, AllocError>
    ensures { IfOk result (λ found. found.items ≡ used lsas.entry) }
{
    let live = vertex_lsas(alloc, lsas)?;
    highest(alloc, &live)
}
