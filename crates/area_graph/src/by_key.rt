//! The LSA in use of a vertex, found by its key.

ghost use Rattle.std.specs.Prelude.{◌≡◌, Some, true, IsSome, IfSome};
ghost use Rattle.lsdb.specs.KeyRanges.{HaveKeysBetween};
ghost use Rattle.lsdb.specs.Slots.{item_at, slot_at, lsas_in};
ghost use Rattle.area_graph.specs.Area.{is_vertex_lsa, vertex_of};
ghost use Rattle.area_graph.specs.InUse.{IsLsaOf};
ghost use Rattle.area_graph.specs.steps.KeyRange.{IsOfVertex};

use crate::used::{VertexLsa, is_vertex_lsa, vertex_of};
use crate::vertex::Vertex;
use lsa_codec::Key;
use lsdb::{Database, SlotId, network_keys};
use std::alloc::Allocator;

/// The least and the greatest key that the LSA of a vertex may have. A router's has one key alone
/// (RFC 2328, 12.1.4).
fn key_range(vertex: Vertex) -> (Key, Key)
    ensures { HaveKeysBetween (IsOfVertex vertex) result.0 result.1 }
{
    match vertex {
        Vertex::Router(router) => (Key::of_router(router), Key::of_router(router)),
        Vertex::Network(network) => network_keys(network),
    }
}

/// The LSA at a place, if it is below MaxAge and belongs to the vertex.
fn live_at<A: Allocator + Copy>(
    database: &Database<A>,
    slot: SlotId,
    vertex: Vertex,
) -> Option<VertexLsa<'_, A>>
    ensures at { IfSome result (λ lsa. slot_at database.now slot ≡ Some (Some lsa)) }
    ensures live { IfSome result (λ lsa. is_vertex_lsa lsa ≡ true) }
    ensures vertex { IfSome result (λ lsa. vertex_of lsa ≡ vertex) }
{
    let Some(lsa) = database.get(slot) else {
        return None;
    };
    if !is_vertex_lsa(lsa) || vertex_of(lsa) != vertex {
        return None;
    }
    Some(VertexLsa::of(lsa))
}

/// The LSA in use of a vertex of an area's graph, found by its key in the area's section, which is
/// given by its number. `None` where the area has no such LSA, and where it may have several,
/// because more than one router may have originated network-LSAs with one Link State ID.
///
/// It takes no memory, and time logarithmic in the number of LSAs of the section.
pub fn lsa_of_vertex<A: Allocator + Copy>(
    database: &Database<A>,
    section: usize,
    vertex: Vertex,
) -> Option<VertexLsa<'_, A>>
    requires { IsSome (item_at database.now section) }
    ensures { IfSome result (λ lsa. IsLsaOf (lsas_in database.now section) vertex lsa) }
{
    // Its invariant is needed: its LSAs are accepted.
    database.assert_valid();
    let (least, greatest) = key_range(vertex);
    let mut keys = database.keys_between(section, least, greatest);
    let noted = keys.next()?;
    if keys.next().is_some() {
        return None;
    }
    let slot = SlotId {
        section,
        index: noted.index as usize,
    };
    live_at(database, slot, vertex)
}
