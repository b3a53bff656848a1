//! The vertices of an area that are reached, where they are few: the LSA of each is found by its
//! key, so that not all LSAs are scanned.

ghost use Rattle.std.specs.Prelude.{◌≡◌, ◌<◌, ℕ, List, Option, Some, IfOk, IfSome, IsSome, length, map, slice_get};
ghost use Rattle.lsdb.specs.declared.section.Section.TheVariants.{Area};
ghost use Rattle.lsdb.specs.Lists.{lsas_of};
ghost use Rattle.lsdb.specs.Slots.{item_at, lists_of, lsas_in};
ghost use Rattle.area_graph.specs.declared.vertex.Vertex.{Vertex};
ghost use Rattle.area_graph.specs.Area.{used, vertex_of, vertices_of};
ghost use Rattle.next_hops.specs.declared.hop.Hop.{Hop as AnyHop};
ghost use Rattle.area_routes.specs.Reached.{reached_by};
ghost use Rattle.area_routes.specs.steps.ReachedVertices.{AreReached, FitGraph};

use crate::reached::{Reached, reached_at};
use area_graph::{Graph, lsa_of_vertex};
use lsa_codec::AreaId;
use lsdb::{Database, Section};
use next_hops::Hops;
use spf::Tree;
use std::alloc::{AllocError, Allocator};

/// An LSA is not found by its key alone.
#[derive(Drop)]
struct NotFound;

/// The vertex with a number, where the tree reaches it.
fn vertex_by_key<'a, A: Allocator + Copy>(
    database: &'a Database<A>,
    section: usize,
    graph: &Graph<A>,
    tree: &Tree<A>,
    hops: &'a Hops<A>,
    index: usize,
) -> Result<Option<Reached<'a, A>>, NotFound>
    requires section { IsSome (item_at database.now section) }
    requires fits { FitGraph (lsas_in database.now section) graph.now tree.now hops.now }
    requires within { index < length graph.now.vertices }
    ensures { IfOk result (λ found. (distance : Vertex → Option ℕ) (first : Vertex → List AnyHop)
        → tree.now.distances
        ≡ map (λ l. distance (vertex_of l)) (used (lsas_in database.now section))
        → hops.now ≡ map (λ l. first (vertex_of l)) (used (lsas_in database.now section))
        → (lsa : List ℕ) → slice_get (used (lsas_in database.now section)) index ≡ Some lsa
        → found ≡ reached_by distance first lsa) }
{
    let Some(_) = tree.distance(index) else {
        return Ok(None);
    };
    let Some(lsa) = lsa_of_vertex(database, section, graph.vertex(index)) else {
        return Err(NotFound);
    };
    Ok(reached_at(&lsa, tree, hops, index))
}

/// The vertices that a tree reaches, in the order of their numbers; `None` where the LSA of one is
/// not found by its key alone.
fn vertices_by_keys<'a, A: Allocator + Copy>(
    alloc: A,
    database: &'a Database<A>,
    section: usize,
    graph: &Graph<A>,
    tree: &Tree<A>,
    hops: &'a Hops<A>,
) -> Result<Option<Vec<Reached<'a, A>, A>>, AllocError>
    requires section { IsSome (item_at database.now section) }
    requires fits { FitGraph (lsas_in database.now section) graph.now tree.now hops.now }
    ensures { IfOk result (λ found. IfSome found
        (λ reached. AreReached (used (lsas_in database.now section)) tree.now.distances hops.now
        reached.items)) }
{
    let mut reached = Vec::new(alloc);
    for index in 0..graph.len() {
        let Ok(found) = vertex_by_key(database, section, graph, tree, hops, index) else {
            return Ok(None);
        };
        if let Some(vertex) = found {
            reached.push(vertex)?;
        }
    }
    Ok(Some(reached))
}

/// The number of LSAs that can be scanned in about the time that it takes to find one by its key.
const SCANNED: usize = 16;

/// The vertices of an area that a tree reaches, in the order of their numbers. `None` unless they
/// are few compared with the LSAs of the area, and the LSA of each is found by its key alone.
pub(crate) fn few_reached<'a, A: Allocator + Copy>(
    alloc: A,
    database: &'a Database<A>,
    area: AreaId,
    graph: &Graph<A>,
    tree: &Tree<A>,
    hops: &'a Hops<A>,
) -> Result<Option<Vec<Reached<'a, A>, A>>, AllocError>
    requires { FitGraph (lsas_of (Area area) (lists_of database.now)) graph.now tree.now hops.now }
    ensures { IfOk result (λ found. IfSome found
        (λ reached. AreReached (used (lsas_of (Area area) (lists_of database.now)))
        tree.now.distances hops.now reached.items)) }
{
    let Some(section) = database.index_of(Section::Area(area)) else {
        return Ok(None);
    };
    if database.count_in(section) / SCANNED <= tree.order().len() {
        return Ok(None);
    }
    vertices_by_keys(alloc, database, section, graph, tree, hops)
}
