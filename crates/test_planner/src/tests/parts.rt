//! The growths of the calls that make a table with a new tree.

ghost use Rattle.lsa_codec.specs.declared.address.RouterId.{RouterId as AnyRouter};
ghost use Rattle.lsdb.specs.declared.section.Section.TheVariants.{Area};
ghost use Rattle.lsdb.specs.Lists.{lsas_of};
ghost use Rattle.lsdb.specs.Slots.{lists_of};
ghost use Rattle.area_graph.specs.Graphs.{IsGraphOf};
ghost use Rattle.area_graph.specs.declared.vertex.Vertex.TheVariants.{Router};
ghost use Rattle.spf.specs.Distances.{IsTreeOf};

use area_graph::Graph;
use area_routes::{AreaResult, StubLinks, inter, intra};
use external_routes::{ExternalLsas, externals};
use lsa_codec::{AreaId, RouterId};
use lsdb::Database;
use next_hops::Hops;
use spf::{Meter, Tree};
use std::test::*;
use test_support::FailingAlloc;

/// The only area.
const BACKBONE: AreaId = AreaId(0);

/// The growths since a number of them was left.
pub(super) fn since(failing: &FailingAlloc, left: u64) -> u64 {
    left.saturating_sub(failing.remaining())
}

/// The growths of `intra`, `inter` and `externals`, over what the only area gives.
fn growths_of_routes<'a>(
    failing: &FailingAlloc,
    database: &Database<&'a FailingAlloc>,
    router: RouterId,
    results: &[AreaResult<&'a FailingAlloc>],
) -> Result<u64, Fail> {
    let alloc = database.alloc();
    let lsas = ExternalLsas::of(alloc, database)?;
    let left = failing.remaining();
    let intra = intra(alloc, results)?;
    let inter = inter(alloc, database, router, results, &intra)?;
    let _external = externals(alloc, database, &lsas, router, &intra, &inter.routers)?;
    Ok(since(failing, left))
}

/// These, and the growths of `AreaResult::build`, by a graph of the area and a tree in it.
fn growths_by_tree<'a>(
    failing: &FailingAlloc,
    database: &Database<&'a FailingAlloc>,
    router: RouterId,
    graph: &Graph<&'a FailingAlloc>,
    tree: &Tree<&'a FailingAlloc>,
) -> Result<u64, Fail>
    requires graph { IsGraphOf (lsas_of (Area BACKBONE) (lists_of database.now)) graph.now }
    requires tree { (root : AnyRouter) × IsTreeOf graph.now (Router root) tree.now }
{
    let alloc = database.alloc();
    let hops = Hops::build(alloc, graph, tree)?;
    let stubs = StubLinks::of(alloc, database, BACKBONE)?;
    let left = failing.remaining();
    let given = AreaResult::build(alloc, database, BACKBONE, graph, tree, &hops, &stubs)?;
    let growths = since(failing, left);
    let mut results = Vec::new(alloc);
    results.push(given)?;
    let of_routes = growths_of_routes(failing, database, router, &results)?;
    Ok(growths.saturating_add(of_routes))
}

/// The growths of `Tree::build`, `AreaResult::build`, `intra`, `inter` and `externals` together,
/// for a router of the only area, whose graph, next hops and stub links are made beside them.
pub(super) fn growths_of_parts(
    failing: &FailingAlloc,
    database: &Database<&FailingAlloc>,
    router: RouterId,
) -> Result<u64, Fail> {
    let alloc = database.alloc();
    let graph = Graph::build(alloc, database, BACKBONE)?;
    let left = failing.remaining();
    let tree = Tree::build(alloc, &graph, router, &mut Meter::new())?;
    let growths = since(failing, left);
    let others = growths_by_tree(failing, database, router, &graph, &tree)?;
    Ok(growths.saturating_add(others))
}
