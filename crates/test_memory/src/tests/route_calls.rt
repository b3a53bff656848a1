//! What areas give, routes and tables of a database, and its routers.

ghost use Rattle.lsa_codec.specs.declared.address.RouterId.{RouterId as AnyRouter};
ghost use Rattle.lsdb.specs.declared.section.Section.TheVariants.{Area};
ghost use Rattle.lsdb.specs.Lists.{lsas_of};
ghost use Rattle.lsdb.specs.Slots.{lists_of};
ghost use Rattle.area_graph.specs.Graphs.{IsGraphOf};
ghost use Rattle.area_graph.specs.declared.vertex.Vertex.TheVariants.{Router};
ghost use Rattle.spf.specs.Distances.{IsTreeOf};
ghost use Rattle.area_routes.specs.AreaResults.{AreOf};

use super::answers::{of_routers, of_table_of};
use super::network::{ROUTER, database_of, lonely_database_of};
use area_graph::Graph;
use area_routes::{
    AreaResult, InsideRoutes, InterResult, Route, RouterEntry, Routes, StubLinks, inter, intra,
};
use external_routes::{ExternalLsas, externals};
use lsa_codec::AreaId;
use lsdb::Database;
use next_hops::Hops;
use routing_table::{KeptTrees, routers};
use spf::{Meter, Tree};
use std::alloc::{AllocError, Global};
use std::test::*;
use test_support::{Answer, CallOn, FailingAlloc, FallibleCall, Outcome, first_wrong, outcome_of};

/// What is called.
#[derive(Clone, Copy)]
enum Call {
    Area,
    AreaOfFew,
    Intra,
    Inter,
    Externals,
    Table,
    Routers,
}

const CALLS: &[Call] = &[
    Call::Area,
    Call::AreaOfFew,
    Call::Intra,
    Call::Inter,
    Call::Externals,
    Call::Table,
    Call::Routers,
];

/// Adds entries of routers.
fn push_entries(text: &mut String, entries: &[RouterEntry<&FailingAlloc>]) -> Result<(), Fail> {
    for entry in entries {
        let (router, area, kind) = (entry.router, entry.area, entry.kind);
        let (cost, hops) = (entry.cost, entry.hops.as_slice());
        write!(text, " {router:?} {area:?} {kind:?} {cost} {hops:?}")?;
    }
    Ok(())
}

/// Adds routes.
fn push_routes(text: &mut String, routes: &[Route<&FailingAlloc>]) -> Result<(), Fail> {
    for route in routes {
        let (net, kind, areas) = (route.net, route.kind, route.areas.as_slice());
        let (cost, cost2, hops) = (route.cost, route.cost2, route.hops.as_slice());
        write!(text, " {net:?} {kind:?} {areas:?} {cost} {cost2} {hops:?}")?;
    }
    Ok(())
}

/// The answer that is what an area gives.
fn of_area(
    alloc: Global,
    given: Result<AreaResult<&FailingAlloc>, AllocError>,
) -> Result<Answer, Fail> {
    let Ok(given) = given else {
        return Ok(None);
    };
    let area = given.area();
    let mut text = format!(in alloc; "{area}")?;
    push_routes(&mut text, given.routes())?;
    push_entries(&mut text, given.entries())?;
    Ok(Some(text.into_bytes()))
}

/// The answer that is routes.
fn of_routes(alloc: Global, routes: &Routes<&FailingAlloc>) -> Result<Answer, Fail> {
    let mut text = String::new(alloc);
    push_routes(&mut text, routes.as_slice())?;
    Ok(Some(text.into_bytes()))
}

/// The answer that is inter-area routes, and entries of routers.
fn of_inter(
    alloc: Global,
    found: Result<InterResult<&FailingAlloc>, AllocError>,
) -> Result<Answer, Fail> {
    let Ok(found) = found else {
        return Ok(None);
    };
    let mut text = String::new(alloc);
    push_routes(&mut text, found.routes.as_routes().as_slice())?;
    push_entries(&mut text, found.routers.as_slice())?;
    Ok(Some(text.into_bytes()))
}

/// What an area gives, by its stub links, which are found for it.
fn area_by<'a>(
    failing: &'a FailingAlloc,
    database: &Database<&'a FailingAlloc>,
    area: AreaId,
    graph: &Graph<&'a FailingAlloc>,
    tree: &Tree<&'a FailingAlloc>,
    hops: &Hops<&'a FailingAlloc>,
) -> Result<AreaResult<&'a FailingAlloc>, AllocError>
    requires { (root : AnyRouter)
        × AreOf (lsas_of (Area area) (lists_of database.now)) root graph.now tree.now hops.now }
{
    let stubs = StubLinks::of(failing, database, area)?;
    AreaResult::build(failing, database, area, graph, tree, hops, &stubs)
}

/// What is seen of an area with this number of growths, and then with ample memory.
fn area_on<'a>(
    alloc: Global,
    failing: &'a FailingAlloc,
    database: &Database<&'a FailingAlloc>,
    area: AreaId,
    graph: &Graph<&'a FailingAlloc>,
    tree: &Tree<&'a FailingAlloc>,
    hops: &Hops<&'a FailingAlloc>,
    growths: u64,
) -> Result<Outcome, Fail>
    requires { (root : AnyRouter)
        × AreOf (lsas_of (Area area) (lists_of database.now)) root graph.now tree.now hops.now }
{
    failing.set_remaining(growths);
    let first = area_by(failing, database, area, graph, tree, hops);
    let first = of_area(alloc, first)?;
    failing.set_remaining(u64::MAX);
    let then = area_by(failing, database, area, graph, tree, hops);
    Ok(Outcome::of_answers(alloc, first, of_area(alloc, then)?))
}

/// The same by a graph and a tree of the area, of which the hops are made for it.
fn area_by_tree<'a>(
    alloc: Global,
    failing: &'a FailingAlloc,
    database: &Database<&'a FailingAlloc>,
    area: AreaId,
    graph: &Graph<&'a FailingAlloc>,
    tree: &Tree<&'a FailingAlloc>,
    growths: u64,
) -> Result<Outcome, Fail>
    requires graph { IsGraphOf (lsas_of (Area area) (lists_of database.now)) graph.now }
    requires tree { (root : AnyRouter) × IsTreeOf graph.now (Router root) tree.now }
{
    let hops = Hops::build(failing, graph, tree)?;
    area_on(alloc, failing, database, area, graph, tree, &hops, growths)
}

/// The same by a graph of the area, of which the tree is made for it.
fn area_by_graph<'a>(
    alloc: Global,
    failing: &'a FailingAlloc,
    database: &Database<&'a FailingAlloc>,
    area: AreaId,
    graph: &Graph<&'a FailingAlloc>,
    growths: u64,
) -> Result<Outcome, Fail>
    requires { IsGraphOf (lsas_of (Area area) (lists_of database.now)) graph.now }
{
    let tree = Tree::build(failing, graph, ROUTER, &mut Meter::new())?;
    area_by_tree(alloc, failing, database, area, graph, &tree, growths)
}

/// The same of area 0.0.0.0, whose graph is made for it too.
fn area_with<'a>(
    alloc: Global,
    failing: &'a FailingAlloc,
    database: &Database<&'a FailingAlloc>,
    growths: u64,
) -> Result<Outcome, Fail> {
    let area = AreaId(0);
    let graph = Graph::build(failing, database, area)?;
    area_by_graph(alloc, failing, database, area, &graph, growths)
}

/// What the calls are lent.
#[derive(Drop)]
pub(super) struct Lent<'a> {
    pub(super) database: Database<&'a FailingAlloc>,
    results: Vec<AreaResult<&'a FailingAlloc>, &'a FailingAlloc>,
    pub(super) intra: InsideRoutes<&'a FailingAlloc>,
    pub(super) inter: InterResult<&'a FailingAlloc>,
}

pub(super) fn lend(failing: &FailingAlloc) -> Result<Lent<'_>, Fail> {
    let database = database_of(failing)?;
    let mut trees = KeptTrees::new(failing);
    trees.add_graphs(failing, &database)?;
    let results = trees.results_of(failing, &database, ROUTER, &mut Meter::new())?;
    let intra = intra(failing, &results)?;
    let inter = inter(failing, &database, ROUTER, &results, &intra)?;
    Ok(Lent {
        database,
        results,
        intra,
        inter,
    })
}

/// The inter-area routes, and entries of routers.
fn inter_on<'a>(
    failing: &'a FailingAlloc,
    lent: &Lent<'a>,
) -> Result<InterResult<&'a FailingAlloc>, AllocError> {
    inter(failing, &lent.database, ROUTER, &lent.results, &lent.intra)
}

/// The external routes, by the AS-external-LSAs, which are listed for them.
fn externals_on<'a>(
    failing: &'a FailingAlloc,
    lent: &Lent<'a>,
) -> Result<Routes<&'a FailingAlloc>, AllocError> {
    let lsas = ExternalLsas::of(failing, &lent.database)?;
    let (intra, routers) = (&lent.intra, &lent.inter.routers);
    externals(failing, &lent.database, &lsas, ROUTER, intra, routers)
}

impl<'a> CallOn<'a, Lent<'a>> for Call {
    fn answer(
        &self,
        alloc: Global,
        failing: &'a FailingAlloc,
        lent: &mut Lent<'a>,
    ) -> Result<Answer, Fail> {
        match self {
            Call::Intra => match intra(failing, &lent.results) {
                Ok(routes) => of_routes(alloc, routes.as_routes()),
                Err(AllocError) => Ok(None),
            },
            Call::Inter => of_inter(alloc, inter_on(failing, lent)),
            Call::Externals => match externals_on(failing, lent) {
                Ok(routes) => of_routes(alloc, &routes),
                Err(AllocError) => Ok(None),
            },
            Call::Routers => of_routers(alloc, routers(failing, &lent.database)),
            _ => of_table_of(alloc, failing, &lent.database),
        }
    }
}

impl FallibleCall for Call {
    fn outcome(&self, alloc: Global, failing: &FailingAlloc, left: u64) -> Result<Outcome, Fail> {
        match self {
            Call::Area => area_with(alloc, failing, &database_of(failing)?, left),
            Call::AreaOfFew => {
                area_with(alloc, failing, &lonely_database_of(alloc, failing)?, left)
            }
            _ => outcome_of(alloc, failing, lend(failing)?, *self, left),
        }
    }
}

#[test]
fn each_growth_of_a_call_refused(rt: HostRuntime) -> Result<(), Fail> {
    assert_eq!(rt; first_wrong(rt.alloc(), CALLS)?, None);
    Ok(())
}
