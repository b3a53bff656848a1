//! Each call that takes memory, with each of its growths refused in turn.

use super::answers::{
    of_area_graphs, of_forwarding, of_graph, of_loop, of_loops, of_match, of_routers, of_routes,
};
use super::built::network_bytes;
use super::paths::BORDERS;
use forwarding::{Forwarding, ForwardingGraph, RouterRoutes};
use hop_ends::AreaGraphs;
use lsa_codec::{Addr, Prefix, RouterId};
use lsdb::Database;
use spf::Meter;
use std::alloc::{AllocError, Global};
use std::test::*;
use test_support::{
    Answer, CallOn, FailingAlloc, FallibleCall, Outcome, R1, R2, dump_of_text, first_wrong,
    outcome_of,
};

/// What is called.
#[derive(Clone, Copy)]
enum Call {
    AreaGraphs,
    FarEnds,
    Owners,
    Routes,
    Entry,
    Match,
    Forwarding,
    Graph,
    FromRouter,
    Reached,
    LoopOf,
    Loops,
}

const CALLS: &[Call] = &[
    Call::AreaGraphs,
    Call::FarEnds,
    Call::Owners,
    Call::Routes,
    Call::Entry,
    Call::Match,
    Call::Forwarding,
    Call::Graph,
    Call::FromRouter,
    Call::Reached,
    Call::LoopOf,
    Call::Loops,
];

/// The router whose ways are asked for: 1.1.1.1.
const ROUTER: RouterId = RouterId(R1);

/// An address of the stub network of 2.2.2.2, which 1.1.1.1 reaches over a link and over a network.
const ADDRESS: Addr = Addr(0x0a02_0001);

/// The address of which the border routers send packets to each other.
const LOOPING: Addr = Addr(0x0a09_0001);

/// The interface of 1.1.1.1 on its link to 2.2.2.2.
const LINK: Addr = Addr(0x0a00_0001);

/// The interfaces of 1.1.1.1 and of 2.2.2.2 on their network.
const FIRST: Addr = Addr(0x0a05_0001);

const SECOND: Addr = Addr(0x0a05_0002);

/// What the calls are lent.
#[derive(Drop)]
struct Lent<'d, 'a> {
    database: &'d Database<&'a FailingAlloc>,
    graphs: AreaGraphs<'d, &'a FailingAlloc>,
    routes: RouterRoutes<&'a FailingAlloc>,
    forwarding: Forwarding<'d, &'a FailingAlloc>,
    graph: ForwardingGraph<&'a FailingAlloc>,
    borders: ForwardingGraph<&'a FailingAlloc>,
}

/// The forwarding graph of the border routers, with a loop.
fn borders(alloc: Global, failing: &FailingAlloc) -> Result<ForwardingGraph<&FailingAlloc>, Fail> {
    let dump = dump_of_text(alloc, BORDERS)?;
    let database = Database::load(failing, &dump)?;
    let forwarding = Forwarding::of(failing, &database, &mut Meter::new())?;
    Ok(forwarding.graph(failing, LOOPING)?)
}

fn lend<'d, 'a>(
    alloc: Global,
    failing: &'a FailingAlloc,
    database: &'d Database<&'a FailingAlloc>,
) -> Result<Lent<'d, 'a>, Fail> {
    let graphs = AreaGraphs::of(failing, database)?;
    let routes = RouterRoutes::of(failing, database, ROUTER, &mut Meter::new())?;
    let forwarding = Forwarding::of(failing, database, &mut Meter::new())?;
    let graph = forwarding.graph(failing, ADDRESS)?;
    Ok(Lent {
        database,
        graphs,
        routes,
        forwarding,
        graph,
        borders: borders(alloc, failing)?,
    })
}

/// What a call on a graph answers.
fn answer_by_graph<'a>(
    alloc: Global,
    failing: &'a FailingAlloc,
    lent: &Lent<'_, 'a>,
    call: Call,
) -> Result<Answer, Fail> {
    let borders = &lent.borders;
    match call {
        Call::Reached => of_routers(alloc, lent.graph.reached(failing, ROUTER)),
        Call::LoopOf => of_loop(alloc, borders.loop_of(failing, ROUTER)),
        _ => {
            let routers = [RouterId(R1), RouterId(R2)];
            of_loops(alloc, borders.loops(failing, &routers))
        }
    }
}

/// The forwarding graph of the routers that packets from one pass.
fn on_the_way<'a>(
    failing: &'a FailingAlloc,
    lent: &Lent<'_, 'a>,
) -> Result<ForwardingGraph<&'a FailingAlloc>, AllocError> {
    let (database, meter) = (lent.database, &mut Meter::new());
    let (_, graph) = Forwarding::from_router(failing, database, ROUTER, ADDRESS, meter)?;
    Ok(graph)
}

/// What a call that makes a graph answers, or one on it.
fn answer_by_routes<'a>(
    alloc: Global,
    failing: &'a FailingAlloc,
    lent: &Lent<'_, 'a>,
    call: Call,
) -> Result<Answer, Fail> {
    let (graphs, routes) = (&lent.graphs, &lent.routes);
    match call {
        Call::Entry => {
            let net = Prefix::masked(ADDRESS, 16);
            of_match(alloc, routes.entry_for(failing, graphs, net))
        }
        Call::Match => of_match(alloc, routes.match_of(failing, graphs, ADDRESS)),
        Call::Graph => of_graph(alloc, lent.forwarding.graph(failing, ADDRESS)),
        Call::FromRouter => of_graph(alloc, on_the_way(failing, lent)),
        _ => answer_by_graph(alloc, failing, lent, call),
    }
}

impl<'d, 'a> CallOn<'a, Lent<'d, 'a>> for Call {
    fn answer(
        &self,
        alloc: Global,
        failing: &'a FailingAlloc,
        lent: &mut Lent<'d, 'a>,
    ) -> Result<Answer, Fail> {
        let (database, graphs) = (lent.database, &lent.graphs);
        match self {
            Call::AreaGraphs => of_area_graphs(alloc, failing, AreaGraphs::of(failing, database)),
            Call::FarEnds => of_routers(alloc, graphs.far_ends(failing, ROUTER, LINK)),
            Call::Owners => of_routers(alloc, graphs.owners(failing, ROUTER, FIRST, SECOND)),
            Call::Routes => {
                let routes = RouterRoutes::of(failing, database, ROUTER, &mut Meter::new());
                of_routes(alloc, failing, graphs, routes)
            }
            Call::Forwarding => {
                let forwarding = Forwarding::of(failing, database, &mut Meter::new());
                of_forwarding(alloc, failing, forwarding)
            }
            _ => answer_by_routes(alloc, failing, lent, *self),
        }
    }
}

impl FallibleCall for Call {
    fn outcome(&self, alloc: Global, failing: &FailingAlloc, left: u64) -> Result<Outcome, Fail> {
        let database = Database::load(failing, network_bytes())?;
        let lent = lend(alloc, failing, &database)?;
        outcome_of(alloc, failing, lent, *self, left)
    }
}

#[test]
fn each_growth_of_a_call_refused(rt: HostRuntime) -> Result<(), Fail> {
    assert_eq!(rt; first_wrong(rt.alloc(), CALLS)?, None);
    Ok(())
}
