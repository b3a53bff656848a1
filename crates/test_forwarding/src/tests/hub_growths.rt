//! Ways over an interface with several neighbors, with each growth of the calls refused in turn.

use super::answers::of_match;
use super::paths::HUB;
use forwarding::RouterRoutes;
use hop_ends::AreaGraphs;
use lsa_codec::{Addr, RouterId};
use lsdb::Database;
use spf::Meter;
use std::alloc::{AllocError, Global};
use std::test::*;
use test_support::{
    Answer, CallOn, FailingAlloc, FallibleCall, Outcome, R1, dump_of_text, first_wrong, outcome_of,
};

/// What is called.
#[derive(Clone, Copy)]
enum Call {
    /// The graphs, with what is calculated of the router before its ways are asked for.
    ForRouter,
    /// A match, where nothing is calculated before.
    Match,
    /// A match by what is calculated before.
    MatchForRouter,
}

const CALLS: &[Call] = &[Call::ForRouter, Call::Match, Call::MatchForRouter];

/// The router with two neighbors over one interface: 1.1.1.1.
const ROUTER: RouterId = RouterId(R1);

/// An address of the stub network of 4.4.4.4, which 1.1.1.1 reaches over both neighbors.
const ADDRESS: Addr = Addr(0x0a04_0001);

/// What the calls are lent.
#[derive(Drop)]
struct Lent<'d, 'a> {
    database: &'d Database<&'a FailingAlloc>,
    routes: RouterRoutes<&'a FailingAlloc>,
    graphs: AreaGraphs<'d, &'a FailingAlloc>,
    for_router: AreaGraphs<'d, &'a FailingAlloc>,
}

fn lend<'d, 'a>(
    failing: &'a FailingAlloc,
    database: &'d Database<&'a FailingAlloc>,
) -> Result<Lent<'d, 'a>, Fail> {
    let routes = RouterRoutes::of(failing, database, ROUTER, &mut Meter::new())?;
    let graphs = AreaGraphs::of(failing, database)?;
    let for_router = AreaGraphs::for_routers(failing, database, &[ROUTER])?;
    Ok(Lent {
        database,
        routes,
        graphs,
        for_router,
    })
}

/// The answer that is graphs, by the match of the router. There is ample memory for it, and from
/// then on.
fn of_graphs<'a>(
    alloc: Global,
    failing: &'a FailingAlloc,
    routes: &RouterRoutes<&'a FailingAlloc>,
    graphs: Result<AreaGraphs<'_, &'a FailingAlloc>, AllocError>,
) -> Result<Answer, Fail> {
    let Ok(graphs) = graphs else {
        return Ok(None);
    };
    failing.set_remaining(u64::MAX);
    of_match(alloc, routes.match_of(failing, &graphs, ADDRESS))
}

impl<'d, 'a> CallOn<'a, Lent<'d, 'a>> for Call {
    fn answer(
        &self,
        alloc: Global,
        failing: &'a FailingAlloc,
        lent: &mut Lent<'d, 'a>,
    ) -> Result<Answer, Fail> {
        let routes = &lent.routes;
        match self {
            Call::ForRouter => {
                let graphs = AreaGraphs::for_routers(failing, lent.database, &[ROUTER]);
                of_graphs(alloc, failing, routes, graphs)
            }
            Call::Match => of_match(alloc, routes.match_of(failing, &lent.graphs, ADDRESS)),
            Call::MatchForRouter => {
                of_match(alloc, routes.match_of(failing, &lent.for_router, ADDRESS))
            }
        }
    }
}

impl FallibleCall for Call {
    fn outcome(&self, alloc: Global, failing: &FailingAlloc, left: u64) -> Result<Outcome, Fail> {
        let dump = dump_of_text(alloc, HUB)?;
        let database = Database::load(failing, &dump)?;
        let lent = lend(failing, &database)?;
        outcome_of(alloc, failing, lent, *self, left)
    }
}

#[test]
fn each_growth_of_a_call_on_a_hub_refused(rt: HostRuntime) -> Result<(), Fail> {
    assert_eq!(rt; first_wrong(rt.alloc(), CALLS)?, None);
    Ok(())
}
