//! Calls that answer something new: each of their growths refused in turn.

use super::hops;
use super::network::{database_of, network};
use super::texts::{graph_text, tree_text};
use crate::tests::built::graph_of;
use area_graph::{Graph, GraphFault};
use lsa_codec::{AreaId, RouterId};
use lsdb::Database;
use spf::{Meter, SpfFault, Tree};
use std::alloc::Global;
use std::test::*;
use test_support::{
    Answer, CallOn, FailingAlloc, FallibleCall, Outcome, R1, first_wrong, outcome_of,
};

/// What is called.
#[derive(Clone, Copy)]
enum Call {
    Graph,
    Tree,
    Hops,
}

const CALLS: &[Call] = &[Call::Graph, Call::Tree, Call::Hops];

/// The graph of a database, as a text.
impl<'a> CallOn<'a, Database<&'a FailingAlloc>> for Call {
    fn answer(
        &self,
        alloc: Global,
        failing: &'a FailingAlloc,
        database: &mut Database<&'a FailingAlloc>,
    ) -> Result<Answer, Fail> {
        match Graph::build(failing, database, AreaId(0)) {
            Ok(graph) => Ok(Some(graph_text(alloc, &graph)?.into_bytes())),
            Err(GraphFault::OutOfMemory) => Ok(None),
            Err(fault) => Err(fault)?,
        }
    }
}

/// The tree of a graph, as a text.
impl<'a> CallOn<'a, Graph<&'a FailingAlloc>> for Call {
    fn answer(
        &self,
        alloc: Global,
        failing: &'a FailingAlloc,
        graph: &mut Graph<&'a FailingAlloc>,
    ) -> Result<Answer, Fail> {
        match Tree::build(failing, graph, RouterId(R1), &mut Meter::new()) {
            Ok(tree) => Ok(Some(tree_text(alloc, &tree)?.into_bytes())),
            Err(SpfFault::OutOfMemory) => Ok(None),
            Err(fault) => Err(fault)?,
        }
    }
}

impl FallibleCall for Call {
    fn outcome(&self, alloc: Global, failing: &FailingAlloc, left: u64) -> Result<Outcome, Fail> {
        match self {
            Call::Graph => outcome_of(alloc, failing, database_of(failing)?, *self, left),
            Call::Tree => outcome_of(alloc, failing, graph_of(failing, network())?, *self, left),
            Call::Hops => hops::outcome_in(alloc, failing, &graph_of(failing, network())?, left),
        }
    }
}

#[test]
fn each_growth_of_a_call_refused(rt: HostRuntime) -> Result<(), Fail> {
    assert_eq!(rt; first_wrong(rt.alloc(), CALLS)?, None);
    Ok(())
}
