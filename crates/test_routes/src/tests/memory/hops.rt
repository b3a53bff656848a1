//! The next hops of a tree.

ghost use Rattle.area_graph.specs.declared.vertex.Vertex.{Vertex};
ghost use Rattle.spf.specs.Distances.{IsTreeOf};

use super::texts::hops_text;
use area_graph::Graph;
use lsa_codec::RouterId;
use next_hops::Hops;
use spf::{Meter, Tree};
use std::alloc::Global;
use std::test::*;
use test_support::{Answer, FailingAlloc, Outcome, R1};

/// The text of the hops of a tree. This number of growths are left when they are read.
pub(super) fn of_hops<'a>(
    alloc: Global,
    failing: &'a FailingAlloc,
    graph: &Graph<&'a FailingAlloc>,
    tree: &Tree<&'a FailingAlloc>,
    reading: u64,
) -> Result<Option<String>, Fail>
    requires { (root : Vertex) × IsTreeOf graph.now root tree.now }
{
    let Ok(hops) = Hops::build(failing, graph, tree) else {
        return Ok(None);
    };
    failing.set_remaining(reading);
    Ok(Some(hops_text(alloc, graph, &hops)?))
}

/// The bytes of a text.
fn bytes_of(text: Option<String>) -> Answer {
    Some(text?.into_bytes())
}

/// What is seen of the hops of the tree of 1.1.1.1 with this number of growths, and then with ample
/// memory. There is ample memory for the graph, the tree and the texts.
pub(super) fn outcome_in<'a>(
    alloc: Global,
    failing: &'a FailingAlloc,
    graph: &Graph<&'a FailingAlloc>,
    growths: u64,
) -> Result<Outcome, Fail> {
    let tree = Tree::build(failing, graph, RouterId(R1), &mut Meter::new())?;
    failing.set_remaining(growths);
    let first = of_hops(alloc, failing, graph, &tree, u64::MAX)?;
    failing.set_remaining(u64::MAX);
    let then = of_hops(alloc, failing, graph, &tree, u64::MAX)?;
    Ok(Outcome::of_answers(alloc, bytes_of(first), bytes_of(then)))
}
