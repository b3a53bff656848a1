//! What calls answer, as texts that say all of it. Readers alone make them: what is read holds an
//! allocator that may refuse, and the texts have another one.

ghost use Rattle.std.specs.Prelude.{◌≡◌, length};

use crate::tests::texts::hops_text as list_text;
use area_graph::{Edge, Graph};
use next_hops::Hops;
use spf::Tree;
use std::alloc::Global;
use std::test::*;
use test_support::FailingAlloc;

/// Adds the edges out of a vertex.
fn push_edges(text: &mut String, edges: &[Edge]) -> Result<(), Fail> {
    for edge in edges {
        write!(text, " {edge:?}")?;
    }
    Ok(())
}

/// The vertices of a graph, each with the edges out of it.
pub(super) fn graph_text(alloc: Global, graph: &Graph<&FailingAlloc>) -> Result<String, Fail> {
    let mut text = String::new(alloc);
    for index in 0..graph.len() {
        let vertex = graph.vertex(index);
        write!(text, "{vertex:?}")?;
        push_edges(&mut text, graph.edges(index))?;
    }
    Ok(text)
}

/// Adds the vertices that a tree reaches, by their turns, and that none comes after them.
fn push_settled(text: &mut String, tree: &Tree<&FailingAlloc>) -> Result<(), Fail> {
    for turn in 0..tree.order().len() {
        let settled = tree.settled(turn);
        write!(text, " {settled:?}")?;
    }
    let after = tree.settled(tree.order().len());
    write!(text, " {after:?}")?;
    Ok(())
}

/// The vertices that a tree reaches, each with its distance, and the same in turn.
pub(super) fn tree_text(alloc: Global, tree: &Tree<&FailingAlloc>) -> Result<String, Fail> {
    let root = tree.root();
    let mut text = format!(in alloc; "{root}")?;
    for index in tree.order() {
        let index = usize::from(*index);
        let distance = tree.distance(index);
        write!(text, " {index} {distance:?}")?;
    }
    push_settled(&mut text, tree)?;
    Ok(text)
}

/// The hops of each vertex of a graph.
pub(super) fn hops_text(
    alloc: Global,
    graph: &Graph<&FailingAlloc>,
    hops: &Hops<&FailingAlloc>,
) -> Result<String, Fail>
    requires { length hops.now ≡ length graph.now.vertices }
{
    let mut text = String::new(alloc);
    for index in 0..graph.len() {
        write!(text, "{index}")?;
        text.push_str(&list_text(alloc, hops.of(index))?)?;
    }
    Ok(text)
}
