//! The hops of each vertex of an area.

ghost use Rattle.std.specs.Prelude.{◌≡◌, ◌<◌, ◌≤◌, length, All, IfOk};
ghost use Rattle.area_graph.specs.declared.vertex.Vertex.{Vertex};
ghost use Rattle.spf.specs.Distances.{IsTreeOf};
ghost use Rattle.next_hops.specs.Hop.{IsSortedHops};
ghost use Rattle.next_hops.specs.FirstHops.{AreHopsOf, hops_at, table_of};
ghost use Rattle.next_hops.specs.steps.Shared.{AreSorted, AreWithin, lists_in};
ghost use Rattle.next_hops.specs.steps.Table.{IsWhole, hops_so_far};

use crate::hop::Hop;
use crate::passing::pass_on;
use crate::renumbered::Renumbered;
use crate::shared::DistinctLists;
use crate::table::HopTable;
use area_graph::Graph;
use spf::Tree;
use std::alloc::{AllocError, Allocator, Global};
use std::marker::Model;

/// The hops of each vertex of an area's graph from the root of a tree. Contracts see it as the
/// list of these lists, in the order of the vertices' numbers.
///
/// It takes two bytes for each vertex, and keeps each distinct list once.
#[derive(Drop)]
pub struct Hops<A: Allocator = Global> {
    lists: Vec<Vec<Hop, A>, A>,
    numbers: Vec<u16, A>,
}

impl<A: Allocator> Model for Hops<A> {
    ghost use Rattle.std.specs.Prelude.{List, All};
    ghost use Rattle.next_hops.specs.declared.hop.Hop.{Hop};
    ghost use Rattle.next_hops.specs.Hop.{IsSortedHops};
    ghost use Rattle.next_hops.specs.steps.Shared.{lists_in};

    ghost Value = { List (List Hop) };

    ghost view = { λ hops. lists_in hops.lists.items hops.numbers.items };

    ghost invariant = { λ hops.
        All (λ list. IsSortedHops list) (lists_in hops.lists.items hops.numbers.items) };
}

impl<A: Allocator + Copy> Hops<A> {
    /// The first hops of all paths of least cost from the root of a tree to each vertex (RFC 2328,
    /// 16.1.1). The tree must be one of this graph. The root itself has no hops; nor has a vertex
    /// that is not reached.
    ///
    /// # Errors
    ///
    /// Memory ran out.
    pub fn build(alloc: A, graph: &Graph<A>, tree: &Tree<A>) -> Result<Hops<A>, AllocError>
        requires tree { (root : Vertex) × IsTreeOf graph.now root tree.now }
        ensures sized { IfOk result (λ hops. length hops ≡ length graph.now.vertices) }
        ensures table { IfOk result
            (λ hops. (root : Vertex) → IsTreeOf graph.now root tree.now
            → hops ≡ table_of graph.now root) }
        ensures paths { IfOk result
            (λ hops. (root : Vertex) → IsTreeOf graph.now root tree.now
            → AreHopsOf graph.now root hops) }
    {
        let mut table = pass_all(alloc, graph, tree)?;
        let numbers = table.numbers(alloc)?;
        Hops::renumbering(alloc, &table.lists, &numbers)
    }

    /// The lists with these numbers, under new numbers. Lists without a number are dropped.
    fn renumbering(
        alloc: A,
        lists: &DistinctLists<A>,
        numbers: &[usize],
    ) -> Result<Hops<A>, AllocError>
        requires few { length numbers.now ≤ 8192 }
        requires within { AreWithin lists.now.keys numbers.now }
        requires sorted { AreSorted lists.now.keys }
        ensures { IfOk result (λ hops. hops ≡ lists_in lists.now.keys numbers.now) }
    {
        let mut renumbered = Renumbered::new(alloc, lists)?;
        let mut short = Vec::with_capacity(alloc, numbers.len())?;
        for number in numbers {
            short.push(renumbered.number_of(alloc, *number, lists)?)?;
        }
        Ok(Hops {
            lists: renumbered.lists,
            numbers: short,
        })
    }

    /// The hops of the vertex with a number, in rising order, each once. It takes no memory.
    pub fn of(&self, index: usize) -> &[Hop]
        requires { index < length self.now }
        ensures hops { result.now ≡ hops_at self.now index }
        ensures sorted { IsSortedHops result.now }
    {
        let number = usize::from(self.numbers[index]);
        match self.lists.get(number) {
            Some(list) => list,
            None => &[],
        }
    }
}

/// The hops of each vertex. Each vertex, in the order in which they are settled, hands its hops
/// over those edges that are the last of a path of least cost.
fn pass_all<A: Allocator + Copy>(
    alloc: A,
    graph: &Graph<A>,
    tree: &Tree<A>,
) -> Result<HopTable<A>, AllocError>
    requires tree { (root : Vertex) × IsTreeOf graph.now root tree.now }
    ensures sized { IfOk result
        (λ hops. length (hops_so_far hops) ≡ length graph.now.vertices) }
    ensures few { IfOk result (λ hops. length (hops_so_far hops) ≤ 8192) }
    ensures whole { IfOk result (λ hops. IsWhole hops) }
    ensures sorted { IfOk result (λ hops. All (λ list. IsSortedHops list) (hops_so_far hops)) }
    ensures table { IfOk result
        (λ hops. (root : Vertex) → IsTreeOf graph.now root tree.now
        → hops_so_far hops ≡ table_of graph.now root) }
    ensures paths { IfOk result
        (λ hops. (root : Vertex) → IsTreeOf graph.now root tree.now
        → AreHopsOf graph.now root (hops_so_far hops)) }
{
    let mut table = HopTable::new(alloc, graph.len())?;
    for from in tree.order() {
        pass_on(alloc, graph, tree, usize::from(*from), &mut table)?;
    }
    Ok(table)
}
