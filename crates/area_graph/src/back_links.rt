//! Links back: an edge is there only where the other end names the vertex too (RFC 2328, 16.1).

ghost use Rattle.std.specs.Prelude.{◌≡◌, ◌==◌, ◌<◌, true, length, map, All, IfOk};
ghost use Rattle.std.specs.Bool.{OnTrue};
ghost use Rattle.std.specs.List.{list_any};
ghost use Rattle.std.specs.List.Sorted.{IsNonDecreasing};
ghost use Rattle.area_graph.specs.steps.Naming.{names_in, row_in};
ghost use Rattle.area_graph.specs.steps.Drafts.{AreWithin};
ghost use Rattle.area_graph.specs.steps.BackLinks.{HasTargets, HaveTargets, targets_of};

use crate::edge::Edge;
use crate::rows::Rows;
use std::alloc::{AllocError, Allocator};
use std::marker::Model;

/// The numbers of vertices that a row names, in rising order.
type Targets<A> = Vec<usize, A>;

/// How many edges are searched one by one; in longer rows a vertex is found by a binary search.
const SHORT_ROW: usize = 16;

/// Which vertices name which others, by their numbers. Contracts see it as a row for each vertex:
/// edges to those that it names.
#[derive(Drop)]
pub(crate) struct BackLinks<A: Allocator> {
    naming: Rows<A>,
    /// The vertices that each row names, if it is long.
    targets: Vec<Targets<A>, A>,
}

impl<A: Allocator> Model for BackLinks<A> {
    ghost use Rattle.std.specs.Prelude.{List, map};
    ghost use Rattle.area_graph.specs.declared.edge.Edge.{Edge as AnyEdge};
    ghost use Rattle.area_graph.specs.steps.BackLinks.{AreBackLinks};

    ghost Value = { List (List AnyEdge) };

    ghost view = { λ b. b.naming };

    ghost invariant = { λ b. AreBackLinks b.naming (map (λ row. row.items) b.targets.items) };
}

/// The vertices that a row names, in the order of the row.
fn targets_of<A: Allocator + Copy>(alloc: A, row: &[Edge]) -> Result<Targets<A>, AllocError>
    ensures { IfOk result (λ targets. targets.items ≡ targets_of row.now) }
{
    let mut targets = Vec::with_capacity(alloc, row.len())?;
    for edge in row {
        targets.push(usize::from(edge.to))?;
    }
    Ok(targets)
}

/// The vertices that a row names, in rising order, if it is long.
fn sorted_targets<A: Allocator + Copy>(alloc: A, row: &[Edge]) -> Result<Targets<A>, AllocError>
    ensures { IfOk result (λ targets. HasTargets row.now targets.items) }
{
    if row.len() <= SHORT_ROW {
        return Ok(Vec::new(alloc));
    }
    let mut targets = targets_of(alloc, row)?;
    // Most router-LSAs list their links in order, and then this takes one pass.
    targets.sort()?;
    Ok(targets)
}

/// The vertices that each row names, in rising order, if it is long.
fn targets_of_rows<A: Allocator + Copy>(
    alloc: A,
    naming: &Rows<A>,
) -> Result<Vec<Targets<A>, A>, AllocError>
    ensures { IfOk result (λ targets. HaveTargets (length naming.now) naming.now
        (map (λ row. row.items) targets.items)) }
{
    let mut targets = Vec::with_capacity(alloc, naming.len())?;
    for of in 0..naming.len() {
        targets.push(sorted_targets(alloc, naming.row(of))?)?;
    }
    Ok(targets)
}

/// Whether a vertex is found at an index.
fn is_at(targets: &[usize], index: usize, vertex: usize) -> bool
    ensures { OnTrue result (list_any (λ target. target == vertex) targets.now ≡ true) }
{
    match targets.get(index) {
        Some(target) => *target == vertex,
        None => false,
    }
}

/// Whether a vertex is found in a list in rising order.
fn is_found(targets: &[usize], vertex: usize) -> bool
    requires { IsNonDecreasing targets.now }
    ensures { result ≡ list_any (λ target. target == vertex) targets.now }
{
    targets.binary_search(&vertex).is_ok()
}

/// Whether a vertex is in a list in rising order. Where the list has all vertices, or all but one,
/// a vertex is at the index of its own number or one before, so these are tried first.
fn is_among(targets: &[usize], vertex: usize) -> bool
    requires { IsNonDecreasing targets.now }
    ensures { result ≡ list_any (λ target. target == vertex) targets.now }
{
    is_at(targets, vertex, vertex)
        || is_at(targets, vertex.saturating_sub(1), vertex)
        || is_found(targets, vertex)
}

impl<A: Allocator + Copy> BackLinks<A> {
    /// The links back by these rows, one for each vertex.
    pub(crate) fn new(alloc: A, naming: Rows<A>) -> Result<BackLinks<A>, AllocError>
        requires { AreWithin (length naming) naming }
        ensures { IfOk result (λ back_links. back_links ≡ naming) }
    {
        let targets = targets_of_rows(alloc, &naming)?;
        Ok(BackLinks { naming, targets })
    }

    /// How many vertices there are.
    pub(crate) fn len(&self) -> usize
        ensures { result ≡ length self.now }
    {
        self.naming.len()
    }

    /// Edges to the vertices that a vertex names.
    pub(crate) fn row(&self, of: usize) -> &[Edge]
        requires { of < length self.now }
        ensures row { result.now ≡ row_in self.now of }
        ensures within { All (λ e. e.to < length self.now) result.now }
    {
        self.naming.row(of)
    }

    /// Whether one vertex names the other.
    pub(crate) fn names(&self, of: usize, other: usize) -> bool
        requires { of < length self.now }
        ensures { result ≡ names_in self.now of other }
    {
        let row = self.naming.row(of);
        if row.len() <= SHORT_ROW {
            row.iter().any(|edge| usize::from(edge.to) == other)
        } else {
            is_among(&self.targets[of], other)
        }
    }
}
