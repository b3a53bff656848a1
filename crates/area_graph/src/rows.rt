//! The rows of a graph, one after another in one vector.

ghost use Rattle.std.specs.Prelude.{◌≡◌, true, ◌<◌, ◌≤◌, ◌^◌, ◌++◌, ◌∷◌, [], length, map, slice_index_or, slice_set, OnOk, IfOk};
ghost use Rattle.std.specs.Bool.{OnFalse, OnTrue};
ghost use Rattle.std.specs.List.{count_by};
ghost use Rattle.area_graph.specs.Rows.{same_edge, each_once};
ghost use Rattle.area_graph.specs.steps.CostRows.{leads_to, with_cost};

use crate::edge::Edge;
use indexmap::IndexSet;
use lsa_codec::Addr;
use std::alloc::{AllocError, Allocator};
use std::hash::{BuildHasherDefault, FoldHasher};
use std::marker::Model;

/// Where a row is: from one place to before another.
#[derive(Clone, Copy)]
struct Span {
    start: u32,
    end: u32,
}

/// A place among edges as a number of 32 bits. Each one fits: an area has at most 8,192 LSAs, of
/// fewer than 2^16 bytes each. That is not proved, so a place that does not fit is reported as
/// memory that ran out.
fn place(index: usize) -> Result<u32, AllocError>
    ensures { IfOk result (λ place. place ≡ index) }
{
    match u32::try_from(index) {
        Ok(place) => Ok(place),
        Err(_) => Err(AllocError),
    }
}

/// Rows of edges. Contracts see them as the list of the rows.
#[derive(Drop)]
pub(crate) struct Rows<A: Allocator> {
    spans: Vec<Span, A>,
    edges: Vec<Edge, A>,
}

impl<A: Allocator> Model for Rows<A> {
    ghost use Rattle.std.specs.Prelude.{List, All, AllPairs, length, ◌≤◌};
    ghost use Rattle.area_graph.specs.declared.edge.Edge.{Edge as AnyEdge};
    ghost use Rattle.area_graph.specs.steps.Spans.{IsWithin, rows_at};

    ghost Value = { List (List AnyEdge) };

    ghost view = { λ r. rows_at r.edges.items r.spans.items };

    ghost invariant = { λ r. All (IsWithin (length r.edges.items)) r.spans.items
        × AllPairs (λ a b. a.end ≤ b.start) r.spans.items };
}

/// Up to this number of edges, each is compared with each; more are found by a hash.
const SHORT_ROW: usize = 16;

/// Whether no edge occurs twice, by comparing each edge with those before it.
fn is_distinct(row: &[Edge]) -> bool
    ensures { result ≡ true → each_once same_edge row.now ≡ row.now }
{
    for index in 0..row.len() {
        if row[..index].contains(&row[index]) {
            return false;
        }
    }
    true
}

/// Whether each edge leads to a vertex with a greater number than that of the edge before, so that
/// no edge occurs twice.
fn is_rising(row: &[Edge]) -> bool
    ensures { result ≡ true → each_once same_edge row.now ≡ row.now }
{
    for index in 1..row.len() {
        if row[index].to <= row[index - 1].to {
            return false;
        }
    }
    true
}

/// A set of edges in the order in which they were added.
type EdgeSet<A> = IndexSet<Edge, BuildHasherDefault<FoldHasher>, A>;

/// The edges of a row, each once.
fn edge_set<A: Allocator + Copy>(alloc: A, row: &[Edge]) -> Result<EdgeSet<A>, AllocError>
    ensures { IfOk result (λ edges. edges.keys ≡ each_once same_edge row.now) }
{
    let mut edges = IndexSet::new(alloc);
    for edge in row {
        edges.insert(*edge)?;
    }
    Ok(edges)
}

/// How many edges of a row lead to the vertex with a number, and carry this Link Data.
fn count_to(row: &[Edge], to: u16, link_data: Addr) -> usize
    ensures { result ≡ count_by (leads_to to link_data) row.now }
{
    row.iter()
        .filter(|edge| edge.to == to && edge.link_data == link_data)
        .count()
}

/// An edge with another cost, if it leads to the vertex with a number, and carries this Link Data.
fn with_cost(edge: Edge, to: u16, link_data: Addr, cost: u16) -> Edge
    ensures { result ≡ with_cost to link_data cost edge }
{
    let leads_to = edge.to == to && edge.link_data == link_data;
    Edge {
        to: edge.to,
        cost: if leads_to { cost } else { edge.cost },
        link_data: edge.link_data,
    }
}

/// Gives another cost to the edges of a row that lead to the vertex with a number, and carry this
/// Link Data.
fn set_costs(row: &mut [Edge], to: u16, link_data: Addr, cost: u16)
    ensures { row.new ≡ map (with_cost to link_data cost) row.old }
{
    for index in 0..row.len() {
        let edge = row[index];
        row[index] = with_cost(edge, to, link_data, cost);
    }
}

impl<A: Allocator + Copy> Rows<A> {
    /// No rows, with room for this number of rows.
    pub(crate) fn with_capacity(alloc: A, rows: usize) -> Result<Rows<A>, AllocError>
        ensures { IfOk result (λ none. none ≡ []) }
    {
        Ok(Rows {
            spans: Vec::with_capacity(alloc, rows)?,
            edges: Vec::new(alloc),
        })
    }

    /// The number of rows.
    pub(crate) fn len(&self) -> usize
        ensures { result ≡ length self.now }
    {
        self.spans.len()
    }

    /// The row with a number.
    pub(crate) fn row(&self, index: usize) -> &[Edge]
        requires { index < length self.now }
        ensures { result.now ≡ slice_index_or self.now index [] }
    {
        let span = self.spans[index];
        &self.edges[span.start as usize..span.end as usize]
    }

    /// Gives another cost to the edge of a row that leads to the vertex with a number and carries
    /// this Link Data, unless there are several. Returns whether there are not. It takes no memory.
    pub(crate) fn set_cost(&mut self, row: usize, to: u16, link_data: Addr, cost: u16) -> bool
        requires { row < length self.old }
        ensures one { OnTrue result (count_by (leads_to to link_data)
            (slice_index_or self.old row []) ≤ 1) }
        ensures set { OnTrue result (self.new ≡ slice_set self.old row
            (map (with_cost to link_data cost) (slice_index_or self.old row []))) }
        ensures same { OnFalse result (self.new ≡ self.old) }
        ensures small { cost < 2 ^ 16 }
    {
        let span = self.spans[row];
        let edges = &mut self.edges[span.start as usize..span.end as usize];
        if count_to(edges, to, link_data) > 1 {
            return false;
        }
        set_costs(edges, to, link_data, cost);
        true
    }

    /// Adds a row.
    pub(crate) fn push(&mut self, row: &[Edge]) -> Result<(), AllocError>
        ensures { OnOk result (self.new ≡ self.old ++ row.now ∷ []) }
    {
        let start = place(self.edges.len())?;
        self.edges.extend_from_slice(row)?;
        let end = place(self.edges.len())?;
        self.spans.push(Span { start, end })?;
        Ok(())
    }

    /// Adds a row that has each of these edges once.
    pub(crate) fn push_once(&mut self, alloc: A, row: &[Edge]) -> Result<(), AllocError>
        ensures { OnOk result (self.new ≡ self.old ++ each_once same_edge row.now ∷ []) }
    {
        if is_rising(row) || (row.len() <= SHORT_ROW && is_distinct(row)) {
            return self.push(row);
        }
        let edges = edge_set(alloc, row)?;
        self.push(edges.as_slice())
    }
}
