//! A graph to which edges are added.

ghost use Rattle.std.specs.Prelude.{◌≡◌, ◌≢◌, ◌<◌, ◌≤◌, ◌^◌, ◌++◌, ◌∷◌, ℕ, [], length, map, slice_index_or, AllPairs, OnOk, OnErr, IfOk};
ghost use Rattle.area_graph.specs.Topology.{IsTopology, row_at};
ghost use Rattle.area_graph.specs.Rows.{same_edge, each_once};
ghost use Rattle.area_graph.specs.steps.Drafts.{Adds, arc_of, edges_once, is_network_at, with_edge};

use crate::edge::Edge;
use crate::graph::Graph;
use crate::numbers::{Vertices, networks_among};
use crate::rows::Rows;
use std::alloc::{AllocError, Allocator};
use std::marker::Model;

/// The edges out of a vertex, in the order in which they were added.
type Row<A> = Vec<Edge, A>;

/// A graph that has its vertices and some of its edges.
#[derive(Drop)]
pub(crate) struct Draft<A: Allocator> {
    vertices: Vertices<A>,
    rows: Vec<Row<A>, A>,
}

impl<A: Allocator> Model for Draft<A> {
    ghost use Rattle.std.specs.Prelude.{map};
    ghost use Rattle.area_graph.specs.Topology.{Topology};
    ghost use Rattle.area_graph.specs.steps.Drafts.{IsDraft};

    ghost Value = { Topology };

    ghost view = { λ d.
        record { vertices = d.vertices.keys; rows = map (λ row. row.items) d.rows.items } };

    ghost invariant = { λ d. IsDraft
        (record { vertices = d.vertices.keys; rows = map (λ row. row.items) d.rows.items }) };
}

/// `count` rows without edges.
fn empty_rows<A: Allocator + Copy>(alloc: A, count: usize) -> Result<Vec<Row<A>, A>, AllocError>
    ensures count { IfOk result (λ rows. length rows.items ≡ count) }
    ensures empty { IfOk result
        (λ rows. (i : ℕ) → slice_index_or (map (λ row. row.items) rows.items) i [] ≡ []) }
{
    let mut rows = Vec::with_capacity(alloc, count)?;
    for _ in 0..count {
        rows.push(Vec::new(alloc))?;
    }
    Ok(rows)
}

fn add_to_row<A: Allocator + Copy>(row: &mut Row<A>, edge: Edge) -> Result<(), AllocError>
    ensures added { OnOk result (row.new.items ≡ row.old.items ++ edge ∷ []) }
    ensures same { OnErr result (row.new.items ≡ row.old.items) }
{
    row.push(edge)?;
    Ok(())
}

/// The rows with each edge once.
fn rows_once<A: Allocator + Copy>(alloc: A, rows: &[Row<A>]) -> Result<Rows<A>, AllocError>
    ensures { IfOk result
        (λ once. once ≡ map (each_once same_edge) (map (λ row. row.items) rows.now)) }
{
    let mut once = Rows::with_capacity(alloc, rows.len())?;
    for row in rows {
        once.push_once(alloc, row)?;
    }
    Ok(once)
}

impl<A: Allocator + Copy> Draft<A> {
    /// The graph of these vertices without edges.
    pub(crate) fn new(alloc: A, vertices: Vertices<A>) -> Result<Draft<A>, AllocError>
        requires distinct { AllPairs (λ v w. v ≢ w) vertices.keys }
        requires few { length vertices.keys ≤ 8192 }
        ensures vertices { IfOk result (λ draft. draft.vertices ≡ vertices.keys) }
        ensures empty { IfOk result (λ draft. (i : ℕ) → row_at draft i ≡ []) }
    {
        let rows = empty_rows(alloc, vertices.len())?;
        Ok(Draft { vertices, rows })
    }

    /// Whether the vertex with a number is a transit network.
    pub(crate) fn is_network(&self, index: usize) -> bool
        requires { index < length self.now.vertices }
        ensures kind { result ≡ is_network_at self.now.vertices index }
        ensures few { length self.now.vertices ≤ 8192 }
    {
        self.vertices.as_slice()[index].is_network()
    }

    fn insert(&mut self, row: usize, edge: Edge) -> Result<(), AllocError>
        requires row { row < length self.old.vertices }
        requires to { edge.to < length self.old.vertices }
        requires cost { edge.cost < 2 ^ 16 }
        ensures added { OnOk result (self.new ≡ with_edge self.old row edge) }
        ensures same { OnErr result (self.new ≡ self.old) }
    {
        add_to_row(&mut self.rows[row], edge)
    }

    /// Adds an edge to the row of a vertex.
    pub(crate) fn add(&mut self, row: usize, edge: Edge) -> Result<(), AllocError>
        requires row { row < length self.old.vertices }
        requires to { edge.to < length self.old.vertices }
        ensures vertices { self.new.vertices ≡ self.old.vertices }
        ensures edges { OnOk result (Adds (arc_of row edge ∷ []) self.old self.new) }
    {
        // Opens the value, so that its invariant is available.
        let _ = &self.vertices;
        self.insert(row, edge)
    }

    /// The graph with each edge once in its row.
    pub(crate) fn into_graph(self, alloc: A) -> Result<Graph<A>, AllocError>
        requires { IsTopology (edges_once self) }
        ensures { IfOk result (λ graph. graph ≡ edges_once self) }
    {
        let rows = rows_once(alloc, &self.rows)?;
        let networks = networks_among(alloc, self.vertices.as_slice())?;
        Ok(Graph {
            vertices: self.vertices,
            networks,
            rows,
        })
    }
}
