//! The graph of an area and its readers.

ghost use Rattle.std.specs.Prelude.{◌≡◌, ◌≢◌, ◌<◌, length, slice_get, Some, IfSome, IfNone, Contains, All, AllPairs, option_map};
ghost use Rattle.area_graph.specs.Vertex.{is_network};
ghost use Rattle.std.specs.Prelude.{ℕ, List};
ghost use Rattle.std.specs.Bool.{OnFalse, OnTrue};
ghost use Rattle.area_graph.specs.Topology.{IsTopology, row_at};
ghost use Rattle.area_graph.specs.CostChanges.{AreChanged};
ghost use Rattle.area_graph.specs.Graphs.{AreOfArea, IsGraphOf};

use crate::cost_change::CostChange;
use crate::edge::Edge;
use crate::numbers::{Vertices, number_of};
use crate::rows::Rows;
use crate::vertex::Vertex;
use std::alloc::{Allocator, Global};
use std::marker::Model;

/// The graph of an area. Contracts see it as the list of its vertices and, for each, the list of
/// the edges out of it.
///
/// It has at most 8,192 vertices, all distinct. Each edge leads to one of them. An edge out of a
/// network leads to a router at cost 0, and the cost of an edge out of a router is not 0.
#[derive(Drop)]
pub struct Graph<A: Allocator = Global> {
    pub(crate) vertices: Vertices<A>,
    /// Whether each vertex is a transit network, one byte per vertex: trees ask for it often.
    pub(crate) networks: Vec<bool, A>,
    pub(crate) rows: Rows<A>,
}

impl<A: Allocator> Model for Graph<A> {
    ghost use Rattle.std.specs.Prelude.{◌≡◌, map};
    ghost use Rattle.area_graph.specs.Vertex.{is_network};
    ghost use Rattle.area_graph.specs.Topology.{Topology, IsTopology};

    ghost Value = { Topology };

    ghost view = { λ g. record { vertices = g.vertices.keys; rows = g.rows } };

    ghost invariant = { λ g. IsTopology (record { vertices = g.vertices.keys; rows = g.rows })
        × (g.networks.items ≡ map is_network g.vertices.keys) };
}

impl<A: Allocator + Copy> Graph<A> {
    /// The number of vertices.
    pub fn len(&self) -> usize
        ensures count { result ≡ length self.now.vertices }
        ensures shape { IsTopology self.now }
    {
        self.vertices.len()
    }

    /// The vertex with a number.
    pub fn vertex(&self, index: usize) -> Vertex
        requires { index < length self.now.vertices }
        ensures vertex { slice_get self.now.vertices index ≡ Some result }
        ensures shape { IsTopology self.now }
    {
        self.vertices.as_slice()[index]
    }

    /// The number of a vertex, and None where the graph has no such vertex.
    pub fn index_of(&self, vertex: Vertex) -> Option<usize>
        ensures number { IfSome result (λ i. slice_get self.now.vertices i ≡ Some vertex) }
        ensures within { IfSome result (λ i. i < length self.now.vertices) }
        ensures absent { IfNone result (¬ Contains self.now.vertices vertex) }
        ensures shape { IsTopology self.now }
    {
        number_of(&self.vertices, vertex)
    }

    /// Whether the vertex with a number is a transit network.
    pub fn is_network(&self, index: usize) -> bool
        requires { index < length self.now.vertices }
        ensures kind { option_map is_network (slice_get self.now.vertices index) ≡ Some result }
        ensures shape { IsTopology self.now }
    {
        self.networks[index]
    }

    /// Changes the graph as a change of an interface's cost does, and returns whether it did. It
    /// does where the router and the vertex are in the graph, the cost is not 0, and at most one
    /// edge leads from the router to the vertex with the Link Data. `false` means that the graph is
    /// unchanged, and allows no other conclusion. It takes no memory.
    pub fn change_cost(&mut self, change: CostChange) -> bool
        ensures graph { OnTrue result ((lsas others : List (List ℕ)) → AreOfArea others
            → AreChanged change lsas others → IsGraphOf lsas self.old → IsGraphOf others self.new) }
        ensures same { OnFalse result (self.new ≡ self.old) }
    {
        if change.cost == 0 {
            return false;
        }
        let Some(from) = number_of(&self.vertices, Vertex::Router(change.from)) else {
            return false;
        };
        let Some(to) = number_of(&self.vertices, change.to) else {
            return false;
        };
        self.rows
            .set_cost(from, to as u16, change.link_data, change.cost)
    }

    /// The edges out of the vertex with a number, no two of them equal.
    pub fn edges(&self, index: usize) -> &[Edge]
        requires { index < length self.now.vertices }
        ensures row { result.now ≡ row_at self.now index }
        ensures targets { All (λ e. e.to < length self.now.vertices) result.now }
        ensures once { AllPairs (λ e f. e ≢ f) result.now }
        ensures shape { IsTopology self.now }
    {
        self.rows.row(index)
    }
}
