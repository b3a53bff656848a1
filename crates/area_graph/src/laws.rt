//! What holds of the definitions.

ghost use Rattle.std.specs.Prelude.{◌↔◌, ℕ, List, Contains};
ghost use Rattle.area_graph.specs.declared.vertex.Vertex.{Vertex};
ghost use Rattle.area_graph.specs.Paths.{DirectedEdge, IsDistance};
ghost use Rattle.area_graph.specs.AllPaths.{distance_of};
ghost use Rattle.area_graph.specs.AreaEdges.{area_edges};
ghost use Rattle.area_graph.specs.Joins.{Joins};

/// The list of the edges of an area has exactly the edges that `Joins` defines, case by case.
pub fn edges_join_both_ways()
    ensures { (lsas : List (List ℕ)) (e : DirectedEdge Vertex)
        → Contains (area_edges lsas) e ↔ Joins lsas e.from e.to e.cost e.link_data }
{}

/// `distance_of` looks at paths with no more edges than there are. It is the least cost of all
/// paths, however long they are, and none exactly where there is no path.
pub fn distances_are_over_all_paths()
    ensures { (edges : List (DirectedEdge Vertex)) (v w : Vertex)
        → IsDistance (λ e. Contains edges e) v w (distance_of edges v w) }
{}
