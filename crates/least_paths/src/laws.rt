//! What holds of the definitions.

ghost use Rattle.std.specs.Prelude.{◌≡◌, ◌↔◌, ℕ, List, Contains, true};
ghost use Rattle.area_graph.specs.declared.vertex.Vertex.{Vertex};
ghost use Rattle.area_graph.specs.Paths.{DirectedEdge, IsLeastCost};
ghost use Rattle.area_graph.specs.Topology.{IsEdge, Topology};
ghost use Rattle.least_paths.specs.LeastPaths.{IsOnLeastPath, is_on_way};

/// An edge is on a path of least cost to a target exactly where the distance of its start, its
/// cost, and the distance from its end to the target make the distance of the target.
pub fn least_paths_by_distances()
    ensures { (edges : List (DirectedEdge Vertex)) (root : Vertex) (targets : List Vertex)
        (e : DirectedEdge Vertex) → Contains edges e
        → (is_on_way edges root targets e ≡ true)
        ↔ IsOnLeastPath (λ f. Contains edges f) root targets e }
{}

/// An edge on a path of least cost starts at a vertex that has a distance. The paths of a graph are
/// those over a list of its edges.
pub fn edges_on_least_paths()
    ensures start { (edges : List (DirectedEdge Vertex)) (root : Vertex) (targets : List Vertex)
        (e : DirectedEdge Vertex) → IsOnLeastPath (λ f. Contains edges f) root targets e
        → Contains edges e × ((d : ℕ) × IsLeastCost (λ f. Contains edges f) root e.from d) }
    ensures paths { (t : Topology) (edges : List (DirectedEdge Vertex))
        → ((f : DirectedEdge Vertex) → IsEdge t f ↔ Contains edges f)
        → (root : Vertex) (targets : List Vertex) (e : DirectedEdge Vertex)
        → IsOnLeastPath (IsEdge t) root targets e
        ↔ IsOnLeastPath (λ f. Contains edges f) root targets e }
    ensures costs { (t : Topology) (edges : List (DirectedEdge Vertex))
        → ((f : DirectedEdge Vertex) → IsEdge t f ↔ Contains edges f)
        → (v w : Vertex) (d : ℕ)
        → IsLeastCost (IsEdge t) v w d ↔ IsLeastCost (λ f. Contains edges f) v w d }
{}
