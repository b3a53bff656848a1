//! Laws: what holds of the definitions that the contracts of this crate cite. Each is a function
//! that does nothing, and its contract is the law.

ghost use Rattle.std.specs.Prelude.{◌≡◌, ◌↔◌, List, Contains, true};
ghost use Rattle.std.specs.Cmp.{IsTotalOrder};
ghost use Rattle.std.specs.declared.cmp.Ordering.TheVariants.{Equal};
ghost use Rattle.area_graph.specs.declared.vertex.Vertex.{Vertex};
ghost use Rattle.area_graph.specs.Paths.{DirectedEdge};
ghost use Rattle.next_hops.specs.declared.hop.Hop.{Hop as HopValue};
ghost use Rattle.next_hops.specs.Hop.{hop_cmp, IsSortedHops};
ghost use Rattle.next_hops.specs.FirstHops.{IsHopTo, NothingFree, hops_of};

use crate::hop::Hop;

/// The order of hops is `Hop`'s `Ord`. It is total, and two hops compare as equal only where they
/// are the same.
pub fn hop_order()
    ensures order { (g h : HopValue) → ⟦<Hop as Ord>⟧.cmp g h ≡ hop_cmp g h }
    ensures total { IsTotalOrder hop_cmp }
    ensures exact { (g h : HopValue) → hop_cmp g h ≡ Equal → g ≡ h }
{}

/// Two hops are equal by `Hop`'s `PartialEq` only where they are the same.
pub fn hop_equality()
    ensures { (g h : HopValue) → ⟦<Hop as PartialEq>⟧.eq g h ≡ true → g ≡ h }
{}

/// The hops over a list of edges are in rising order, each once. Where no cycle has cost 0, they
/// are exactly the first hops of all paths of least cost over these edges, of any length.
pub fn hops_law()
    ensures sorted { (edges : List (DirectedEdge Vertex)) (root w : Vertex)
        → IsSortedHops (hops_of edges root w) }
    ensures paths { (edges : List (DirectedEdge Vertex)) (root w : Vertex) (hop : HopValue)
        → NothingFree edges
        → Contains (hops_of edges root w) hop ↔ IsHopTo (λ e. Contains edges e) root w hop }
{}
