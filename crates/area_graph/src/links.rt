//! The edges over the links of routers.

ghost use Rattle.std.specs.Prelude.{◌≡◌, ◌<◌, ◌∷◌, [], length, map, All, OnOk};
ghost use Rattle.area_graph.specs.steps.Drafts.{Adds, arc_of, both_arcs, returned_arcs, row_arcs, arcs_below};

use crate::back_links::BackLinks;
use crate::draft::Draft;
use crate::edge::Edge;
use std::alloc::{AllocError, Allocator};

/// Adds an edge of a vertex, and the edge back where it leads to a network.
fn add_both<A: Allocator + Copy>(
    draft: &mut Draft<A>,
    from: usize,
    edge: Edge,
) -> Result<(), AllocError>
    requires from { from < length draft.old.vertices }
    requires to { edge.to < length draft.old.vertices }
    ensures vertices { draft.new.vertices ≡ draft.old.vertices }
    ensures edges { OnOk result
        (Adds (both_arcs draft.old.vertices (arc_of from edge)) draft.old draft.new) }
{
    draft.add(from, edge)?;
    let to = edge.to as usize;
    if !draft.is_network(to) {
        return Ok(());
    }
    draft.add(
        to,
        Edge {
            to: from as u16,
            cost: 0,
            link_data: edge.link_data,
        },
    )
}

/// Adds an edge of a vertex, both ways, where the other end names the vertex.
fn add_edge<A: Allocator + Copy>(
    draft: &mut Draft<A>,
    back_links: &BackLinks<A>,
    from: usize,
    edge: Edge,
) -> Result<(), AllocError>
    requires sized { length back_links.now ≡ length draft.old.vertices }
    requires from { from < length draft.old.vertices }
    requires to { edge.to < length draft.old.vertices }
    ensures vertices { draft.new.vertices ≡ draft.old.vertices }
    ensures edges { OnOk result
        (Adds (returned_arcs draft.old.vertices back_links.now (arc_of from edge ∷ []))
        draft.old draft.new) }
{
    if !back_links.names(edge.to as usize, from) {
        return Ok(());
    }
    add_both(draft, from, edge)
}

/// Adds those of these edges of a vertex whose other ends name it.
fn add_returned<A: Allocator + Copy>(
    draft: &mut Draft<A>,
    back_links: &BackLinks<A>,
    from: usize,
    row: &[Edge],
) -> Result<(), AllocError>
    requires sized { length back_links.now ≡ length draft.old.vertices }
    requires from { from < length draft.old.vertices }
    requires to { All (λ e. e.to < length draft.old.vertices) row.now }
    ensures vertices { draft.new.vertices ≡ draft.old.vertices }
    ensures edges { OnOk result
        (Adds (returned_arcs draft.old.vertices back_links.now (map (arc_of from) row.now))
        draft.old draft.new) }
{
    for edge in row {
        add_edge(draft, back_links, from, *edge)?;
    }
    Ok(())
}

/// Adds the edges over the links of a vertex, which only a router has.
fn add_row<A: Allocator + Copy>(
    draft: &mut Draft<A>,
    back_links: &BackLinks<A>,
    from: usize,
) -> Result<(), AllocError>
    requires sized { length back_links.now ≡ length draft.old.vertices }
    requires from { from < length draft.old.vertices }
    ensures vertices { draft.new.vertices ≡ draft.old.vertices }
    ensures edges { OnOk result
        (Adds (row_arcs draft.old.vertices back_links.now from) draft.old draft.new) }
{
    if draft.is_network(from) {
        return Ok(());
    }
    add_returned(draft, back_links, from, back_links.row(from))
}

/// Adds the edges over the links of all vertices.
pub(crate) fn add_edges<A: Allocator + Copy>(
    draft: &mut Draft<A>,
    back_links: &BackLinks<A>,
) -> Result<(), AllocError>
    requires { length back_links.now ≡ length draft.old.vertices }
    ensures vertices { draft.new.vertices ≡ draft.old.vertices }
    ensures edges { OnOk result
        (Adds (arcs_below draft.old.vertices back_links.now (length back_links.now))
        draft.old draft.new) }
{
    for from in 0..back_links.len() {
        add_row(draft, back_links, from)?;
    }
    Ok(())
}
