//! The routers of an area's graph.

ghost use Rattle.std.specs.Prelude.{◌≡◌, IfOk};
ghost use Rattle.std.specs.List.{filter_map};
ghost use Rattle.audit_areas.specs.Areas.{router_of, routers_among};

use crate::lists::push_some;
use area_graph::{Graph, Vertex};
use link_report::rising;
use lsa_codec::RouterId;
use std::alloc::{AllocError, Allocator};

/// The router of a vertex. Transit networks have none.
fn router_of(vertex: Vertex) -> Option<RouterId>
    ensures { result ≡ router_of vertex }
{
    match vertex {
        Vertex::Router(router) => Some(router),
        Vertex::Network(_) => None,
    }
}

/// The routers of a graph, in the order of its vertices.
fn router_vertices<A: Allocator + Copy>(
    alloc: A,
    graph: &Graph<A>,
) -> Result<Vec<RouterId, A>, AllocError>
    ensures { IfOk result (λ routers. routers.items ≡ filter_map router_of graph.now.vertices) }
{
    let mut routers = Vec::new(alloc);
    for number in 0..graph.len() {
        push_some(&mut routers, router_of(graph.vertex(number)))?;
    }
    Ok(routers)
}

/// The routers of a graph, in rising order.
pub(crate) fn routers_among<A: Allocator + Copy>(
    alloc: A,
    graph: &Graph<A>,
) -> Result<Vec<RouterId, A>, AllocError>
    ensures { IfOk result (λ routers. routers.items ≡ routers_among graph.now.vertices) }
{
    let routers = router_vertices(alloc, graph)?;
    rising(alloc, &routers)
}
