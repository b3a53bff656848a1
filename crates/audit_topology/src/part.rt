//! The part of a router of an area.

ghost use Rattle.std.specs.Prelude.{◌≡◌, ◌<◌, ℕ, List, All, IfOk, filter, filter_map, length};
ghost use Rattle.area_graph.specs.declared.vertex.Vertex.TheVariants.{Router};
ghost use Rattle.area_graph.specs.Area.{used};
ghost use Rattle.area_graph.specs.AreaEdges.{area_edges};
ghost use Rattle.area_graph.specs.Graphs.{IsGraphOf};
ghost use Rattle.spf.specs.Distances.{IsTreeOf, tree_of};
ghost use Rattle.audit_areas.specs.Areas.{routers_among};
ghost use Rattle.audit_topology.specs.Parts.{is_path_between, part_of};
ghost use Rattle.audit_topology.specs.steps.Numbers.{router_at};

use area_graph::{Graph, Vertex};
use audit_areas::{AuditedArea, push_some};
use link_report::rising;
use lsa_codec::RouterId;
use spf::{Meter, SpfFault, Tree};
use std::alloc::{AllocError, Allocator};

/// The tree of a router of a graph. The router is a vertex, so that only memory may be wanting.
fn tree_from<A: Allocator + Copy>(
    alloc: A,
    graph: &Graph<A>,
    router: RouterId,
) -> Result<Tree<A>, AllocError>
    ensures whole { IfOk result (λ tree. tree ≡ tree_of graph.now (Router router)) }
    ensures tree { IfOk result (λ tree. IsTreeOf graph.now (Router router) tree) }
{
    let mut meter = Meter::new();
    match Tree::build(alloc, graph, router, &mut meter) {
        Ok(tree) => Ok(tree),
        Err(SpfFault::NoRouter) | Err(SpfFault::OutOfMemory) => Err(AllocError),
    }
}

/// The router that has a number in a graph. Transit networks are none.
fn router_at<A: Allocator + Copy>(graph: &Graph<A>, number: u16) -> Option<RouterId>
    requires { number < length graph.now.vertices }
    ensures { result ≡ router_at graph.now number }
{
    match graph.vertex(usize::from(number)) {
        Vertex::Router(router) => Some(router),
        Vertex::Network(_) => None,
    }
}

/// The routers that have some numbers in a graph.
fn routers_at<A: Allocator + Copy>(
    alloc: A,
    graph: &Graph<A>,
    numbers: &[u16],
) -> Result<Vec<RouterId, A>, AllocError>
    requires { All (λ n. n < length graph.now.vertices) numbers.now }
    ensures { IfOk result
        (λ routers. routers.items ≡ filter_map (router_at graph.now) numbers.now) }
{
    let mut routers = Vec::new(alloc);
    for number in numbers {
        push_some(&mut routers, router_at(graph, *number))?;
    }
    Ok(routers)
}

/// The routers of a graph to which there is a path from one of them, in rising order.
fn reached_routers<A: Allocator + Copy>(
    alloc: A,
    graph: &Graph<A>,
    root: RouterId,
) -> Result<Vec<RouterId, A>, AllocError>
    ensures { IfOk result (λ routers. (lsas : List (List ℕ)) → IsGraphOf lsas graph.now
        → routers.items ≡ filter (is_path_between (area_edges (used lsas)) root)
        (routers_among graph.now.vertices)) }
{
    let tree = tree_from(alloc, graph, root)?;
    let routers = routers_at(alloc, graph, tree.order())?;
    rising(alloc, &routers)
}

/// The part of a router of an area: the routers to which there is a path, in rising order. It takes
/// one tree.
pub(crate) fn part_of<A: Allocator + Copy>(
    alloc: A,
    area: &AuditedArea<'_, A>,
    root: RouterId,
) -> Result<Vec<RouterId, A>, AllocError>
    ensures { IfOk result (λ routers. routers.items ≡ part_of area.now root) }
{
    reached_routers(alloc, area.graph(), root)
}
