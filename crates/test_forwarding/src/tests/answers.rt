//! What calls answer, as bytes that say all of it.

use super::texts::{push_graph, push_match, push_routers};
use forwarding::{Forwarding, ForwardingGraph, Loop, Match, RouterRoutes};
use hop_ends::AreaGraphs;
use lsa_codec::{Addr, RouterId};
use std::alloc::{AllocError, Global};
use std::test::*;
use test_support::{Answer, FailingAlloc, R1};

/// Interfaces of 1.1.1.1, one in each area.
const INTERFACES: &[u32] = &[0x0a00_0001, 0x0a01_0001];

/// An address of each prefix of the network.
const ADDRESSES: &[u32] = &[
    0x0a02_0001,
    0x0a03_0001,
    0x0a05_0001,
    0x0a14_0001,
    0x0a1e_0001,
    0x0a1f_0001,
    0x0a20_0001,
];

/// The answer that is the forwarding graph of an address.
pub(super) fn of_graph(
    alloc: Global,
    graph: Result<ForwardingGraph<&FailingAlloc>, AllocError>,
) -> Result<Answer, Fail> {
    let Ok(graph) = graph else {
        return Ok(None);
    };
    let mut text = String::new(alloc);
    push_graph(&mut text, &graph)?;
    Ok(Some(text.into_bytes()))
}

/// The answer that is routers.
pub(super) fn of_routers(
    alloc: Global,
    routers: Result<Vec<RouterId, &FailingAlloc>, AllocError>,
) -> Result<Answer, Fail> {
    let Ok(routers) = routers else {
        return Ok(None);
    };
    let mut text = String::new(alloc);
    push_routers(alloc, &mut text, &routers)?;
    Ok(Some(text.into_bytes()))
}

/// The answer that is graphs of areas, by their far ends. There is ample memory for these, and from
/// then on.
pub(super) fn of_area_graphs<'a>(
    alloc: Global,
    failing: &'a FailingAlloc,
    graphs: Result<AreaGraphs<'_, &'a FailingAlloc>, AllocError>,
) -> Result<Answer, Fail> {
    let Ok(graphs) = graphs else {
        return Ok(None);
    };
    failing.set_remaining(u64::MAX);
    let mut text = String::new(alloc);
    for interface in INTERFACES {
        let routers = graphs.far_ends(failing, RouterId(R1), Addr(*interface))?;
        push_routers(alloc, &mut text, &routers)?;
    }
    Ok(Some(text.into_bytes()))
}

/// The answer that is a match.
pub(super) fn of_match(
    alloc: Global,
    found: Result<Option<Match<&FailingAlloc>>, AllocError>,
) -> Result<Answer, Fail> {
    let Ok(found) = found else {
        return Ok(None);
    };
    let mut text = String::new(alloc);
    push_match(&mut text, found.as_ref())?;
    Ok(Some(text.into_bytes()))
}

/// The answer that is what the entries of a router come from, by its matches. There is ample memory
/// for these, and from then on.
pub(super) fn of_routes<'a>(
    alloc: Global,
    failing: &'a FailingAlloc,
    graphs: &AreaGraphs<'_, &'a FailingAlloc>,
    routes: Result<RouterRoutes<&'a FailingAlloc>, AllocError>,
) -> Result<Answer, Fail> {
    let Ok(routes) = routes else {
        return Ok(None);
    };
    failing.set_remaining(u64::MAX);
    let mut text = String::new(alloc);
    for address in ADDRESSES {
        let found = routes.match_of(failing, graphs, Addr(*address))?;
        push_match(&mut text, found.as_ref())?;
    }
    Ok(Some(text.into_bytes()))
}

/// The answer that is what forwarding graphs come from, by the graphs. There is ample memory for
/// these, and from then on.
pub(super) fn of_forwarding<'a>(
    alloc: Global,
    failing: &'a FailingAlloc,
    forwarding: Result<Forwarding<'_, &'a FailingAlloc>, AllocError>,
) -> Result<Answer, Fail> {
    let Ok(forwarding) = forwarding else {
        return Ok(None);
    };
    failing.set_remaining(u64::MAX);
    let mut text = String::new(alloc);
    for address in ADDRESSES {
        let graph = forwarding.graph(failing, Addr(*address))?;
        push_graph(&mut text, &graph)?;
    }
    Ok(Some(text.into_bytes()))
}

/// The answer that is a loop. One that is not there is a failure.
pub(super) fn of_loop(
    alloc: Global,
    found: Result<Option<Loop<&FailingAlloc>>, AllocError>,
) -> Result<Answer, Fail> {
    let Ok(found) = found else {
        return Ok(None);
    };
    let found = found.ok_or("no loop")?;
    let mut text = String::new(alloc);
    push_routers(alloc, &mut text, found.as_slice())?;
    Ok(Some(text.into_bytes()))
}

/// The answer that is loops.
pub(super) fn of_loops(
    alloc: Global,
    found: Result<Vec<Loop<&FailingAlloc>, &FailingAlloc>, AllocError>,
) -> Result<Answer, Fail> {
    let Ok(found) = found else {
        return Ok(None);
    };
    let mut text = String::new(alloc);
    for each in &found {
        text.push_str("loop ")?;
        push_routers(alloc, &mut text, each.as_slice())?;
    }
    Ok(Some(text.into_bytes()))
}
