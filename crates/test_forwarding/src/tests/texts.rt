//! Texts of what forwarding graphs and their calls give.

use forwarding::{ForwardingGraph, Match};
use lsa_codec::RouterId;
use std::alloc::Global;
use std::test::*;
use test_support::FailingAlloc;

/// Adds routers, each with a space after it.
pub(super) fn push_routers(
    alloc: Global,
    text: &mut String,
    routers: &[RouterId],
) -> Result<(), Fail> {
    for router in routers {
        text.push_str(&format!(in alloc; "{router} ")?)?;
    }
    Ok(())
}

/// Adds a match, or that there is none.
pub(super) fn push_match(
    text: &mut String,
    found: Option<&Match<&FailingAlloc>>,
) -> Result<(), Fail> {
    let Some(found) = found else {
        text.push_str(" no match")?;
        return Ok(());
    };
    let (net, is_own, ways) = (found.net, found.is_own, found.ways.as_slice());
    write!(text, " {net:?} {is_own} {ways:?}")?;
    Ok(())
}

/// Adds the routers of a graph, each with its match.
pub(super) fn push_graph(
    text: &mut String,
    graph: &ForwardingGraph<&FailingAlloc>,
) -> Result<(), Fail> {
    for step in graph.as_slice() {
        let router = step.router;
        write!(text, " {router:?}")?;
        push_match(text, step.matched.as_ref())?;
    }
    Ok(())
}
