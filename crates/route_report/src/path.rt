//! The answer of `path`.

ghost use Rattle.std.specs.Prelude.{◌≡◌, ◌++◌, IfOk, OnOk, Some};
ghost use Rattle.std.specs.List.{flat_map};
ghost use Rattle.lsdb.specs.Slots.{lists_of};
ghost use Rattle.route_report.specs.Paths.{IsPath, IsPathIn, end_if, ends_of, source_by, source_in, steps_in, steps_of, steps_over};

use crate::line::source_of;
use crate::step::{push_step_down, push_step_out, push_steps_over};
use forwarding::{Ends, Forwarding, ForwardingGraph, Loop, Match, RouterRoutes, RouterStep};
use lsa_codec::{Addr, Prefix, RouterId};
use lsdb::Database;
use route_lines::{Path, PathEnd, PathLoop, PathStep, RouteSource};
use router_entries::Entries;
use spf::Meter;
use std::alloc::{AllocError, Allocator};

/// Where the entry of a router for a prefix comes from, if there is one.
fn source_by<A: Allocator + Copy>(
    database: &Database<A>,
    net: Prefix,
    routes: &RouterRoutes<A>,
) -> Option<RouteSource>
    ensures { result ≡ source_by (lists_of database.now) net routes.now }
{
    let entry = Entries::of(routes).entry_for(net)?;
    Some(source_of(database, routes.router(), net, &entry))
}

/// Where the entry of a router that is known for a prefix comes from, if there is one.
fn source_in<A: Allocator + Copy>(
    database: &Database<A>,
    forwarding: &Forwarding<'_, A>,
    router: RouterId,
    net: Prefix,
) -> Option<RouteSource>
    ensures { result ≡ source_in (lists_of database.now) forwarding.now.routers router net }
{
    let routes = forwarding.routes_of(router)?;
    source_by(database, net, routes)
}

/// Adds the steps of a router by its match, whose entry comes from here.
fn push_matched<A: Allocator + Copy>(
    alloc: A,
    database: &Database<A>,
    router: RouterId,
    found: &Match<A>,
    source: RouteSource,
    steps: &mut Vec<PathStep, A>,
) -> Result<(), AllocError>
    ensures { OnOk result (steps.new.items ≡ steps.old.items
        ++ steps_over (lists_of database.now) router found.now (Some source)) }
{
    if found.is_own {
        return push_step_out(router, found.net, source, steps);
    }
    push_steps_over(
        alloc,
        database,
        router,
        found.net,
        source,
        &found.ways,
        steps,
    )
}

/// Adds the steps of a router.
fn push_steps_of<A: Allocator + Copy>(
    alloc: A,
    database: &Database<A>,
    forwarding: &Forwarding<'_, A>,
    step: &RouterStep<A>,
    steps: &mut Vec<PathStep, A>,
) -> Result<(), AllocError>
    ensures { OnOk result (steps.new.items ≡ steps.old.items
        ++ steps_of (lists_of database.now) forwarding.now.routers step.now) }
{
    let Some(found) = &step.matched else {
        return push_step_down(step.router, steps);
    };
    match source_in(database, forwarding, step.router, found.net) {
        Some(source) => push_matched(alloc, database, step.router, found, source, steps),
        None => Ok(()),
    }
}

/// The steps of some routers.
fn steps_of<A: Allocator + Copy>(
    alloc: A,
    database: &Database<A>,
    forwarding: &Forwarding<'_, A>,
    graph: &ForwardingGraph<A>,
    routers: &[RouterId],
) -> Result<Vec<PathStep, A>, AllocError>
    ensures { IfOk result (λ steps. steps.items
        ≡ flat_map (steps_in (lists_of database.now) forwarding.now.routers graph.now)
        routers.now) }
{
    let mut steps = Vec::new(alloc);
    for router in routers {
        if let Some(step) = graph.step(*router) {
            push_steps_of(alloc, database, forwarding, step, &mut steps)?;
        }
    }
    Ok(steps)
}

/// Adds an end, if walks have it.
fn push_end_if<A: Allocator + Copy>(
    found: &mut Vec<PathEnd, A>,
    has_end: bool,
    end: PathEnd,
) -> Result<(), AllocError>
    ensures { OnOk result (found.new.items ≡ found.old.items ++ end_if has_end end) }
{
    if has_end {
        found.push(end)?;
    }
    Ok(())
}

/// How walks end, in order, each once.
fn ends_of<A: Allocator + Copy>(
    alloc: A,
    ends: Ends,
    is_loop: bool,
) -> Result<Vec<PathEnd, A>, AllocError>
    ensures { IfOk result (λ found. found.items ≡ ends_of ends is_loop) }
{
    let mut found = Vec::new(alloc);
    push_end_if(&mut found, ends.is_delivered, PathEnd::Delivered)?;
    push_end_if(&mut found, ends.is_external, PathEnd::External)?;
    push_end_if(&mut found, ends.is_blackhole, PathEnd::Blackhole)?;
    push_end_if(&mut found, is_loop, PathEnd::Loop)?;
    Ok(found)
}

/// Loops as paths show them.
fn loops_of<A: Allocator + Copy>(
    alloc: A,
    loops: &[Loop<A>],
) -> Result<Vec<PathLoop<A>, A>, AllocError>
    ensures { IfOk result (λ shown. shown.items ≡ loops.now) }
{
    let mut shown = Vec::new(alloc);
    for found in loops {
        let routers = Vec::from_slice(alloc, found.as_slice())?;
        shown.push(PathLoop { routers })?;
    }
    Ok(shown)
}

/// The path in a forwarding graph, where these routers are known.
pub(crate) fn path_in<A: Allocator + Copy>(
    alloc: A,
    database: &Database<A>,
    forwarding: &Forwarding<'_, A>,
    graph: &ForwardingGraph<A>,
    start: RouterId,
) -> Result<Path<A>, AllocError>
    ensures { IfOk result
        (IsPathIn (lists_of database.now) forwarding.now.routers graph.now start) }
{
    let routers = graph.reached(alloc, start)?;
    let loops = loops_of(alloc, &graph.loops(alloc, &routers)?)?;
    let ends = ends_of(alloc, graph.ends(&routers), !loops.is_empty())?;
    let steps = steps_of(alloc, database, forwarding, graph, &routers)?;
    Ok(Path {
        routers,
        steps,
        ends,
        loops,
    })
}

/// The answer of `path`: what becomes of packets that begin at a router and are sent to an address.
/// The meter counts a tree for each router that packets pass and area that it is attached to.
///
/// # Errors
///
/// Memory ran out.
pub fn path_of<A: Allocator + Copy>(
    alloc: A,
    database: &Database<A>,
    start: RouterId,
    address: Addr,
    meter: &mut Meter,
) -> Result<Path<A>, AllocError>
    ensures { IfOk result (IsPath (lists_of database.now) start address) }
{
    let (forwarding, graph) = Forwarding::from_router(alloc, database, start, address, meter)?;
    path_in(alloc, database, &forwarding, &graph, start)
}
