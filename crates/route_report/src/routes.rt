//! The answer of `routes`.

ghost use Rattle.std.specs.Prelude.{◌≡◌, [], IfOk, Some};
ghost use Rattle.std.specs.List.{cons_option, filter_map};
ghost use Rattle.lsdb.specs.Slots.{lists_of};
ghost use Rattle.hop_ends.specs.Owners.{AreGraphsOf};
ghost use Rattle.route_report.specs.Lines.{answered, line_for, lines_of, route_of, routes_of};

use crate::line::{line_by, route_line};
use forwarding::RouterRoutes;
use hop_ends::AreaGraphs;
use lsa_codec::{Addr, Prefix, RouterId};
use lsdb::Database;
use route_lines::RouteLine;
use router_entries::Entries;
use spf::Meter;
use std::alloc::{AllocError, Allocator};

/// A line as a list, if there is one.
fn listed<A: Allocator + Copy>(
    alloc: A,
    line: Option<RouteLine<A>>,
) -> Result<Vec<RouteLine<A>, A>, AllocError>
    ensures { IfOk result (λ lines. lines.items ≡ cons_option line []) }
{
    let mut lines = Vec::new(alloc);
    if let Some(line) = line {
        lines.push(line)?;
    }
    Ok(lines)
}

/// What a router uses for each of some prefixes for which it has entries.
fn lines_for<A: Allocator + Copy>(
    alloc: A,
    database: &Database<A>,
    graphs: &AreaGraphs<'_, A>,
    routes: &RouterRoutes<A>,
    nets: &[Prefix],
) -> Result<Vec<RouteLine<A>, A>, AllocError>
    ensures { IfOk result (λ lines. AreGraphsOf (lists_of database.now) graphs.now
        → lines.items ≡ filter_map (line_for (lists_of database.now) routes.now) nets.now) }
{
    let mut lines = Vec::new(alloc);
    for net in nets {
        let line = route_line(alloc, database, graphs, routes, *net)?;
        let mut found = listed(alloc, line)?;
        lines.append(&mut found)?;
    }
    Ok(lines)
}

/// All that a router uses, in order of prefix.
fn all_lines<A: Allocator + Copy>(
    alloc: A,
    database: &Database<A>,
    graphs: &AreaGraphs<'_, A>,
    routes: &RouterRoutes<A>,
) -> Result<Vec<RouteLine<A>, A>, AllocError>
    ensures { IfOk result (λ lines. AreGraphsOf (lists_of database.now) graphs.now
        → lines.items ≡ lines_of (lists_of database.now) routes.now) }
{
    let nets = Entries::of(routes).nets_in_order(alloc)?;
    lines_for(alloc, database, graphs, routes, &nets)
}

/// What a router uses for an address, as a list: its entry for the longest prefix that covers the
/// address, if there is one (RFC 2328, 11.1).
fn matched<A: Allocator + Copy>(
    alloc: A,
    database: &Database<A>,
    graphs: &AreaGraphs<'_, A>,
    routes: &RouterRoutes<A>,
    address: Addr,
) -> Result<Vec<RouteLine<A>, A>, AllocError>
    ensures { IfOk result (λ lines. AreGraphsOf (lists_of database.now) graphs.now
        → lines.items ≡ answered (lists_of database.now) routes.now (Some address)) }
{
    let found = routes.match_of(alloc, graphs, address)?;
    let line = line_by(alloc, database, routes, found.as_ref())?;
    listed(alloc, line)
}

/// The answer of `routes`: what a router uses, in order of prefix, or, where an address is given,
/// for that alone. The meter counts the trees of the router's table.
///
/// # Errors
///
/// Memory ran out.
pub fn routes_of<A: Allocator + Copy>(
    alloc: A,
    database: &Database<A>,
    router: RouterId,
    address: Option<Addr>,
    meter: &mut Meter,
) -> Result<Vec<RouteLine<A>, A>, AllocError>
    ensures { IfOk result
        (λ lines. lines.items ≡ routes_of (lists_of database.now) router address) }
{
    let graphs = AreaGraphs::for_routers(alloc, database, &[router])?;
    let routes = RouterRoutes::of(alloc, database, router, meter)?;
    match address {
        Some(address) => matched(alloc, database, &graphs, &routes, address),
        None => all_lines(alloc, database, &graphs, &routes),
    }
}

/// What a router uses for exactly this prefix, if it has an entry for it. The meter counts the
/// trees of the router's table.
///
/// # Errors
///
/// Memory ran out.
pub fn route_of<A: Allocator + Copy>(
    alloc: A,
    database: &Database<A>,
    router: RouterId,
    net: Prefix,
    meter: &mut Meter,
) -> Result<Option<RouteLine<A>>, AllocError>
    ensures { IfOk result (λ line. line ≡ route_of (lists_of database.now) router net) }
{
    let graphs = AreaGraphs::of(alloc, database)?;
    let routes = RouterRoutes::of(alloc, database, router, meter)?;
    route_line(alloc, database, &graphs, &routes, net)
}
