//! What a router uses for a prefix, as studies show it.

ghost use Rattle.std.specs.Prelude.{◌≡◌, IfOk, option_map};
ghost use Rattle.lsdb.specs.Slots.{lists_of};
ghost use Rattle.hop_ends.specs.Owners.{AreGraphsOf};
ghost use Rattle.router_entries.specs.Entries.{is_own_external};
ghost use Rattle.route_report.specs.Lines.{announced_by, line_by, line_for, line_of, own_source, source_of};

use crate::way::ways_over;
use forwarding::{Match, RouterRoutes};
use hop_ends::AreaGraphs;
use lsa_codec::{Prefix, RouterId};
use lsdb::Database;
use route_lines::{OwnSource, RouteLine, RouteSource};
use router_entries::{Entries, Entry, OwnExternal, own_external_for};
use std::alloc::{AllocError, Allocator};
use study_words::RouteKind;

/// What is announced, without its Link State ID.
fn own_source(own: OwnExternal) -> OwnSource
    ensures { result ≡ own_source own }
{
    OwnSource {
        is_type2: own.is_type2,
        metric: own.metric,
        forward: own.forward,
    }
}

/// Whether an entry is for an external prefix of the router itself.
fn is_own_external(entry: &Entry<'_>) -> bool
    ensures { result ≡ is_own_external entry.now }
{
    match entry.kind {
        RouteKind::Own => true,
        RouteKind::Intra | RouteKind::Inter | RouteKind::External1 | RouteKind::External2 => false,
    }
}

/// What a router announces for a prefix, where its entry is an external prefix of its own.
fn announced_by<A: Allocator + Copy>(
    database: &Database<A>,
    router: RouterId,
    net: Prefix,
    entry: &Entry<'_>,
) -> Option<OwnSource>
    ensures { result ≡ announced_by (lists_of database.now) router net entry.now }
{
    if !is_own_external(entry) {
        return None;
    }
    let own = own_external_for(database, router, net)?;
    Some(own_source(own))
}

/// Where the entry of a router for a prefix comes from, and what it costs.
pub(crate) fn source_of<A: Allocator + Copy>(
    database: &Database<A>,
    router: RouterId,
    net: Prefix,
    entry: &Entry<'_>,
) -> RouteSource
    ensures { result ≡ source_of (lists_of database.now) router net entry.now }
{
    RouteSource {
        kind: entry.kind,
        metric: entry.metric,
        cost: entry.cost,
        own: announced_by(database, router, net, entry),
    }
}

/// An entry of a router, with the ways of its match.
fn line_of<A: Allocator + Copy>(
    alloc: A,
    database: &Database<A>,
    router: RouterId,
    found: &Match<A>,
    entry: &Entry<'_>,
) -> Result<RouteLine<A>, AllocError>
    ensures { IfOk result
        (λ line. line ≡ line_of (lists_of database.now) router found.now entry.now) }
{
    let ways = ways_over(alloc, database, router, &found.ways)?;
    Ok(RouteLine {
        net: found.net,
        source: source_of(database, router, found.net, entry),
        area: entry.area,
        ways,
    })
}

/// The entry of a router with the ways of its match, if there is a match.
pub(crate) fn line_by<A: Allocator + Copy>(
    alloc: A,
    database: &Database<A>,
    routes: &RouterRoutes<A>,
    found: Option<&Match<A>>,
) -> Result<Option<RouteLine<A>>, AllocError>
    ensures { IfOk result (λ line. line
        ≡ line_by (lists_of database.now) routes.now (option_map (λ m. m.now) found.entry)) }
{
    let Some(found) = found else {
        return Ok(None);
    };
    let Some(entry) = Entries::of(routes).entry_for(found.net) else {
        return Ok(None);
    };
    let line = line_of(alloc, database, routes.router(), found, &entry)?;
    Ok(Some(line))
}

/// What a router uses for a prefix, if it has an entry for it. The graphs are those of the areas of
/// the database.
///
/// # Errors
///
/// Memory ran out.
pub fn route_line<A: Allocator + Copy>(
    alloc: A,
    database: &Database<A>,
    graphs: &AreaGraphs<'_, A>,
    routes: &RouterRoutes<A>,
    net: Prefix,
) -> Result<Option<RouteLine<A>>, AllocError>
    ensures { IfOk result (λ line. AreGraphsOf (lists_of database.now) graphs.now
        → line ≡ line_for (lists_of database.now) routes.now net) }
{
    let found = routes.entry_for(alloc, graphs, net)?;
    line_by(alloc, database, routes, found.as_ref())
}
