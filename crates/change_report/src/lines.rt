//! What differs from a baseline, with the routes of now and of before.

ghost use Rattle.std.specs.Prelude.{◌≡◌, map, IfOk};
ghost use Rattle.std.specs.Option.{option_copied};
ghost use Rattle.lsdb.specs.Slots.{lists_of};
ghost use Rattle.forwarding.specs.Graphs.{IsForwardingOf};
ghost use Rattle.hop_ends.specs.Owners.{AreGraphsOf};
ghost use Rattle.lost_routes.specs.Announced.{announced_in};
ghost use Rattle.lost_routes.specs.Announcers.{announcements};
ghost use Rattle.change_report.specs.Lines.{change_line, gone_line, gone_lines, lost_line, lost_lines, lines_of_changes, route_at, route_by, route_for};

use change_lines::{ChangeLine, ChangeName, Pair, PairLine};
use comparison::Comparison;
use forwarding::{Forwarding, RouterRoutes};
use hop_ends::AreaGraphs;
use lost_routes::Announcers;
use lsa_codec::{Prefix, RouterId};
use lsdb::Database;
use route_lines::RouteLine;
use route_report::route_line;
use std::alloc::{AllocError, Allocator};

/// What a router with these routes uses for a prefix, where it is attached and has an entry.
pub(crate) fn route_by<A: Allocator + Copy>(
    alloc: A,
    database: &Database<A>,
    graphs: &AreaGraphs<'_, A>,
    routes: Option<&RouterRoutes<A>>,
    net: Prefix,
) -> Result<Option<RouteLine<A>>, AllocError>
    requires { AreGraphsOf (lists_of database.now) graphs.now }
    ensures { IfOk result
        (λ line. line ≡ route_by (lists_of database.now) net (option_copied routes.entry)) }
{
    match routes {
        Some(routes) => route_line(alloc, database, graphs, routes, net),
        None => Ok(None),
    }
}

/// What a router uses for a prefix, where it is attached and has an entry.
fn route_at<A: Allocator + Copy>(
    alloc: A,
    database: &Database<A>,
    forwarding: &Forwarding<'_, A>,
    router: RouterId,
    net: Prefix,
) -> Result<Option<RouteLine<A>>, AllocError>
    requires { IsForwardingOf (lists_of database.now) forwarding.now }
    ensures { IfOk result (λ line. line ≡ route_at (lists_of database.now) router net) }
{
    let routes = forwarding.routes_of(router);
    route_by(alloc, database, forwarding.graphs(), routes, net)
}

/// The same, where there may be no prefix.
fn route_for<A: Allocator + Copy>(
    alloc: A,
    database: &Database<A>,
    forwarding: &Forwarding<'_, A>,
    router: RouterId,
    net: Option<Prefix>,
) -> Result<Option<RouteLine<A>>, AllocError>
    requires { IsForwardingOf (lists_of database.now) forwarding.now }
    ensures { IfOk result (λ line. line ≡ route_for (lists_of database.now) router net) }
{
    match net {
        Some(net) => route_at(alloc, database, forwarding, router, net),
        None => Ok(None),
    }
}

/// A change, with the route of now and the one before.
fn change_line<A: Allocator + Copy>(
    alloc: A,
    both: &Comparison<'_, A>,
    name: &ChangeName,
) -> Result<ChangeLine<A>, AllocError>
    ensures { IfOk result (λ line. line ≡ change_line both.now name.now) }
{
    let now = route_for(alloc, both.present(), both.are(), name.router, name.net)?;
    let was = route_for(alloc, both.baseline(), both.were(), name.router, name.net)?;
    Ok(ChangeLine {
        name: *name,
        now,
        was,
    })
}

/// Changes, each with the route of now and the one before.
///
/// # Errors
///
/// Memory ran out.
pub fn lines_of_changes<A: Allocator + Copy>(
    alloc: A,
    both: &Comparison<'_, A>,
    names: &[ChangeName],
) -> Result<Vec<ChangeLine<A>, A>, AllocError>
    ensures { IfOk result (λ lines. lines.items ≡ lines_of_changes both.now names.now) }
{
    let mut lines = Vec::new(alloc);
    for name in names {
        lines.push(change_line(alloc, both, name)?)?;
    }
    Ok(lines)
}

/// What the router of a pair used for its prefix in the baseline.
fn route_before<A: Allocator + Copy>(
    alloc: A,
    both: &Comparison<'_, A>,
    pair: &Pair,
) -> Result<Option<RouteLine<A>>, AllocError>
    ensures { IfOk result (λ line. line ≡ route_at both.now.baseline pair.now.router pair.now.net) }
{
    route_at(alloc, both.baseline(), both.were(), pair.router, pair.net)
}

/// A pair with the route of the baseline.
fn gone_line<A: Allocator + Copy>(
    alloc: A,
    both: &Comparison<'_, A>,
    pair: &Pair,
) -> Result<PairLine<A>, AllocError>
    ensures { IfOk result (λ line. line ≡ gone_line both.now pair.now) }
{
    let was = route_before(alloc, both, pair)?;
    let announced = Vec::new(alloc);
    Ok(PairLine {
        pair: *pair,
        was,
        announced,
    })
}

/// A pair with the route of the baseline, and the routers that announce the prefix.
fn lost_line<A: Allocator + Copy>(
    alloc: A,
    both: &Comparison<'_, A>,
    announcers: &Announcers<A>,
    pair: &Pair,
) -> Result<PairLine<A>, AllocError>
    requires { announcers.now ≡ announcements (announced_in both.now.baseline) both.now.present }
    ensures { IfOk result (λ line. line ≡ lost_line both.now pair.now) }
{
    let was = route_before(alloc, both, pair)?;
    let announced = announcers.routers_of(alloc, pair.net)?;
    Ok(PairLine {
        pair: *pair,
        was,
        announced,
    })
}

/// Pairs, each with the route of the baseline and the routers that announce the prefix.
fn lines_of_lost<A: Allocator + Copy>(
    alloc: A,
    both: &Comparison<'_, A>,
    announcers: &Announcers<A>,
    pairs: &[Pair],
) -> Result<Vec<PairLine<A>, A>, AllocError>
    requires { announcers.now ≡ announcements (announced_in both.now.baseline) both.now.present }
    ensures { IfOk result (λ lines. lines.items ≡ map (lost_line both.now) pairs.now) }
{
    let mut lines = Vec::new(alloc);
    for pair in pairs {
        lines.push(lost_line(alloc, both, announcers, pair)?)?;
    }
    Ok(lines)
}

/// The answer of `lost`: routers with prefixes that they have no entry for any more, though
/// somebody announces them.
///
/// # Errors
///
/// Memory ran out.
pub fn lost_lines<A: Allocator + Copy>(
    alloc: A,
    both: &Comparison<'_, A>,
) -> Result<Vec<PairLine<A>, A>, AllocError>
    ensures { IfOk result (λ lines. lines.items ≡ lost_lines both.now) }
{
    let announcers = Announcers::of(alloc, both.was_announced(), both.present())?;
    let pairs = both.lost(alloc)?;
    lines_of_lost(alloc, both, &announcers, &pairs)
}

/// Pairs, each with the route of the baseline.
fn lines_of_gone<A: Allocator + Copy>(
    alloc: A,
    both: &Comparison<'_, A>,
    pairs: &[Pair],
) -> Result<Vec<PairLine<A>, A>, AllocError>
    ensures { IfOk result (λ lines. lines.items ≡ map (gone_line both.now) pairs.now) }
{
    let mut lines = Vec::new(alloc);
    for pair in pairs {
        lines.push(gone_line(alloc, both, pair)?)?;
    }
    Ok(lines)
}

/// The answer of `gone`: routers with prefixes that they have no entry for any more, since nobody
/// announces them.
///
/// # Errors
///
/// Memory ran out.
pub fn gone_lines<A: Allocator + Copy>(
    alloc: A,
    both: &Comparison<'_, A>,
) -> Result<Vec<PairLine<A>, A>, AllocError>
    ensures { IfOk result (λ lines. lines.items ≡ gone_lines both.now) }
{
    let pairs = both.gone(alloc)?;
    lines_of_gone(alloc, both, &pairs)
}
