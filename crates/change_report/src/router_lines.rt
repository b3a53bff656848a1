//! What differs for one router, with its routes of now and of before.

ghost use Rattle.std.specs.Prelude.{◌≡◌, ◌∷◌, [], map, IfOk};
ghost use Rattle.lsdb.specs.Slots.{lists_of};
ghost use Rattle.comparison.specs.Named.{changes_for};
ghost use Rattle.change_report.specs.Lines.{lines_of_changes, route_for};
ghost use Rattle.change_report.specs.steps.RouterLines.{router_line};

use crate::lines::route_by;
use change_lines::{ChangeLine, ChangeName, Changes};
use comparison::{RouterBasis, RouterComparison};
use lsa_codec::{Prefix, RouterId};
use lsdb::Database;
use route_lines::RouteLine;
use spf::Meter;
use std::alloc::{AllocError, Allocator};

/// What the router uses for a prefix, where it is attached and has an entry, and there is a prefix.
fn route_in<A: Allocator + Copy>(
    alloc: A,
    basis: &RouterBasis<'_, A>,
    net: Option<Prefix>,
) -> Result<Option<RouteLine<A>>, AllocError>
    ensures { IfOk result (λ line. line ≡ route_for basis.now.db basis.now.router net) }
{
    match net {
        Some(net) => route_by(alloc, basis.database(), basis.graphs(), basis.routes(), net),
        None => Ok(None),
    }
}

/// Changes of the router, each with its route of now and the one before.
fn router_lines<A: Allocator + Copy>(
    alloc: A,
    one: &RouterComparison<'_, A>,
    names: &[ChangeName],
) -> Result<Vec<ChangeLine<A>, A>, AllocError>
    ensures { IfOk result (λ lines. lines.items ≡ map (router_line one.now) names.now) }
{
    let mut lines = Vec::new(alloc);
    for name in names {
        let now = route_in(alloc, one.present(), name.net)?;
        let was = route_in(alloc, one.baseline(), name.net)?;
        let name = *name;
        lines.push(ChangeLine { name, now, was })?;
    }
    Ok(lines)
}

/// The answer of `changes` for one router: what differs, and the same with the routes of now and
/// before. Of all tables only those of this router are calculated: the meter counts their trees.
///
/// # Errors
///
/// Memory ran out.
pub fn router_changes<A: Allocator + Copy>(
    alloc: A,
    baseline: &Database<A>,
    present: &Database<A>,
    router: RouterId,
    meter: &mut Meter,
) -> Result<(Changes<A>, Vec<ChangeLine<A>, A>), AllocError>
    ensures changes { IfOk result (λ found. found.0
        ≡ changes_for (record { baseline = lists_of baseline.now; present = lists_of present.now })
        (router ∷ [])) }
    ensures lines { IfOk result (λ found. found.1.items ≡ lines_of_changes
        (record { baseline = lists_of baseline.now; present = lists_of present.now })
        found.0.names) }
{
    let one = RouterComparison::of(alloc, baseline, present, router, meter)?;
    let changes = one.changes(alloc)?;
    let lines = router_lines(alloc, &one, &changes.names)?;
    Ok((changes, lines))
}
