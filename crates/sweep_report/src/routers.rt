//! Routers, each of which fails alone.

ghost use Rattle.std.specs.Prelude.{◌≡◌, IfOk};
ghost use Rattle.lsdb.specs.Slots.{lists_of};
ghost use Rattle.sweep_report.specs.Failures.{is_in, router_failure, router_failures_of};

use area_routes::is_attached;
use edit_script::{Edit, Event};
use lsa_codec::{AreaId, RouterId};
use lsdb::Database;
use std::alloc::{AllocError, Allocator};

/// The failure of a router.
fn router_failure(router: RouterId) -> Edit
    ensures { result ≡ router_failure router }
{
    Edit::Event(Event::Fail { router })
}

/// Whether a router is attached to the area that is named; each is where none is.
fn is_in<A: Allocator + Copy>(
    database: &Database<A>,
    within: Option<AreaId>,
    router: RouterId,
) -> bool
    ensures { result ≡ is_in (lists_of database.now) within router }
{
    match within {
        Some(area) => is_attached(database, area, router),
        None => true,
    }
}

/// The failures of those of some routers that are within an area.
///
/// # Errors
///
/// Memory ran out.
pub(crate) fn router_failures_of<A: Allocator + Copy>(
    alloc: A,
    database: &Database<A>,
    attached: &[RouterId],
    within: Option<AreaId>,
) -> Result<Vec<Edit, A>, AllocError>
    ensures { IfOk result (λ edits. edits.items
        ≡ router_failures_of (lists_of database.now) within attached.now) }
{
    attached
        .iter()
        .copied()
        .filter(|router| is_in(database, within, *router))
        .map(|router| router_failure(router))
        .collect(alloc)
}
