//! The failures of each kind.

ghost use Rattle.std.specs.Prelude.{◌≡◌, IfOk};
ghost use Rattle.lsdb.specs.Slots.{lists_of};
ghost use Rattle.sweep_report.specs.Failures.{all_failures, failures};

use crate::links::link_failures;
use crate::networks::network_failures_among;
use crate::routers::router_failures_of;
use edit_script::Edit;
use link_report::network_lines;
use lsa_codec::AreaId;
use lsdb::Database;
use routing_table::routers;
use std::alloc::{AllocError, Allocator};
use study_words::FailureKind;

/// The failures of links, then those of networks, then those of routers.
fn all_failures<A: Allocator + Copy>(
    alloc: A,
    database: &Database<A>,
    within: Option<AreaId>,
) -> Result<Vec<Edit, A>, AllocError>
    ensures { IfOk result
        (λ edits. edits.items ≡ all_failures within (lists_of database.now)) }
{
    let lines = network_lines(alloc, database)?;
    let attached = routers(alloc, database)?;
    let mut networks = network_failures_among(alloc, &lines, within)?;
    let mut routers = router_failures_of(alloc, database, &attached, within)?;
    let mut edits = link_failures(alloc, database, within)?;
    networks.append(&mut routers)?;
    edits.append(&mut networks)?;
    Ok(edits)
}

/// The failures of a kind in a database, each by itself: all, or those within an area.
///
/// - Of links: each point-to-point link that routers use, which has a link back (RFC 2328, 16.1,
///   step 2 (b)), as `links` shows it at the router of the lower Router ID. `cut ROUTER NEIGHBOR`
///   cuts it where it is the only one between the two routers, else `cut ROUTER NEIGHBOR ADDRESS`.
/// - Of networks: each transit network that `networks` shows, `fail-net AREA ADDRESS`.
/// - Of routers: each router with a live router-LSA, `fail ROUTER`.
///
/// # Errors
///
/// Memory ran out.
pub fn failures<A: Allocator + Copy>(
    alloc: A,
    database: &Database<A>,
    kind: FailureKind,
    within: Option<AreaId>,
) -> Result<Vec<Edit, A>, AllocError>
    ensures { IfOk result
        (λ edits. edits.items ≡ failures kind within (lists_of database.now)) }
{
    match kind {
        FailureKind::Links => link_failures(alloc, database, within),
        FailureKind::Networks => {
            let networks = network_lines(alloc, database)?;
            network_failures_among(alloc, &networks, within)
        }
        FailureKind::Routers => {
            let attached = routers(alloc, database)?;
            router_failures_of(alloc, database, &attached, within)
        }
        FailureKind::All => all_failures(alloc, database, within),
    }
}
