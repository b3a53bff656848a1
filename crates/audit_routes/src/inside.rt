//! The prefixes that some router has a route inside the AS to.

ghost use Rattle.std.specs.Prelude.{◌≡◌, IfOk};
ghost use Rattle.std.specs.List.{flat_map};
ghost use Rattle.lsdb.specs.Slots.{lists_of};
ghost use Rattle.routing_table.specs.Routers.{attached_routers};
ghost use Rattle.audit_routes.specs.Inside.{inside_nets, reached_nets};

use crate::ways::RouterWays;
use link_report::rising;
use lsa_codec::Prefix;
use lsdb::Database;
use routing_table::{KeptTrees, routers};
use std::alloc::{AllocError, Allocator};

/// The prefixes of the intra-area and inter-area routes of the attached routers, router by router.
fn all_inside_nets<A: Allocator + Copy>(
    alloc: A,
    database: &Database<A>,
) -> Result<Vec<Prefix, A>, AllocError>
    ensures { IfOk result (λ nets. nets.items ≡ flat_map (inside_nets (lists_of database.now))
        (attached_routers (lists_of database.now))) }
{
    let attached = routers(alloc, database)?;
    let mut trees = KeptTrees::new(alloc);
    let mut nets = Vec::new(alloc);
    for router in &attached {
        let ways = RouterWays::of(alloc, database, *router, &mut trees)?;
        let mut more = ways.routes().as_routes().nets(alloc)?;
        nets.append(&mut more)?;
    }
    Ok(nets)
}

/// The prefixes that some attached router has an intra-area or inter-area route to, in order.
pub(crate) fn reached_nets<A: Allocator + Copy>(
    alloc: A,
    database: &Database<A>,
) -> Result<Vec<Prefix, A>, AllocError>
    ensures { IfOk result (λ nets. nets.items ≡ reached_nets (lists_of database.now)) }
{
    let nets = all_inside_nets(alloc, database)?;
    rising(alloc, &nets)
}
