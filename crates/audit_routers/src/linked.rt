//! Linked routers, and border routers.

ghost use Rattle.std.specs.Prelude.{◌≡◌, IfOk, filter};
ghost use Rattle.lsdb.specs.Slots.{lists_of};
ghost use Rattle.audit_areas.specs.Areas.{audited_areas};
ghost use Rattle.routing_table.specs.Routers.{attached_routers};
ghost use Rattle.audit_routers.specs.Linked.{border_routers, has_role, linked_routers};

use crate::router_list::RouterList;
use audit_areas::{AuditedArea, audited_areas, is_border, is_linked};
use lsa_codec::RouterId;
use lsdb::Database;
use routing_table::routers;
use std::alloc::{AllocError, Allocator};

/// What a router is.
#[derive(Clone, Copy, Debug, PartialEq, Eq)]
enum Role {
    /// It has an edge in some area.
    Linked,
    /// It is linked, and attached to several areas.
    Border,
}

impl Role {
    /// Whether a router has the role, where these are the areas of the database.
    fn is_of<A: Allocator + Copy>(self, areas: &[AuditedArea<'_, A>], router: RouterId) -> bool
        ensures { result ≡ has_role self areas.now router }
    {
        match self {
            Role::Linked => is_linked(areas, router),
            Role::Border => is_border(areas, router),
        }
    }

    /// Those of some routers that have the role.
    fn among<A: Allocator + Copy>(
        self,
        alloc: A,
        areas: &[AuditedArea<'_, A>],
        routers: &[RouterId],
    ) -> Result<Vec<RouterId, A>, AllocError>
        ensures { IfOk result
            (λ found. found.items ≡ filter (has_role self areas.now) routers.now) }
    {
        routers
            .iter()
            .copied()
            .filter(|router| self.is_of(areas, *router))
            .collect(alloc)
    }

    /// The routers of a database that have the role, in rising order.
    fn routers<A: Allocator + Copy>(
        self,
        alloc: A,
        database: &Database<A>,
    ) -> Result<RouterList<A>, AllocError>
        ensures { IfOk result (λ found. found
            ≡ filter (has_role self (audited_areas (lists_of database.now)))
            (attached_routers (lists_of database.now))) }
    {
        let areas = audited_areas(alloc, database)?;
        let attached = routers(alloc, database)?;
        let found = self.among(alloc, &areas, &attached)?;
        Ok(RouterList::in_order(found))
    }
}

/// The linked routers, in rising order: those with an edge in some area (RFC 2328, 16.1), over a
/// link whose other end links back.
///
/// # Errors
///
/// Memory ran out.
pub fn linked_routers<A: Allocator + Copy>(
    alloc: A,
    database: &Database<A>,
) -> Result<RouterList<A>, AllocError>
    ensures { IfOk result (λ routers. routers ≡ linked_routers (lists_of database.now)) }
{
    Role::Linked.routers(alloc, database)
}

/// The border routers, in rising order: those that are linked and attached to several areas (RFC
/// 2328, 3.3).
///
/// # Errors
///
/// Memory ran out.
pub fn border_routers<A: Allocator + Copy>(
    alloc: A,
    database: &Database<A>,
) -> Result<RouterList<A>, AllocError>
    ensures { IfOk result (λ routers. routers ≡ border_routers (lists_of database.now)) }
{
    Role::Border.routers(alloc, database)
}
