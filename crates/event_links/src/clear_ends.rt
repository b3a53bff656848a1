//! Whether the ends of a link are known, where parallel links may look the same.

ghost use Rattle.std.specs.Prelude.{◌≡◌, ◌++◌, IfOk};
ghost use Rattle.lsdb.specs.Slots.{lists_of};
ghost use Rattle.event_links.specs.Interfaces.{ends_of, is_clear, is_only_end};
ghost use Rattle.event_links.specs.Selections.{area_ids};
ghost use Rattle.event_links.specs.Events.{clear_in, clear_everywhere, are_clear};

use crate::interfaces_at::interfaces_at;
use crate::link_end::LinkEnd;
use interfaces::{Interface, far_ends_in};
use lsa_codec::{AreaId, RouterId};
use lsdb::Database;
use std::alloc::{AllocError, Allocator};

/// The interfaces at the other ends of some interfaces of a router in an area.
pub(crate) fn ends_of<A: Allocator + Copy>(
    database: &Database<A>,
    area: AreaId,
    router: RouterId,
    owns: &[Interface],
) -> Result<Vec<Interface, A>, AllocError>
    ensures { IfOk result (λ v. v.items ≡ ends_of (lists_of database.now) area router owns.now) }
{
    let mut found = Vec::new(database.alloc());
    for own in owns {
        let ends = far_ends_in(database.alloc(), database, area, router, *own)?;
        found.extend_from_slice(&ends)?;
    }
    Ok(found)
}

/// Whether there is at most one of these interfaces of the neighbor, and it has at most one far
/// end.
fn is_only_end<A: Allocator + Copy>(
    database: &Database<A>,
    area: AreaId,
    neighbor: RouterId,
    ends: &[Interface],
) -> Result<bool, AllocError>
    ensures { IfOk result (λ only. only
        ≡ is_only_end (lists_of database.now) area neighbor ends.now) }
{
    match ends {
        [] => Ok(true),
        [end] => {
            let back = far_ends_in(database.alloc(), database, area, neighbor, *end)?;
            Ok(back.len() <= 1)
        }
        _ => Ok(false),
    }
}

/// Whether there is at most one of these interfaces of the router, and at most one at its other
/// end.
fn is_clear<A: Allocator + Copy>(
    database: &Database<A>,
    area: AreaId,
    end: LinkEnd,
    owns: &[Interface],
) -> Result<bool, AllocError>
    ensures { IfOk result (λ clear. clear ≡ is_clear (lists_of database.now) area end owns.now) }
{
    match owns {
        [] => Ok(true),
        [own] => {
            let ends = far_ends_in(database.alloc(), database, area, end.router, *own)?;
            is_only_end(database, area, end.neighbor, &ends)
        }
        _ => Ok(false),
    }
}

/// Whether at most one interface is at an end of a link in an area, and at most one at the other.
fn clear_in<A: Allocator + Copy>(
    database: &Database<A>,
    area: AreaId,
    end: LinkEnd,
) -> Result<bool, AllocError>
    ensures { IfOk result (λ clear. clear ≡ clear_in (lists_of database.now) end area) }
{
    let owns = interfaces_at(database, area, end)?;
    is_clear(database, area, end, &owns)
}

/// Whether that is so, in each area.
fn clear_everywhere<A: Allocator + Copy>(
    database: &Database<A>,
    areas: &[AreaId],
    end: LinkEnd,
) -> Result<Vec<bool, A>, AllocError>
    requires { areas.now ≡ area_ids (lists_of database.now) }
    ensures { IfOk result (λ v. v.items ≡ clear_everywhere (lists_of database.now) end) }
{
    let mut found = Vec::new(database.alloc());
    for area in areas {
        let clear = clear_in(database, *area, end)?;
        found.push(clear)?;
    }
    Ok(found)
}

/// Whether that is so in all areas.
pub(crate) fn are_clear<A: Allocator + Copy>(
    database: &Database<A>,
    areas: &[AreaId],
    end: LinkEnd,
) -> Result<bool, AllocError>
    requires { areas.now ≡ area_ids (lists_of database.now) }
    ensures { IfOk result (λ clear. clear ≡ are_clear (lists_of database.now) end) }
{
    let found = clear_everywhere(database, areas, end)?;
    Ok(found.iter().all(|clear| *clear))
}
