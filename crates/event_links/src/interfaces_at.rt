//! The interfaces of a router, chosen by neighbor or by address.

ghost use Rattle.std.specs.Prelude.{◌≡◌, IfOk, filter};
ghost use Rattle.lsa_codec.specs.Making.{leads_to};
ghost use Rattle.lsdb.specs.Slots.{lists_of};
ghost use Rattle.event_links.specs.Interfaces.{interfaces_to, interfaces_at, has_own_addr};

use crate::link_end::LinkEnd;
use interfaces::{Interface, interfaces_in};
use lsa_codec::{Addr, AreaId, LinkKind, RouterId};
use lsdb::Database;
use std::alloc::{AllocError, Allocator};

/// Whether an interface has a point-to-point link to this router.
fn leads_to(own: Interface, neighbor: RouterId) -> bool
    ensures { result ≡ leads_to neighbor own.link }
{
    matches!(own.link.kind, LinkKind::PointToPoint) && own.link.id.0 == neighbor.0
}

/// Whether the link of an interface is one to a router or to a transit network, and has this
/// address, or this index where it is unnumbered.
fn has_own_addr(own: Interface, address: Addr) -> bool
    ensures { result ≡ has_own_addr address own }
{
    own.link.kind.has_cost() && own.link.link_data.0 == address.0
}

/// The interfaces of a router to a neighbor, in an area: those with a point-to-point link to it.
pub(crate) fn interfaces_to<A: Allocator + Copy>(
    database: &Database<A>,
    area: AreaId,
    router: RouterId,
    neighbor: RouterId,
) -> Result<Vec<Interface, A>, AllocError>
    ensures { IfOk result (λ v. v.items
        ≡ interfaces_to (lists_of database.now) area router neighbor) }
{
    let owns = interfaces_in(database.alloc(), database, area, router)?;
    owns.iter()
        .copied()
        .filter(|own| leads_to(*own, neighbor))
        .collect(database.alloc())
}

/// Those of some interfaces that lead to a router or to a transit network and have this address, or
/// this index where they are unnumbered.
pub(crate) fn with_own_addr<A: Allocator + Copy>(
    alloc: A,
    owns: &[Interface],
    address: Addr,
) -> Result<Vec<Interface, A>, AllocError>
    ensures { IfOk result (λ v. v.items ≡ filter (has_own_addr address) owns.now) }
{
    owns.iter()
        .copied()
        .filter(|own| has_own_addr(*own, address))
        .collect(alloc)
}

/// The interfaces at one end of a link, in an area.
pub(crate) fn interfaces_at<A: Allocator + Copy>(
    database: &Database<A>,
    area: AreaId,
    end: LinkEnd,
) -> Result<Vec<Interface, A>, AllocError>
    ensures { IfOk result (λ v. v.items ≡ interfaces_at (lists_of database.now) area end) }
{
    let owns = interfaces_to(database, area, end.router, end.neighbor)?;
    with_own_addr(database.alloc(), &owns, end.address)
}
