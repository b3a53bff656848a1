//! The far ends of point-to-point links.

ghost use Rattle.std.specs.Prelude.{◌≡◌, IfOk, filter};
ghost use Rattle.lsa_codec.specs.Making.{leads_to};
ghost use Rattle.lsdb.specs.Slots.{lists_of};
ghost use Rattle.interfaces.specs.FarEnds.{faces, face_each_other, links_back, far_ends, far_ends_in};

use crate::interface::{Interface, has_addr};
use crate::router_lsa::interfaces_in;
use lsa_codec::{AreaId, LinkKind, RouterId};
use lsdb::Database;
use std::alloc::{AllocError, Allocator};

/// Whether an interface has a point-to-point link to this router.
fn leads_to(interface: Interface, router: RouterId) -> bool
    ensures { result ≡ leads_to router interface.link }
{
    matches!(interface.link.kind, LinkKind::PointToPoint) && interface.link.id.0 == router.0
}

/// Whether the stub link of one interface has the address of the other.
fn faces(one: Interface, other: Interface) -> bool
    ensures { result ≡ faces one other }
{
    match one.stub {
        Some(stub) => has_addr(stub, other.link.link_data),
        None => false,
    }
}

/// Whether two interfaces are known as the ends of one link.
fn face_each_other(one: Interface, other: Interface) -> bool
    ensures { result ≡ face_each_other one other }
{
    faces(one, other) || faces(other, one)
}

/// The interfaces with a point-to-point link to a router, in their order.
fn links_back<A: Allocator + Copy>(
    alloc: A,
    router: RouterId,
    theirs: &[Interface],
) -> Result<Vec<Interface, A>, AllocError>
    ensures { IfOk result (λ back. back.items ≡ links_back router theirs.now) }
{
    theirs
        .iter()
        .copied()
        .filter(|interface| leads_to(*interface, router))
        .collect(alloc)
}

/// The interfaces that face another one, in their order.
fn facing<A: Allocator + Copy>(
    alloc: A,
    own: Interface,
    theirs: &[Interface],
) -> Result<Vec<Interface, A>, AllocError>
    ensures { IfOk result (λ facing. facing.items ≡ filter (face_each_other own) theirs.now) }
{
    theirs
        .iter()
        .copied()
        .filter(|interface| face_each_other(own, *interface))
        .collect(alloc)
}

/// The far ends of an interface of `router` among the interfaces of its neighbor, in their order:
/// the links back to the router and, where the stub link of one of these or of the interface has
/// the address of the other, only such. So there are none where the link is not point-to-point or
/// has no link back, and there may be several where parallel links are unnumbered.
///
/// An unnumbered link has the interface's index as its address (RFC 2328, A.4.2). A stub link
/// that has it by chance counts as one that has the address.
///
/// # Errors
///
/// Memory ran out.
pub fn far_ends<A: Allocator + Copy>(
    alloc: A,
    router: RouterId,
    own: Interface,
    neighbor: &[Interface],
) -> Result<Vec<Interface, A>, AllocError>
    ensures { IfOk result (λ ends. ends.items ≡ far_ends router own neighbor.now) }
{
    if !matches!(own.link.kind, LinkKind::PointToPoint) {
        return Ok(Vec::new(alloc));
    }
    let back = links_back(alloc, router, neighbor)?;
    let facing = facing(alloc, own, &back)?;
    if facing.is_empty() {
        Ok(back)
    } else {
        Ok(facing)
    }
}

/// The far ends of an interface of `router` in an area, among the interfaces of the router that
/// its Link ID names. Whoever asks for several interfaces to one neighbor calls [`interfaces_in`]
/// for it once, and [`far_ends`] for each.
///
/// # Errors
///
/// Memory ran out.
pub fn far_ends_in<A: Allocator + Copy>(
    alloc: A,
    database: &Database<A>,
    area: AreaId,
    router: RouterId,
    own: Interface,
) -> Result<Vec<Interface, A>, AllocError>
    ensures { IfOk result (λ ends. ends.items
        ≡ far_ends_in (lists_of database.now) area router own) }
{
    let neighbor = interfaces_in(alloc, database, area, RouterId(own.link.id.0))?;
    far_ends(alloc, router, own, &neighbor)
}
