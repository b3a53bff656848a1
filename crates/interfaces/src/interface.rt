//! Interfaces, link by link.

ghost use Rattle.std.specs.Prelude.{◌≡◌, IfOk};
ghost use Rattle.interfaces.specs.Interfaces.{has_addr, is_host, is_stub_of, stub_after, interfaces_from, interfaces_of};

use lsa_codec::{Addr, Link, LinkKind, RouterView};
use std::alloc::{AllocError, Allocator};

/// A link of a router-LSA, with the stub link of its interface.
#[derive(Clone, Copy, Debug, PartialEq, Eq)]
pub struct Interface {
    /// The link.
    pub link: Link,
    /// Where the link is of type 1, the stub link right after it, if that has the network of the
    /// interface's address, the Link Data, or is one for a host. A host is the router at the other
    /// end (RFC 2328, 12.4.1.1, option 1), or, after an unnumbered link, any other, as a loopback
    /// address of the router itself.
    pub stub: Option<Link>,
}

/// Whether the network of a stub link has an address: the address agrees with the Link ID in the
/// bits of the mask. Other links have no network.
pub(crate) fn has_addr(stub: Link, addr: Addr) -> bool
    ensures { result ≡ has_addr stub addr }
{
    let mask = stub.link_data.0;
    stub.kind.is_stub() && addr.0 & mask == stub.id.0 & mask
}

/// Whether a link is a stub link for one host.
fn is_host(stub: Link) -> bool
    ensures { result ≡ is_host stub }
{
    stub.kind.is_stub() && stub.link_data.0 == u32::MAX
}

/// Whether a link that stands right after another is the stub link of its interface.
fn is_stub_of(link: Link, stub: Link) -> bool
    ensures { result ≡ is_stub_of link stub }
{
    matches!(link.kind, LinkKind::PointToPoint) && (has_addr(stub, link.link_data) || is_host(stub))
}

/// The stub link of a link's interface, where the links after it begin with that.
fn stub_after(link: Link, after: &[Link]) -> Option<Link>
    ensures { result ≡ stub_after link after.now }
{
    let next = *after.first()?;
    if is_stub_of(link, next) {
        Some(next)
    } else {
        None
    }
}

/// The interfaces of a list of links.
fn interfaces_from<A: Allocator + Copy>(
    alloc: A,
    links: &[Link],
) -> Result<Vec<Interface, A>, AllocError>
    ensures { IfOk result (λ found. found.items ≡ interfaces_from links.now) }
{
    let mut found = Vec::with_capacity(alloc, links.len())?;
    for i in 0..links.len() {
        let link = links[i];
        let stub = stub_after(link, &links[i + 1..]);
        found.push(Interface { link, stub })?;
    }
    Ok(found)
}

/// The interfaces that a router-LSA describes: one for each link, in the order of the links.
///
/// # Errors
///
/// Memory ran out.
pub fn interfaces_of<A: Allocator + Copy>(
    alloc: A,
    lsa: &RouterView<'_>,
) -> Result<Vec<Interface, A>, AllocError>
    ensures { IfOk result (λ found. found.items ≡ interfaces_of lsa.now) }
{
    let links: Vec<Link, A> = lsa.links().collect(alloc)?;
    interfaces_from(alloc, &links)
}
