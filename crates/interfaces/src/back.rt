//! What an interface and its far ends say of each other: the stub link between them, and the costs
//! and addresses of the far ends.

ghost use Rattle.std.specs.Prelude.{◌≡◌, IfOk};
ghost use Rattle.std.specs.List.{list_any};
ghost use Rattle.std.specs.Ordering.{nat_cmp};
ghost use Rattle.area_graph.specs.Rising.{rising};
ghost use Rattle.interfaces.specs.Interfaces.{has_addr};
ghost use Rattle.interfaces.specs.FarEnds.{is_between, stub_between, costs_back, addrs_of};

use crate::interface::{Interface, has_addr};
use lsa_codec::{Addr, Link};
use std::alloc::{AllocError, Allocator};
use std::collections::BTreeSet;

/// Whether the network of a stub link has the address of one of these interfaces.
fn has_some_addr(stub: Link, ends: &[Interface]) -> bool
    ensures { result ≡ list_any (λ end. has_addr stub end.link.link_data) ends.now }
{
    ends.iter().any(|end| has_addr(stub, end.link.link_data))
}

/// Whether the network of a stub link has the address of an interface or of one of its far ends.
fn is_between(own: Interface, ends: &[Interface], stub: Link) -> bool
    ensures { result ≡ is_between own ends.now stub }
{
    has_addr(stub, own.link.link_data) || has_some_addr(stub, ends)
}

/// The stub link of an interface with these far ends: that which stands right after its link and
/// has the address of the interface or, as a host, of a far end (RFC 2328, 12.4.1.1).
pub fn stub_between(own: Interface, ends: &[Interface]) -> Option<Link>
    ensures { result ≡ stub_between own ends.now }
{
    let stub = own.stub?;
    if is_between(own, ends, stub) {
        Some(stub)
    } else {
        None
    }
}

/// Numbers in rising order, each once.
fn rising<A: Allocator + Copy>(alloc: A, numbers: &[u32]) -> Result<Vec<u32, A>, AllocError>
    ensures { IfOk result (λ found. found.items ≡ rising nat_cmp numbers.now) }
{
    let mut found = BTreeSet::new(alloc);
    for i in (0..numbers.len()).rev() {
        found.insert(numbers[i])?;
    }
    found.into_iter().collect(alloc)
}

/// The costs of far ends, for TOS 0, each once, in rising order: what it costs to send back over
/// the link.
///
/// # Errors
///
/// Memory ran out.
pub fn costs_back<A: Allocator + Copy>(
    alloc: A,
    ends: &[Interface],
) -> Result<Vec<u32, A>, AllocError>
    ensures { IfOk result (λ costs. costs.items ≡ costs_back ends.now) }
{
    let costs: Vec<u32, A> = ends
        .iter()
        .map(|end| u32::from(end.link.metric))
        .collect(alloc)?;
    rising(alloc, &costs)
}

/// The addresses of far ends, each once, in rising order: their Link Data, which is an interface's
/// index where a link is unnumbered (RFC 2328, A.4.2).
///
/// # Errors
///
/// Memory ran out.
pub fn addrs_of<A: Allocator + Copy>(
    alloc: A,
    ends: &[Interface],
) -> Result<Vec<Addr, A>, AllocError>
    ensures { IfOk result (λ addrs. addrs.items ≡ addrs_of ends.now) }
{
    let numbers: Vec<u32, A> = ends.iter().map(|end| end.link.link_data.0).collect(alloc)?;
    let found = rising(alloc, &numbers)?;
    found.iter().map(|number| Addr(*number)).collect(alloc)
}
