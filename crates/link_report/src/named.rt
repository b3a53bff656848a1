//! The links that a word of an edit names.

ghost use Rattle.std.specs.Prelude.{◌≡◌, [], ◌∷◌, ◌++◌, if◌then◌else◌, IfOk, OnOk};
ghost use Rattle.link_report.specs.NamedLinks.{has_address, is_named, leads_to_router, link_numbers};

use crate::lists::links_of;
use lsa_codec::{Addr, Link, LinkKind, RouterView};
use std::alloc::{AllocError, Allocator};
use study_arguments::LinkName;

/// Whether a link of type 1, 2 or 4 has this Link Data.
fn has_address(link: Link, address: Addr) -> bool
    ensures { result ≡ has_address address link }
{
    let has_data = matches!(
        link.kind,
        LinkKind::PointToPoint | LinkKind::Transit | LinkKind::Virtual
    );
    has_data && link.link_data.0 == address.0
}

/// Whether a link of type 1 or 4 leads to the router with this Router ID.
fn leads_to_router(link: Link, router: Addr) -> bool
    ensures { result ≡ leads_to_router router link }
{
    matches!(link.kind, LinkKind::PointToPoint | LinkKind::Virtual) && link.id.0 == router.0
}

/// Whether a word names a link with this number.
fn is_named(name: &LinkName, number: u16, link: Link) -> bool
    ensures { result ≡ is_named name.now number link }
{
    match *name {
        LinkName::Number(named) => named == number,
        LinkName::Address(address) => has_address(link, address) || leads_to_router(link, address),
        LinkName::Prefix(prefix) => link.net() == Some(prefix),
    }
}

/// Adds the number of a link, if a word names the link.
fn push_named<A: Allocator + Copy>(
    numbers: &mut Vec<u16, A>,
    name: &LinkName,
    number: u16,
    link: Link,
) -> Result<(), AllocError>
    ensures { OnOk result (numbers.new.items
        ≡ numbers.old.items ++ (if is_named name.now number link then number ∷ [] else [])) }
{
    if is_named(name, number, link) {
        numbers.push(number)?;
    }
    Ok(())
}

/// The numbers of the links of a router-LSA that a word names, in rising order, counted from 1: the
/// link with this number; the links of type 1, 2 or 4 with this Link Data, and those of type 1 or 4
/// to this router; the links to this stub network.
///
/// # Errors
///
/// Memory ran out.
pub fn link_numbers<A: Allocator + Copy>(
    alloc: A,
    lsa: &RouterView<'_>,
    name: &LinkName,
) -> Result<Vec<u16, A>, AllocError>
    ensures { IfOk result (λ numbers. numbers.items ≡ link_numbers name.now lsa.now) }
{
    let links = links_of(alloc, lsa)?;
    let mut numbers = Vec::new(alloc);
    for place in 0..lsa.link_count() {
        push_named(&mut numbers, name, place + 1, links[usize::from(place)])?;
    }
    Ok(numbers)
}
