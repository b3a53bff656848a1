//! Links of router-LSAs that differ.

ghost use Rattle.std.specs.Prelude.{◌≡◌, ◌++◌, IfOk, OnOk, map};
ghost use Rattle.std.specs.List.{find, position};
ghost use Rattle.lsa_changes.specs.declared.link.LinkChange.TheVariants.{Gone};
ghost use Rattle.lsa_changes.specs.Links.{change_from, is_link, is_same_link, link_changes, numbered_links, type_of_link, without_first};

use link_report::links_of;
use lsa_codec::{Link, LinkKind, RouterView};
use std::alloc::{AllocError, Allocator};

/// A link of a router-LSA with its number there.
#[derive(Clone, Copy, Debug, PartialEq, Eq)]
pub struct NumberedLink {
    /// The number, counted from 1.
    pub number: usize,
    /// The link.
    pub link: Link,
}

/// A link that came, went or has another cost.
#[derive(Clone, Copy, Debug, PartialEq, Eq)]
pub enum LinkChange {
    /// The link, as it is now, has another cost than this one before.
    Cost(NumberedLink, u16),
    /// The link is new.
    New(NumberedLink),
    /// The link, as it was before, is gone.
    Gone(NumberedLink),
}

/// The type of a link, as the LSA has it (RFC 2328, A.4.2).
fn type_of_link(kind: LinkKind) -> u8
    ensures { result ≡ type_of_link kind }
{
    match kind {
        LinkKind::PointToPoint => 1,
        LinkKind::Transit => 2,
        LinkKind::Stub => 3,
        LinkKind::Virtual => 4,
        LinkKind::Other(code) => code,
    }
}

/// Whether two links have the same type, Link ID and Link Data.
fn is_same_link(one: Link, other: Link) -> bool
    ensures { result ≡ is_same_link one other }
{
    type_of_link(one.kind) == type_of_link(other.kind)
        && one.id.0 == other.id.0
        && one.link_data.0 == other.link_data.0
}

/// The links of a router-LSA with their numbers.
fn numbered_links<A: Allocator + Copy>(
    alloc: A,
    lsa: &RouterView<'_>,
) -> Result<Vec<NumberedLink, A>, AllocError>
    ensures { IfOk result (λ numbered. numbered.items ≡ numbered_links lsa.now) }
{
    let links = links_of(alloc, lsa)?;
    let mut numbered = Vec::new(alloc);
    for i in 0..links.len() {
        let number = i + 1;
        let link = links[i];
        numbered.push(NumberedLink { number, link })?;
    }
    Ok(numbered)
}

/// The place of the first of some links that is the same as this one, if there is any.
fn place_of(links: &[NumberedLink], link: Link) -> Option<usize>
    ensures { result ≡ position (is_link link) links.now }
{
    links
        .iter()
        .position(|other| is_same_link(link, other.link))
}

/// Takes the first of some links that is the same as this one, if there is any.
fn take_first<A: Allocator + Copy>(
    links: &mut Vec<NumberedLink, A>,
    link: Link,
) -> Option<NumberedLink>
    ensures first { result ≡ find (is_link link) links.old.items }
    ensures others { links.new.items ≡ without_first (is_link link) links.old.items }
{
    let place = place_of(links, link)?;
    Some(links.remove(place))
}

/// Adds how a link differs from the one before, if it does.
fn push_link<A: Allocator + Copy>(
    changes: &mut Vec<LinkChange, A>,
    link: NumberedLink,
    before: Option<NumberedLink>,
) -> Result<(), AllocError>
    ensures { OnOk result (changes.new.items ≡ changes.old.items ++ change_from link before) }
{
    match before {
        None => changes.push(LinkChange::New(link))?,
        Some(before) => {
            if before.link.metric != link.link.metric {
                changes.push(LinkChange::Cost(link, before.link.metric))?;
            }
        }
    }
    Ok(())
}

/// Adds links that are gone.
fn push_gone<A: Allocator + Copy>(
    changes: &mut Vec<LinkChange, A>,
    links: &[NumberedLink],
) -> Result<(), AllocError>
    ensures { OnOk result (changes.new.items ≡ changes.old.items ++ map Gone links.now) }
{
    for link in links {
        changes.push(LinkChange::Gone(*link))?;
    }
    Ok(())
}

/// How the links of a router-LSA differ from those before: by their numbers now those that have
/// another cost or are new, and then, by their numbers before, those that are gone. A link is the
/// first one before of the same type, Link ID and Link Data that no link of now is yet.
///
/// It takes time in proportion to the product of the numbers of links, and where the links are the
/// same in the same order, in proportion to their number.
pub(crate) fn link_changes<A: Allocator + Copy>(
    alloc: A,
    before: &RouterView<'_>,
    now: &RouterView<'_>,
) -> Result<Vec<LinkChange, A>, AllocError>
    ensures { IfOk result (λ changes. changes.items
        ≡ link_changes (numbered_links before.now) (numbered_links now.now)) }
{
    let mut left = numbered_links(alloc, before)?;
    let links = numbered_links(alloc, now)?;
    let mut changes = Vec::new(alloc);
    for link in &links {
        let same = take_first(&mut left, link.link);
        push_link(&mut changes, *link, same)?;
    }
    push_gone(&mut changes, &left)?;
    Ok(changes)
}
