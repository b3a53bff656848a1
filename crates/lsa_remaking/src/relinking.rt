//! Router-LSAs by what becomes of their links.

ghost use Rattle.std.specs.Prelude.{◌≡◌, ◌+◌, ◌≤◌, ◌<◌, ◌^◌, ◌++◌, length, take, IfOk, IfErr, OnOk, Ok, true};
ghost use Rattle.std.specs.List.{All, flat_map};
ghost use Rattle.lsa_codec.specs.declared.link.Link.{Link};
ghost use Rattle.lsa_codec.specs.Links.{link_length};
ghost use Rattle.lsa_codec.specs.Making.{link_text};
ghost use Rattle.lsa_remaking.specs.Making.{IsRemakeFaultOf};
ghost use Rattle.lsa_remaking.specs.Relinking.{is_left, stub_text, changed_text, count_left, changed_body, relinked, relinking, IsWithin};

use crate::fault::RemakeFault;
use crate::link_change::{ChangedLink, LinkChange};
use crate::making::{remake, with_field};
use lsa_codec::{Addr, Link, Lsa};
use std::alloc::{AllocError, Allocator};

/// The bytes of a link, with its TOS metrics.
fn link_text(lsa: &[u8], link: Link) -> &[u8]
    requires { link.offset + link_length link.offset lsa.now ≤ length lsa.now }
    ensures text { result.now ≡ link_text lsa.now link }
    ensures size { 12 ≤ length result.now }
{
    let size = 12 + 4 * usize::from(lsa[link.offset + 9]);
    &lsa[link.offset..link.offset + size]
}

/// The bytes of a stub link (RFC 2328, A.4.2).
fn stub_text<A: Allocator + Copy>(
    alloc: A,
    number: Addr,
    mask: u32,
    metric: u16,
) -> Result<Vec<u8, A>, AllocError>
    ensures { IfOk result (λ v. v.items ≡ stub_text number mask metric) }
{
    let mut text = Vec::from_slice(alloc, &number.0.to_be_bytes())?;
    text.extend_from_slice(&mask.to_be_bytes())?;
    text.extend_from_slice(&[3, 0])?;
    text.extend_from_slice(&metric.to_be_bytes())?;
    Ok(text)
}

/// The bytes in place of a link.
fn changed_text<A: Allocator + Copy>(
    alloc: A,
    lsa: &[u8],
    changed: ChangedLink,
) -> Result<Vec<u8, A>, AllocError>
    requires { IsWithin lsa.now changed }
    ensures { IfOk result (λ v. v.items ≡ changed_text lsa.now changed) }
{
    let own = link_text(lsa, changed.link);
    match changed.change {
        LinkChange::Stays => Vec::from_slice(alloc, own),
        LinkChange::Removed => Ok(Vec::new(alloc)),
        LinkChange::Costs(metric) => with_field(alloc, own, 10, &metric.to_be_bytes()),
        LinkChange::LeadsTo(id) => with_field(alloc, own, 0, &id.0.to_be_bytes()),
        LinkChange::StubOf(number, mask) => stub_text(alloc, number, mask, changed.link.metric),
    }
}

/// The bytes before the links, and then those in place of the links.
fn changed_body<A: Allocator + Copy>(
    alloc: A,
    lsa: &[u8],
    links: &[ChangedLink],
) -> Result<Vec<u8, A>, AllocError>
    requires header { 24 ≤ length lsa.now }
    requires links { All (IsWithin lsa.now) links.now }
    ensures { IfOk result (λ v. v.items ≡ changed_body links.now lsa.now) }
{
    let mut body = Vec::from_slice(alloc, &lsa[..24])?;
    for changed in links {
        let text = changed_text(alloc, lsa, *changed)?;
        body.extend_from_slice(&text)?;
    }
    Ok(body)
}

/// Whether a link is there afterwards.
fn is_left(changed: &ChangedLink) -> bool
    ensures { result ≡ is_left changed.now.change }
{
    !matches!(changed.change, LinkChange::Removed)
}

/// How many of the links are there afterwards.
pub fn count_left(links: &[ChangedLink]) -> usize
    ensures { result ≡ count_left links.now }
{
    links.iter().filter(|changed| is_left(changed)).count()
}

/// The router-LSA with these of its links, each as it is changed, and in this order. The links that
/// are not among them are removed; the bytes before the links stay, but for the number of links,
/// the length and the checksum. The links are those of the LSA.
///
/// # Errors
///
/// `TooLong`, then `Rejected` by the first fault of the new LSA; `OutOfMemory` before or after.
#[tactic(auto, using(crate::proofs::Bodies::long_body, crate::proofs::Bodies::few_left))]
pub fn relink<A: Allocator + Copy>(
    alloc: A,
    lsa: &Lsa<A>,
    links: &[ChangedLink],
) -> Result<Lsa<A>, RemakeFault>
    requires header { 24 ≤ length lsa.now }
    requires links { All (IsWithin lsa.now) links.now }
    requires few { length links.now < 2 ^ 16 }
    ensures made { IfOk result (λ new. new ≡ relinked links.now lsa.now) }
    ensures fault { IfErr result (λ fault. IsRemakeFaultOf fault (relinking links.now lsa.now)) }
{
    let body = changed_body(alloc, lsa.bytes(), links)?;
    let count = count_left(links) as u16;
    let counted = with_field(alloc, &body, 22, &count.to_be_bytes())?;
    remake(alloc, &counted)
}
