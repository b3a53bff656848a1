//! The body of a router-LSA (RFC 2328, A.4.2) as it is printed, and its bytes.

ghost use Rattle.std.specs.Prelude.{◌≡◌, ◌++◌, IfOk, option_map};
ghost use Rattle.std.specs.List.{flat_map};
ghost use Rattle.frr_text.specs.Words.{words};
ghost use Rattle.frr_text.specs.Rules.{times};
ghost use Rattle.frr_text.specs.Bodies.{link_code, link_label, link_id_label, data_label, link_as, link_in, link_bytes, router_in};

use crate::label::{Label, address_after, after_label, number_after};
use std::alloc::{AllocError, Allocator};

/// The type of a link.
#[derive(Clone, Copy)]
pub enum LinkType {
    /// Type 1: to another router, over a point-to-point link.
    PointToPoint,
    /// Type 2: to a transit network.
    Transit,
    /// Type 3: to a stub network.
    Stub,
    /// Type 4: to another router, over a virtual link.
    Virtual,
}

/// A link without metrics for other TOS.
#[derive(Clone, Copy)]
pub struct Link {
    /// What it leads to.
    pub link_type: LinkType,
    /// Link ID.
    pub id: u32,
    /// Link Data.
    pub link_data: u32,
    /// The metric for TOS 0.
    pub metric: u16,
}

/// The types of links, in rising order.
const LINK_TYPES: &[LinkType] = &[
    LinkType::PointToPoint,
    LinkType::Transit,
    LinkType::Stub,
    LinkType::Virtual,
];

impl LinkType {
    /// The number of the type.
    fn code(self) -> u8
        ensures { result ≡ link_code self }
    {
        match self {
            LinkType::PointToPoint => 1,
            LinkType::Transit => 2,
            LinkType::Stub => 3,
            LinkType::Virtual => 4,
        }
    }

    /// What is printed as the type.
    fn label(self) -> Label
        ensures { result ≡ link_label self }
    {
        match self {
            LinkType::PointToPoint => Label::ToRouter,
            LinkType::Transit => Label::ToTransit,
            LinkType::Stub => Label::ToStub,
            LinkType::Virtual => Label::ToVirtual,
        }
    }

    /// What is printed before the Link ID.
    fn id_label(self) -> Label
        ensures { result ≡ link_id_label self }
    {
        match self {
            LinkType::PointToPoint | LinkType::Virtual => Label::NeighborId,
            LinkType::Transit => Label::DesignatedId,
            LinkType::Stub => Label::NetId,
        }
    }

    /// What is printed before the Link Data.
    fn data_label(self) -> Label
        ensures { result ≡ data_label self }
    {
        match self {
            LinkType::PointToPoint | LinkType::Transit | LinkType::Virtual => Label::InterfaceData,
            LinkType::Stub => Label::MaskData,
        }
    }
}

/// A link of this type, and what follows it.
#[tactic(auto, unfolding(crate::specs::Bodies::link_as))]
fn link_as(link_type: LinkType, text: &[u8]) -> Option<(Link, &[u8])>
    ensures { option_map (λ found. (found.0, words found.1.now)) result
        ≡ link_as link_type (words text.now) }
{
    let rest = after_label(link_type.label(), text)?;
    let (id, rest) = address_after(link_type.id_label(), rest)?;
    let (link_data, rest) = address_after(link_type.data_label(), rest)?;
    let (metric, rest) = number_after(0xffff, Label::LinkMetric, rest)?;
    let link = Link {
        link_type,
        id,
        link_data,
        metric: metric as u16,
    };
    Some((link, rest))
}

/// A link, and what follows it.
fn link_in(text: &[u8]) -> Option<(Link, &[u8])>
    ensures { option_map (λ found. (found.0, words found.1.now)) result
        ≡ link_in (words text.now) }
{
    for link_type in LINK_TYPES {
        if let Some((link, rest)) = link_as(*link_type, text) {
            return Some((link, rest));
        }
    }
    None
}

/// The bytes of a link.
pub fn link_bytes(link: Link) -> [u8; 12]
    ensures { result ≡ link_bytes link }
{
    let [i0, i1, i2, i3] = link.id.to_be_bytes();
    let [d0, d1, d2, d3] = link.link_data.to_be_bytes();
    let [m0, m1] = link.metric.to_be_bytes();
    let code = link.link_type.code();
    [i0, i1, i2, i3, d0, d1, d2, d3, code, 0, m0, m1]
}

/// These bytes, and after them those of the links that stand here, of this number.
fn with_links<A: Allocator + Copy>(
    mut bytes: Vec<u8, A>,
    count: u16,
    text: &[u8],
) -> Result<Option<Vec<u8, A>>, AllocError>
    ensures { IfOk result (λ made. option_map (λ all. all.items) made
        ≡ option_map (λ links. bytes.items ++ flat_map link_bytes links)
        (times link_in count (words text.now))) }
{
    let mut rest = text;
    'links: for _read in 0..count {
        let Some((link, after)) = link_in(rest) else {
            return Ok(None);
        };
        bytes.extend_from_slice(&link_bytes(link))?;
        rest = after;
    }
    Ok(Some(bytes))
}

/// The bytes after the header of a router-LSA with this byte of the bits V, E and B.
#[tactic(auto, unfolding(crate::specs::Bodies::router_in))]
pub(crate) fn router_in<A: Allocator + Copy>(
    alloc: A,
    flags: Option<u8>,
    text: &[u8],
) -> Result<Option<Vec<u8, A>>, AllocError>
    ensures { IfOk result (λ body. option_map (λ bytes. bytes.items) body
        ≡ router_in flags (words text.now)) }
{
    let Some(bits) = flags else {
        return Ok(None);
    };
    let Some((number, rest)) = number_after(0xffff, Label::LinkCount, text) else {
        return Ok(None);
    };
    let count = number as u16;
    let [n0, n1] = count.to_be_bytes();
    let bytes = Vec::from_slice(alloc, &[bits, 0, n0, n1])?;
    with_links(bytes, count, rest)
}
