//! The body of a router-LSA (RFC 2328, A.4.2) in JSON.

ghost use Rattle.std.specs.Prelude.{◌≡◌, ◌++◌, IfOk, option_map};
ghost use Rattle.json.specs.Value.{value_view, members_view};
ghost use Rattle.frr_json.specs.Bodies.{link_type_named, id_name, data_name, link_in, link_bytes_in, bytes_of_each, router_in};

use crate::member::{address_at, members_at, number_at, text_at};
use frr_text::fields::{Link, LinkType, link_bytes};
use json::Value;
use std::alloc::{AllocError, Allocator};

/// The type of a link.
fn link_type_named(name: &str) -> Option<LinkType>
    ensures { result ≡ link_type_named name.now }
{
    if name == "another Router (point-to-point)" {
        return Some(LinkType::PointToPoint);
    }
    if name == "a Transit Network" {
        return Some(LinkType::Transit);
    }
    if name == "Stub Network" {
        return Some(LinkType::Stub);
    }
    if name == "a Virtual Link" {
        return Some(LinkType::Virtual);
    }
    None
}

/// The name of the Link ID.
fn id_name(link_type: LinkType) -> &'static str
    ensures { result.now ≡ id_name link_type }
{
    match link_type {
        LinkType::PointToPoint | LinkType::Virtual => "neighborRouterId",
        LinkType::Transit => "designatedRouterAddress",
        LinkType::Stub => "networkAddress",
    }
}

/// The name of the Link Data.
fn data_name(link_type: LinkType) -> &'static str
    ensures { result.now ≡ data_name link_type }
{
    match link_type {
        LinkType::PointToPoint | LinkType::Transit | LinkType::Virtual => "routerInterfaceAddress",
        LinkType::Stub => "networkMask",
    }
}

/// A link.
#[tactic(auto, unfolding(crate::specs::Bodies::link_in))]
fn link_in<A: Allocator>(json: &Value<'_, A>) -> Option<Link>
    ensures { result ≡ link_in (value_view json.now) }
{
    let name = text_at("linkType", json)?;
    let link_type = link_type_named(name)?;
    let id = address_at(id_name(link_type), json)?;
    let link_data = address_at(data_name(link_type), json)?;
    let metric = number_at(0xffff, "tos0Metric", json)?;
    Some(Link {
        link_type,
        id,
        link_data,
        metric: metric as u16,
    })
}

/// These bytes, and after them those of the links that these members are.
fn with_links<'a, A: Allocator + Copy>(
    mut bytes: Vec<u8, A>,
    members: &[(&'a str, Value<'a, A>)],
) -> Result<Option<Vec<u8, A>>, AllocError>
    ensures { IfOk result (λ made. option_map (λ all. all.items) made
        ≡ option_map (λ links. bytes.items ++ links)
        (bytes_of_each link_bytes_in (members_view members.now))) }
{
    'links: for member in members {
        let Some(link) = link_in(&member.1) else {
            return Ok(None);
        };
        bytes.extend_from_slice(&link_bytes(link))?;
    }
    Ok(Some(bytes))
}

/// The bytes after the header of a router-LSA with this byte of the bits V, E and B.
#[tactic(auto, unfolding(crate::specs::Bodies::router_in))]
pub(crate) fn router_in<A: Allocator + Copy>(
    alloc: A,
    flags: Option<u8>,
    json: &Value<'_, A>,
) -> Result<Option<Vec<u8, A>>, AllocError>
    ensures { IfOk result (λ body. option_map (λ bytes. bytes.items) body
        ≡ router_in flags (value_view json.now)) }
{
    let Some(bits) = flags else {
        return Ok(None);
    };
    let Some(count) = number_at(0xffff, "numOfLinks", json) else {
        return Ok(None);
    };
    let Some(links) = members_at("routerLinks", json) else {
        return Ok(None);
    };
    let [n0, n1] = (count as u16).to_be_bytes();
    let bytes = Vec::from_slice(alloc, &[bits, 0, n0, n1])?;
    with_links(bytes, links)
}
