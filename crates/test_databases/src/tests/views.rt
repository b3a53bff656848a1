//! The fields of LSAs, as their views return them. The checksums were made by another program from
//! the formula of RFC 905, annex B.

use super::samples::{ASBR_SUMMARY, EXTERNAL_WITH_TOS, SUMMARY};
use lsa_codec::{
    Addr, ExternalView, Key, Link, Lsa, NetworkView, RouterId, RouterView, SummaryView,
};
use std::alloc::Global;
use std::test::*;

/// Router 1.1.1.1 with a point-to-point link to 2.2.2.2 of cost 10, and router 2.2.2.2 with the
/// link back and a stub link to 10.2.0.0/16 of cost 5.
const TWO_ROUTERS: &[u8] = &[
    0x00, 0x01, 0x02, 0x01, 0x01, 0x01, 0x01, 0x01, 0x01, 0x01, 0x01, 0x01, 0x80, 0x00, 0x00, 0x01,
    0xd5, 0x5a, 0x00, 0x24, 0x00, 0x00, 0x00, 0x01, 0x02, 0x02, 0x02, 0x02, 0x0a, 0x00, 0x00, 0x01,
    0x01, 0x00, 0x00, 0x0a, 0x00, 0x01, 0x02, 0x01, 0x02, 0x02, 0x02, 0x02, 0x02, 0x02, 0x02, 0x02,
    0x80, 0x00, 0x00, 0x01, 0x62, 0xa7, 0x00, 0x30, 0x00, 0x00, 0x00, 0x02, 0x01, 0x01, 0x01, 0x01,
    0x0a, 0x00, 0x00, 0x02, 0x01, 0x00, 0x00, 0x0a, 0x0a, 0x02, 0x00, 0x00, 0xff, 0xff, 0x00, 0x00,
    0x03, 0x00, 0x00, 0x05,
];

/// A router-LSA with links of all types: the first has two TOS metrics and the third has one, the
/// fourth is virtual and the fifth of an unknown type. The bits V, E and B are set.
const ALL_LINKS: &[u8] = &[
    0x00, 0x01, 0x02, 0x01, 0x01, 0x01, 0x01, 0x01, 0x01, 0x01, 0x01, 0x01, 0x80, 0x00, 0x00, 0x01,
    0x24, 0xe9, 0x00, 0x60, 0x07, 0x00, 0x00, 0x05, 0x02, 0x02, 0x02, 0x02, 0x0a, 0x00, 0x00, 0x01,
    0x01, 0x02, 0x00, 0x0a, 0x08, 0x00, 0x00, 0x14, 0x10, 0x00, 0x00, 0x1e, 0x0a, 0x05, 0x00, 0x03,
    0x0a, 0x05, 0x00, 0x01, 0x02, 0x00, 0x00, 0x07, 0x0a, 0x02, 0x00, 0x00, 0xff, 0xff, 0x00, 0x00,
    0x03, 0x01, 0x00, 0x05, 0x08, 0x00, 0x00, 0x09, 0x03, 0x03, 0x03, 0x03, 0x0a, 0x00, 0x00, 0x09,
    0x04, 0x00, 0x00, 0x00, 0x04, 0x04, 0x04, 0x04, 0x00, 0x00, 0x00, 0x01, 0x09, 0x00, 0x00, 0x00,
];

/// A router-LSA without links.
const NO_LINKS: &[u8] = &[
    0x00, 0x01, 0x02, 0x01, 0x01, 0x01, 0x01, 0x01, 0x01, 0x01, 0x01, 0x01, 0x80, 0x00, 0x00, 0x01,
    0x33, 0x28, 0x00, 0x18, 0x00, 0x00, 0x00, 0x00,
];

/// A network-LSA of 10.5.0.3 with mask 255.255.0.0 and three attached routers.
const NETWORK: &[u8] = &[
    0x00, 0x01, 0x02, 0x02, 0x0a, 0x05, 0x00, 0x03, 0x03, 0x03, 0x03, 0x03, 0x80, 0x00, 0x00, 0x01,
    0x14, 0x04, 0x00, 0x24, 0xff, 0xff, 0x00, 0x00, 0x01, 0x01, 0x01, 0x01, 0x03, 0x03, 0x03, 0x03,
    0x04, 0x04, 0x04, 0x04,
];

/// The same without attached routers.
const NO_ROUTERS: &[u8] = &[
    0x00, 0x01, 0x02, 0x02, 0x0a, 0x05, 0x00, 0x03, 0x03, 0x03, 0x03, 0x03, 0x80, 0x00, 0x00, 0x01,
    0x3a, 0x0a, 0x00, 0x18, 0xff, 0xff, 0x00, 0x00,
];

/// A summary-LSA of the host 10.8.0.1.
const HOST_SUMMARY: &[u8] = &[
    0x00, 0x01, 0x02, 0x03, 0x0a, 0x08, 0x00, 0x01, 0x02, 0x02, 0x02, 0x02, 0x80, 0x00, 0x00, 0x01,
    0x88, 0xb2, 0x00, 0x1c, 0xff, 0xff, 0xff, 0xff, 0x00, 0x00, 0x00, 0x07,
];

/// An AS-external-LSA of 10.9.0.0/16 with metric 20 of type 2.
const EXTERNAL: &[u8] = &[
    0x00, 0x01, 0x02, 0x05, 0x0a, 0x09, 0x00, 0x00, 0x02, 0x02, 0x02, 0x02, 0x80, 0x00, 0x00, 0x01,
    0x80, 0x23, 0x00, 0x24, 0xff, 0xff, 0x00, 0x00, 0x80, 0x00, 0x00, 0x14, 0x00, 0x00, 0x00, 0x00,
    0x00, 0x00, 0x00, 0x00,
];

/// An AS-external-LSA of the default route.
const DEFAULT: &[u8] = &[
    0x00, 0x01, 0x02, 0x05, 0x00, 0x00, 0x00, 0x00, 0x02, 0x02, 0x02, 0x02, 0x80, 0x00, 0x00, 0x01,
    0xb0, 0x19, 0x00, 0x24, 0x00, 0x00, 0x00, 0x00, 0x80, 0x00, 0x00, 0x01, 0x00, 0x00, 0x00, 0x00,
    0x00, 0x00, 0x00, 0x00,
];

/// An LSA of type 7.
const NSSA: &[u8] = &[
    0x00, 0x01, 0x02, 0x07, 0x0a, 0x09, 0x00, 0x00, 0x02, 0x02, 0x02, 0x02, 0x80, 0x00, 0x00, 0x01,
    0x64, 0x3d, 0x00, 0x24, 0xff, 0xff, 0x00, 0x00, 0x80, 0x00, 0x00, 0x14, 0x00, 0x00, 0x00, 0x00,
    0x00, 0x00, 0x00, 0x00,
];

/// An opaque LSA of type 9.
const OPAQUE: &[u8] = &[
    0x00, 0x01, 0x02, 0x09, 0x04, 0x00, 0x00, 0x01, 0x02, 0x02, 0x02, 0x02, 0x80, 0x00, 0x00, 0x01,
    0x8c, 0xc5, 0x00, 0x14,
];

/// A link: its kind, Link ID, Link Data, metric and offset, and the prefix of a stub link.
fn link_text(alloc: Global, link: Link) -> Result<String, Fail> {
    let (id, data, kind) = (link.id, link.link_data, link.kind);
    let (metric, offset) = (link.metric, link.offset);
    Ok(match link.net() {
        Some(net) => format!(in alloc; ", {kind:?} {id} {data} {metric} at {offset} to {net}")?,
        None => format!(in alloc; ", {kind:?} {id} {data} {metric} at {offset}")?,
    })
}

/// A router-LSA: its flags, the number of its links, and the links.
fn router_text(alloc: Global, view: RouterView<'_>) -> Result<String, Fail> {
    let (flags, count) = (view.flags(), view.link_count());
    let mut text = format!(in alloc; "router {flags} {count}")?;
    for link in view.links() {
        text.push_str(&link_text(alloc, link)?)?;
    }
    Ok(text)
}

/// A network-LSA: its mask, its prefix, and the attached routers.
fn network_text(alloc: Global, view: NetworkView<'_>) -> Result<String, Fail> {
    let (mask, net) = (Addr(view.mask()), view.net());
    let mut text = format!(in alloc; "network {mask} {net}")?;
    for router in view.attached() {
        text.push_str(&format!(in alloc; ", {router}")?)?;
    }
    Ok(text)
}

/// A summary-LSA: its mask, metric and prefix.
fn summary_text(alloc: Global, view: SummaryView<'_>) -> Result<String, Fail> {
    let (mask, metric) = (Addr(view.mask()), view.metric());
    Ok(match view.net() {
        Some(net) => format!(in alloc; "summary {mask} {metric} {net}")?,
        None => format!(in alloc; "summary {mask} {metric}")?,
    })
}

/// An AS-external-LSA: its mask, prefix, type and metric, forwarding address and tag.
fn external_text(alloc: Global, view: ExternalView<'_>) -> Result<String, Fail> {
    let (mask, net, type2) = (Addr(view.mask()), view.net(), view.is_type2());
    let (metric, forward, tag) = (view.metric(), view.forward(), view.tag());
    Ok(format!(in alloc; "external {mask} {net} type2={type2} {metric} {forward} {tag}")?)
}

/// What the view of an LSA returns; an LSA of another type has none.
fn view_text(alloc: Global, bytes: &[u8]) -> Result<String, Fail> {
    let (lsa, _) = Lsa::decode(alloc, bytes)?;
    if let Some(view) = lsa.router() {
        return router_text(alloc, view);
    }
    if let Some(view) = lsa.network() {
        return network_text(alloc, view);
    }
    if let Some(view) = lsa.summary() {
        return summary_text(alloc, view);
    }
    if let Some(view) = lsa.external() {
        return external_text(alloc, view);
    }
    Ok(format!(in alloc; "none")?)
}

/// LSAs, and what their views return.
const VIEWS: &[(&[u8], &str)] = &[
    (
        TWO_ROUTERS,
        "router 0 1, PointToPoint 2.2.2.2 10.0.0.1 10 at 24",
    ),
    (
        ALL_LINKS,
        "router 7 5, PointToPoint 2.2.2.2 10.0.0.1 10 at 24, Transit 10.5.0.3 10.5.0.1 7 at 44, \
        Stub 10.2.0.0 255.255.0.0 5 at 56 to 10.2.0.0/16, Virtual 3.3.3.3 10.0.0.9 0 at 72, \
        Other(9) 4.4.4.4 0.0.0.1 0 at 84",
    ),
    (NO_LINKS, "router 0 0"),
    (
        NETWORK,
        "network 255.255.0.0 10.5.0.0/16, 1.1.1.1, 3.3.3.3, 4.4.4.4",
    ),
    (NO_ROUTERS, "network 255.255.0.0 10.5.0.0/16"),
    (SUMMARY, "summary 255.255.0.0 7 10.8.0.0/16"),
    (HOST_SUMMARY, "summary 255.255.255.255 7 10.8.0.1/32"),
    (ASBR_SUMMARY, "summary 18.52.86.120 7"),
    (
        EXTERNAL,
        "external 255.255.0.0 10.9.0.0/16 type2=true 20 0.0.0.0 0",
    ),
    (
        EXTERNAL_WITH_TOS,
        "external 255.255.0.0 10.9.0.0/16 type2=false 20 10.5.0.1 99",
    ),
    (DEFAULT, "external 0.0.0.0 0.0.0.0/0 type2=true 1 0.0.0.0 0"),
    (NSSA, "none"),
    (OPAQUE, "none"),
];

#[test]
fn reads_the_fields_of_each_type(rt: HostRuntime) -> Result<(), Fail> {
    for (bytes, text) in VIEWS {
        assert_eq!(rt; view_text(rt.alloc(), bytes)?.as_str(), *text);
    }
    Ok(())
}

#[test]
fn decodes_the_lsa_at_the_front(rt: HostRuntime) -> Result<(), Fail> {
    let (lsa, size) = Lsa::decode(rt.alloc(), TWO_ROUTERS)?;
    assert_eq!(rt; size, 36);
    assert_eq!(rt; Some(lsa.bytes()), TWO_ROUTERS.get(..36));
    let key = Key {
        kind: 1,
        id: Addr(0x01010101),
        adv: RouterId(0x01010101),
    };
    assert_eq!(rt; lsa.key(), key);
    assert!(rt; !lsa.at_max_age());
    Ok(())
}

#[test]
fn numbers_links_from_1(rt: HostRuntime) -> Result<(), Fail> {
    let (lsa, _) = Lsa::decode(rt.alloc(), &TWO_ROUTERS[36..])?;
    let view = lsa.router().ok_or("a router-LSA")?;
    assert!(rt; view.link_numbered(0).is_none());
    let stub = view.link_numbered(2).ok_or("a link")?;
    assert_eq!(rt;
        link_text(rt.alloc(), stub)?.as_str(),
        ", Stub 10.2.0.0 255.255.0.0 5 at 36 to 10.2.0.0/16"
    );
    assert!(rt; view.link_numbered(3).is_none());
    Ok(())
}
