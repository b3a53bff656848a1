//! Texts of values. These functions have no clauses, so that the prover knows nothing of what they
//! answer, and the tests are proved soon.

use link_report::{link_lines, network_lines, router_lines};
use lsa_codec::{Addr, AreaId, Prefix, RouterId};
use lsdb::Database;
use network_names::{Names, read_names};
use route_lines::{OwnSource, RouteSource};
use routing_table::routers;
use std::alloc::Global;
use std::test::*;
use study_documents::push_listing;
use study_json::{Document, NamedRouter};
use study_words::RouteKind;
use test_support::dump_of_text;

/// The names of two routers.
const HOSTS: &[u8] = b"1.1.1.1 r1 core1
2.2.2.2 r2";

/// The database that a text describes.
fn database(alloc: Global, text: &str) -> Result<Database, Fail> {
    Ok(Database::load(alloc, &dump_of_text(alloc, text)?)?)
}

/// The text of bytes that are UTF-8.
pub(super) fn text_of(bytes: Vec<u8>) -> Result<String, Fail> {
    Ok(String::from_utf8(bytes).map_err(|_| "UTF-8")?)
}

/// The text of a value.
pub(super) fn json_of<T: Document>(alloc: Global, value: &T) -> Result<String, Fail> {
    let mut text = Vec::new(alloc);
    value.push_json(&mut text)?;
    text_of(text)
}

/// The prefix 10.N.0.0/16.
pub(super) fn net(number: u8) -> Result<Prefix, Fail> {
    let address = Addr(0x0a00_0000 | u32::from(number) << 16);
    Ok(Prefix::new(address, 16).ok_or("a prefix")?)
}

/// The router N.N.N.N.
pub(super) fn router(number: u8) -> RouterId {
    RouterId(u32::from(number) * 0x0101_0101)
}

/// Where a route of a table comes from.
pub(super) fn source(kind: RouteKind, cost: u64, metric: u32) -> RouteSource {
    RouteSource {
        kind,
        metric,
        cost,
        own: None,
    }
}

/// Where an external prefix of the router itself comes from.
pub(super) fn own_source(is_type2: bool, metric: u32, forward: Addr) -> RouteSource {
    RouteSource {
        kind: RouteKind::Own,
        metric: 0,
        cost: 0,
        own: Some(OwnSource {
            is_type2,
            metric,
            forward,
        }),
    }
}

/// The reply to `routers`.
pub(super) fn routers_text(alloc: Global, text: &str) -> Result<String, Fail> {
    let names: Names<'_> = read_names(alloc, HOSTS)?;
    let lines = router_lines(alloc, &database(alloc, text)?)?;
    let mut named = Vec::new(alloc);
    for line in &lines {
        let name = names.name_of(line.router);
        named.push(NamedRouter { line, name })?;
    }
    let mut reply = Vec::new(alloc);
    push_listing(&mut reply, "routers", &named)?;
    text_of(reply)
}

/// The reply to `links`.
pub(super) fn links_text(alloc: Global, text: &str) -> Result<String, Fail> {
    let database = database(alloc, text)?;
    let lines = link_lines(alloc, &database, &routers(alloc, &database)?)?;
    let mut reply = Vec::new(alloc);
    push_listing(&mut reply, "links", &lines)?;
    text_of(reply)
}

/// The reply to `networks`.
pub(super) fn networks_text(alloc: Global, text: &str) -> Result<String, Fail> {
    let lines = network_lines(alloc, &database(alloc, text)?)?;
    let mut reply = Vec::new(alloc);
    push_listing(&mut reply, "networks", &lines)?;
    text_of(reply)
}

/// The backbone.
pub(super) const BACKBONE: Option<AreaId> = Some(AreaId(0));
