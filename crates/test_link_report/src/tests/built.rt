//! Texts of small networks. These functions have no clauses, so that the prover knows nothing of
//! what they answer, and the tests are proved soon.

use link_report::{
    link_line_at, link_lines, link_numbers, network_lines, push_link, push_link_name, router_lines,
    router_lsa_of_any_age,
};
use lsa_codec::{AreaId, RouterId};
use lsa_differences::difference_lines;
use lsdb::Database;
use network_names::{Names, read_names};
use routing_table::routers;
use std::alloc::Global;
use std::test::*;
use study_arguments::LinkName;
use study_text::push_lines;
use test_support::dump_of_text;

/// The names of six routers.
const HOSTS: &[u8] = b"1.1.1.1 r1 core1
2.2.2.2 r2
3.3.3.3 r3
4.4.4.4 r4
5.5.5.5 r5
6.6.6.6 r6";

/// The names of the routers.
fn names(alloc: Global) -> Result<Names<'static>, Fail> {
    Ok(read_names(alloc, HOSTS)?)
}

/// The database that a text describes.
fn database(alloc: Global, text: &str) -> Result<Database, Fail> {
    Ok(Database::load(alloc, &dump_of_text(alloc, text)?)?)
}

/// The text of bytes that are UTF-8.
fn text_of(bytes: Vec<u8>) -> Result<String, Fail> {
    Ok(String::from_utf8(bytes).map_err(|_| "UTF-8")?)
}

/// The lines of routers.
pub(super) fn routers_text(alloc: Global, text: &str) -> Result<String, Fail> {
    let mut reply = Vec::new(alloc);
    let lines = router_lines(alloc, &database(alloc, text)?)?;
    push_lines(&mut reply, &names(alloc)?, &lines)?;
    text_of(reply)
}

/// The lines of links.
pub(super) fn links_text(alloc: Global, text: &str) -> Result<String, Fail> {
    let mut reply = Vec::new(alloc);
    let database = database(alloc, text)?;
    let lines = link_lines(alloc, &database, &routers(alloc, &database)?)?;
    push_lines(&mut reply, &names(alloc)?, &lines)?;
    text_of(reply)
}

/// The lines of networks.
pub(super) fn networks_text(alloc: Global, text: &str) -> Result<String, Fail> {
    let mut reply = Vec::new(alloc);
    let lines = network_lines(alloc, &database(alloc, text)?)?;
    push_lines(&mut reply, &names(alloc)?, &lines)?;
    text_of(reply)
}

/// The lines of what differs between two databases.
pub(super) fn differences_text(alloc: Global, baseline: &str, now: &str) -> Result<String, Fail> {
    let mut reply = Vec::new(alloc);
    let (baseline, now) = (database(alloc, baseline)?, database(alloc, now)?);
    let lines = difference_lines(alloc, &baseline, &now)?;
    push_lines(&mut reply, &names(alloc)?, &lines)?;
    text_of(reply)
}

/// The name and the description of a link of 1.1.1.1 in the backbone, or a dash.
pub(super) fn link_text(alloc: Global, text: &str, number: u16) -> Result<String, Fail> {
    let database = database(alloc, text)?;
    let line = link_line_at(alloc, &database, AreaId(0), RouterId(0x0101_0101), number)?;
    let mut reply = Vec::new(alloc);
    match line {
        Some(line) => {
            push_link_name(&mut reply, &names(alloc)?, &line)?;
            reply.extend_from_slice(b" = ")?;
            push_link(&mut reply, &names(alloc)?, &line)?;
        }
        None => reply.extend_from_slice(b"-")?,
    }
    text_of(reply)
}

/// The numbers of the links of 1.1.1.1 in the backbone that a word names.
pub(super) fn numbers(alloc: Global, text: &str, name: &LinkName) -> Result<String, Fail> {
    let database = database(alloc, text)?;
    let lsa = router_lsa_of_any_age(&database, AreaId(0), RouterId(0x0101_0101)).ok_or("no LSA")?;
    let numbers = link_numbers(alloc, &lsa, name)?;
    Ok(format!(in alloc; "{numbers:?}")?)
}
