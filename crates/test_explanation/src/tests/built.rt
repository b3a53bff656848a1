//! Explanations of routes of small networks. These functions have no clauses, so that the prover
//! knows nothing of what they answer, and the tests are proved soon.

use explanation::{Explanation, push_explanation};
use first_ends::first_ends;
use lsa_codec::{Addr, Prefix, RouterId};
use lsdb::Database;
use network_names::{Names, read_names};
use route_candidates::{RouterView, candidates, targets};
use route_lines::RouteLine;
use spf::Meter;
use std::alloc::Global;
use std::test::*;
use test_support::dump_of_text;

/// The names of four routers.
const HOSTS: &[u8] = b"1.1.1.1 r1
2.2.2.2 r2
3.3.3.3 r3
4.4.4.4 r4";

/// The router that is asked for: 1.1.1.1.
const ROUTER: RouterId = RouterId(0x0101_0101);

/// The names of the routers.
fn names(alloc: Global) -> Result<Names<'static>, Fail> {
    Ok(read_names(alloc, HOSTS)?)
}

/// The database that a text describes.
fn database(alloc: Global, text: &str) -> Result<Database, Fail> {
    Ok(Database::load(alloc, &dump_of_text(alloc, text)?)?)
}

/// The prefix of an address and a length.
fn prefix(addr: u32, len: u8) -> Result<Prefix, Fail> {
    Ok(Prefix::new(Addr(addr), len).ok_or("no prefix")?)
}

/// The lines that explain a route of 1.1.1.1, without the route itself.
pub(super) fn explained(alloc: Global, text: &str, addr: u32, len: u8) -> Result<String, Fail> {
    let database = database(alloc, text)?;
    let view = RouterView::of(alloc, &database, ROUTER, &mut Meter::new())?;
    let none: Option<RouteLine> = None;
    let found = Explanation::of(alloc, &view, prefix(addr, len)?, none)?;
    let mut lines = Vec::new(alloc);
    push_explanation(&mut lines, &names(alloc)?, &found)?;
    Ok(String::from_utf8(lines).map_err(|_| "UTF-8")?)
}

/// The neighbors over an interface of 1.1.1.1 to which its route leads.
pub(super) fn ends(
    alloc: Global,
    text: &str,
    addr: u32,
    len: u8,
    interface: u32,
) -> Result<String, Fail> {
    let database = database(alloc, text)?;
    let view = RouterView::of(alloc, &database, ROUTER, &mut Meter::new())?;
    let found = candidates(alloc, &view, prefix(addr, len)?)?;
    let targets = targets(alloc, &view, &found)?;
    let ends = first_ends(alloc, &view, &targets, Addr(interface))?;
    Ok(format!(in alloc; "{ends:?}")?)
}
