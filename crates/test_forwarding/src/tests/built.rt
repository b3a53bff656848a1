//! Forwarding graphs that tests build. These functions have no clauses, so that the prover knows
//! nothing of what they answer, and the tests are proved soon.

use super::texts::push_routers;
use forwarding::{Forwarding, ForwardingGraph};
use lsa_codec::{Addr, RouterId};
use lsdb::Database;
use spf::Meter;
use std::alloc::Global;
use std::test::*;
use test_support::{NETWORK, dump_of_text};

/// A network that tables name.
#[derive(Clone, Copy)]
pub(super) enum Network {
    /// That of a text.
    Text(&'static str),
    /// That which calls are made on.
    TwoAreas,
    /// The same, where the AS-external-LSA of 3.3.3.3 has age MaxAge.
    AtMaxAge,
}

/// The bytes of the network. The function has no clauses, so that the prover knows nothing of them.
pub(super) fn network_bytes() -> &'static [u8] {
    NETWORK
}

/// Where the LS age of the AS-external-LSA of 3.3.3.3 begins in the network.
const AGE_AT: usize = 366;

/// The network, in which that LSA has age MaxAge, 3600 seconds. The checksum does not cover it.
fn network_at_max_age(alloc: Global) -> Result<Vec<u8>, Fail> {
    let mut dump = Vec::from_slice(alloc, network_bytes())?;
    let [high, low] = 3600u16.to_be_bytes();
    *dump.get_mut(AGE_AT).ok_or("the age")? = high;
    *dump.get_mut(AGE_AT + 1).ok_or("the age")? = low;
    Ok(dump)
}

/// The dump of a network.
fn dump_of(alloc: Global, network: Network) -> Result<Vec<u8>, Fail> {
    Ok(match network {
        Network::Text(text) => dump_of_text(alloc, text)?,
        Network::TwoAreas => Vec::from_slice(alloc, network_bytes())?,
        Network::AtMaxAge => network_at_max_age(alloc)?,
    })
}

/// The forwarding graph of an address in the database of a dump.
pub(super) fn graph_of(alloc: Global, dump: &[u8], address: u32) -> Result<ForwardingGraph, Fail> {
    let database = Database::load(alloc, dump)?;
    let forwarding = Forwarding::of(alloc, &database, &mut Meter::new())?;
    Ok(forwarding.graph(alloc, Addr(address))?)
}

/// The same graph of the routers that packets from one pass.
fn graph_from(
    alloc: Global,
    dump: &[u8],
    from: RouterId,
    address: Addr,
) -> Result<ForwardingGraph, Fail> {
    let database = Database::load(alloc, dump)?;
    let (_, graph) = Forwarding::from_router(alloc, &database, from, address, &mut Meter::new())?;
    Ok(graph)
}

/// The database of the network.
pub(super) fn built_database(alloc: Global) -> Result<Database, Fail> {
    Ok(Database::load(alloc, network_bytes())?)
}

/// The routers that packets for an address reach from a router, by the graph of all routers.
pub(super) fn reached(
    alloc: Global,
    network: &str,
    from: u32,
    address: u32,
) -> Result<String, Fail> {
    let graph = graph_of(alloc, &dump_of_text(alloc, network)?, address)?;
    let mut text = String::new(alloc);
    push_routers(alloc, &mut text, &graph.reached(alloc, RouterId(from))?)?;
    Ok(text)
}

/// The routers that packets for an address reach from a router, how they end, and the loops.
pub(super) fn path(
    alloc: Global,
    network: Network,
    from: u32,
    address: u32,
) -> Result<String, Fail> {
    let dump = dump_of(alloc, network)?;
    let graph = graph_from(alloc, &dump, RouterId(from), Addr(address))?;
    let reached = graph.reached(alloc, RouterId(from))?;
    let mut path = String::new(alloc);
    push_routers(alloc, &mut path, &reached)?;
    let ends = graph.ends(&reached);
    for (is_there, word) in [
        (ends.is_delivered, "delivered "),
        (ends.is_external, "external "),
        (ends.is_blackhole, "blackhole "),
    ] {
        if is_there {
            path.push_str(word)?;
        }
    }
    for found in &graph.loops(alloc, &reached)? {
        path.push_str("loop ")?;
        push_routers(alloc, &mut path, found.as_slice())?;
    }
    Ok(path)
}
