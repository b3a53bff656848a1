//! Calls that take no memory and answer nothing that could report want of it.

ghost use Rattle.std.specs.Prelude.{◌≤◌};

use super::hops::of_hops;
use super::network::{database_of, network};
use super::texts::{graph_text, tree_text};
use crate::tests::built::graph_of;
use area_graph::{Graph, Vertex};
use lsa_codec::{Addr, AreaId, Lsa, Prefix, RouterId, is_mask, len_of_mask, mask_of_len};
use lsdb::{Database, Section};
use spf::{Meter, Tree};
use std::alloc::Global;
use std::test::*;
use test_support::{FailingAlloc, R1, R2};

/// What is read.
#[derive(Clone, Copy, Debug)]
enum Call {
    Database,
    Lsas,
    Graph,
    Tree,
    Hops,
    Masks,
}

const CALLS: &[Call] = &[
    Call::Database,
    Call::Lsas,
    Call::Graph,
    Call::Tree,
    Call::Hops,
    Call::Masks,
];

/// The sections of the network, and one that it lacks.
const SECTIONS: &[Section] = &[
    Section::Area(AreaId(0)),
    Section::Area(AreaId(1)),
    Section::AsWide,
    Section::Area(AreaId(7)),
];

/// Adds a section: its number, how many LSAs it has, and whether each is found by its key.
fn push_section(
    text: &mut String,
    database: &Database<&FailingAlloc>,
    section: Section,
) -> Result<(), Fail> {
    let (index, count) = (database.index_of(section), database.count(section));
    write!(text, " {index:?} {count}")?;
    for lsa in database.lsas(section) {
        let key = lsa.key();
        let place = database.find(section, key).ok_or("a place")?;
        let size = database.get(place).map(|lsa| lsa.bytes().len());
        write!(text, " {key:?} {size:?}")?;
    }
    Ok(())
}

/// Adds the LSAs of a section by their numbers in it.
fn push_numbered(
    text: &mut String,
    database: &Database<&FailingAlloc>,
    section: Section,
) -> Result<(), Fail> {
    for index in 0..database.count(section) {
        let key = database.lsa(section, index).key();
        write!(text, " {index} {key:?}")?;
    }
    Ok(())
}

/// What a database has, by its readers.
fn database_text(alloc: Global, database: &Database<&FailingAlloc>) -> Result<String, Fail> {
    let size = database.size();
    let mut text = format!(in alloc; "{size}")?;
    for index in 0..database.area_count() {
        let area = database.area(index);
        write!(text, " {area:?}")?;
    }
    for section in SECTIONS {
        push_section(&mut text, database, *section)?;
        push_numbered(&mut text, database, *section)?;
    }
    Ok(text)
}

/// Adds what the view of a router-LSA shows.
fn push_router(text: &mut String, lsa: &Lsa<&FailingAlloc>) -> Result<(), Fail> {
    let Some(view) = lsa.router() else {
        return Ok(());
    };
    let (flags, count) = (view.flags(), view.link_count());
    write!(text, " {flags} {count}")?;
    for link in view.links() {
        write!(text, " {link:?}")?;
    }
    Ok(())
}

/// Adds what the view of a network-LSA shows.
fn push_network(text: &mut String, lsa: &Lsa<&FailingAlloc>) -> Result<(), Fail> {
    let Some(view) = lsa.network() else {
        return Ok(());
    };
    let (net, mask) = (view.net(), view.mask());
    write!(text, " {net:?} {mask}")?;
    for router in view.attached() {
        write!(text, " {router:?}")?;
    }
    Ok(())
}

/// Adds what the views of other LSAs show.
fn push_others(text: &mut String, lsa: &Lsa<&FailingAlloc>) -> Result<(), Fail> {
    if let Some(view) = lsa.summary() {
        let (net, metric) = (view.net(), view.metric());
        write!(text, " {net:?} {metric}")?;
    }
    if let Some(view) = lsa.external() {
        let (net, metric, kind) = (view.net(), view.metric(), view.is_type2());
        let (forward, tag) = (view.forward(), view.tag());
        write!(text, " {net:?} {metric} {kind} {forward:?} {tag}")?;
    }
    Ok(())
}

/// What LSAs show, by their readers.
fn lsas_text(alloc: Global, database: &Database<&FailingAlloc>) -> Result<String, Fail> {
    let mut text = String::new(alloc);
    for section in SECTIONS {
        for lsa in database.lsas(*section) {
            push_lsa(&mut text, lsa)?;
        }
    }
    Ok(text)
}

/// Adds what an LSA shows.
fn push_lsa(text: &mut String, lsa: &Lsa<&FailingAlloc>) -> Result<(), Fail> {
    let (key, old) = (lsa.key(), lsa.at_max_age());
    write!(text, " {key:?} {old}")?;
    push_router(text, lsa)?;
    push_network(text, lsa)?;
    push_others(text, lsa)
}

/// The database and its LSAs are read while this number of growths are left.
fn read_database(
    alloc: Global,
    failing: &FailingAlloc,
    call: Call,
    growths: u64,
) -> Result<String, Fail> {
    let database = database_of(failing)?;
    failing.set_remaining(growths);
    match call {
        Call::Lsas => lsas_text(alloc, &database),
        _ => database_text(alloc, &database),
    }
}

/// Adds which vertices of a graph are networks.
fn push_networks(text: &mut String, graph: &Graph<&FailingAlloc>) -> Result<(), Fail> {
    for index in 0..graph.len() {
        let is_network = graph.is_network(index);
        write!(text, " {is_network}")?;
    }
    Ok(())
}

/// Adds the number of a router in a graph, if it has one.
fn push_number(text: &mut String, graph: &Graph<&FailingAlloc>, router: u32) -> Result<(), Fail> {
    let number = graph.index_of(Vertex::Router(RouterId(router)));
    write!(text, " {number:?}")?;
    Ok(())
}

/// What a graph has, which vertices are networks, and the numbers of two routers.
fn numbered_text(alloc: Global, graph: &Graph<&FailingAlloc>) -> Result<String, Fail> {
    let mut text = graph_text(alloc, graph)?;
    push_networks(&mut text, graph)?;
    push_number(&mut text, graph, R2)?;
    push_number(&mut text, graph, 0)?;
    Ok(text)
}

/// The tree of a graph is read, or its hops, while this number of growths are left.
fn read_tree<'a>(
    alloc: Global,
    failing: &'a FailingAlloc,
    graph: &Graph<&'a FailingAlloc>,
    call: Call,
    growths: u64,
) -> Result<String, Fail> {
    let tree = Tree::build(failing, graph, RouterId(R1), &mut Meter::new())?;
    if let Call::Hops = call {
        let text = of_hops(alloc, failing, graph, &tree, growths)?;
        return Ok(text.ok_or("hops")?);
    }
    failing.set_remaining(growths);
    tree_text(alloc, &tree)
}

/// A graph is read while this number of growths are left.
fn read_vertices(
    alloc: Global,
    failing: &FailingAlloc,
    graph: &Graph<&FailingAlloc>,
    growths: u64,
) -> Result<String, Fail> {
    failing.set_remaining(growths);
    numbered_text(alloc, graph)
}

/// The graph of the network is read, or what is made of it, while this number of growths are left.
fn read_graph(
    alloc: Global,
    failing: &FailingAlloc,
    call: Call,
    growths: u64,
) -> Result<String, Fail> {
    let graph = graph_of(failing, network())?;
    match call {
        Call::Graph => read_vertices(alloc, failing, &graph, growths),
        _ => read_tree(alloc, failing, &graph, call, growths),
    }
}

/// What is answered for a length, and for numbers under its mask.
fn push_mask(text: &mut String, len: u8) -> Result<(), Fail>
    requires { len ≤ 32 }
{
    let mask = mask_of_len(len);
    let (back, gap) = (len_of_mask(mask), is_mask(mask ^ 1));
    let prefix = Prefix::masked(Addr(R1), len);
    let (whole, again) = (Prefix::new(Addr(R1), len), prefix.mask());
    write!(text, " {mask} {back} {gap} {prefix:?} {whole:?} {again}")?;
    Ok(())
}

/// What is answered for masks and prefixes while this number of growths are left. These calls get
/// no allocator.
fn read_masks(alloc: Global, failing: &FailingAlloc, growths: u64) -> Result<String, Fail> {
    failing.set_remaining(growths);
    let mut text = String::new(alloc);
    for len in 0..33 {
        push_mask(&mut text, len)?;
    }
    Ok(text)
}

/// What is read while this number of growths are left.
fn read(alloc: Global, failing: &FailingAlloc, call: Call, growths: u64) -> Result<String, Fail> {
    match call {
        Call::Database | Call::Lsas => read_database(alloc, failing, call, growths),
        Call::Graph | Call::Tree | Call::Hops => read_graph(alloc, failing, call, growths),
        Call::Masks => read_masks(alloc, failing, growths),
    }
}

/// The same. It is a failure if a growth was asked for.
fn read_with(alloc: Global, call: Call, growths: u64) -> Result<String, Fail> {
    let failing = FailingAlloc::new(alloc, u64::MAX);
    let text = read(alloc, &failing, call, growths)?;
    if failing.remaining() == growths {
        Ok(text)
    } else {
        Err("no growth")?
    }
}

#[test]
fn readers_take_no_memory(rt: HostRuntime) -> Result<(), Fail> {
    for call in CALLS {
        let ample = read_with(rt.alloc(), *call, 1_000)?;
        let refused = read_with(rt.alloc(), *call, 0)?;
        assert!(rt; !ample.is_empty(), "{call:?}");
        assert_eq!(rt; refused, ample, "{call:?}");
    }
    Ok(())
}
