//! The entry of an AS boundary router of another area, by a summary-LSA of type 4.

use super::texts::hops_text;
use area_routes::{EntryKind, RouterEntry, inter, intra};
use lsa_codec::RouterId;
use lsdb::Database;
use routing_table::KeptTrees;
use spf::Meter;
use std::alloc::Global;
use std::test::*;
use test_support::{R1, dump_of_text};

/// Two areas of 1.1.1.1, each with another area border router. 2.2.2.2 reaches 5.5.5.5 at 4.
const TWO_AREAS: &str = "\
area 0.0.0.0
router 1.1.1.1 flags=1: point-to-point 2.2.2.2 data=10.0.0.1 cost=10
router 2.2.2.2 flags=1: point-to-point 1.1.1.1 data=10.0.0.2 cost=10
summary 10.20.0.0/16 by=2.2.2.2 cost=20
summary 10.21.0.0/16 by=2.2.2.2 cost=16777215
summary 10.22.0.0/16 by=1.1.1.1 cost=3
asbr-summary 5.5.5.5 by=2.2.2.2 cost=4
area 0.0.0.1
router 1.1.1.1 flags=1: point-to-point 3.3.3.3 data=10.1.0.1 cost=1
router 3.3.3.3 flags=1: point-to-point 1.1.1.1 data=10.1.0.3 cost=1
summary 10.20.0.0/16 by=3.3.3.3 cost=1";

/// The AS boundary router.
const R5: RouterId = RouterId(0x0505_0505);

/// The entries of the AS boundary router: whether each is by a summary-LSA, its area, cost and next
/// hops.
fn entries_text(alloc: Global, entries: &[RouterEntry]) -> Result<String, Fail> {
    let mut text = String::new(alloc);
    for entry in entries {
        if entry.router == R5 {
            let is_summarized = entry.kind == EntryKind::AsbrInter;
            let (area, cost) = (entry.area, entry.cost);
            let hops = hops_text(alloc, entry.hops.as_slice())?;
            write!(text, "{is_summarized} {area} {cost}{hops};")?;
        }
    }
    Ok(text)
}

/// The same of the entries of 1.1.1.1 in a database.
fn entries_in(alloc: Global, database: &Database) -> Result<String, Fail> {
    let router = RouterId(R1);
    let mut trees = KeptTrees::new(alloc);
    trees.add_graphs(alloc, database)?;
    let results = trees.results_of(alloc, database, router, &mut Meter::new())?;
    let intra = intra(alloc, &results)?;
    let found = inter(alloc, database, router, &results, &intra)?;
    entries_text(alloc, found.routers.as_slice())
}

/// The same of the entries in a dump.
fn entries_of(alloc: Global, dump: &[u8]) -> Result<String, Fail> {
    let database = Database::load(alloc, dump)?;
    entries_in(alloc, &database)
}

#[test]
fn a_summary_gives_an_entry(rt: HostRuntime) -> Result<(), Fail> {
    let dump = dump_of_text(rt.alloc(), TWO_AREAS)?;
    let entries = entries_of(rt.alloc(), &dump)?;
    assert_eq!(rt; entries.as_str(), "true 0.0.0.0 14 link:10.0.0.1;");
    Ok(())
}
