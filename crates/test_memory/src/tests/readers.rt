//! Calls that take no memory and answer nothing that could report want of it.

use super::route_calls::{Lent, lend};
use external_routes::{covered, due, preferred};
use lsa_codec::{AreaId, RouterId};
use lsdb::Section;
use std::alloc::Global;
use std::test::*;
use test_support::{FailingAlloc, R3};

/// Adds of each LSA of an area whether its metric follows from the database, and the metric that
/// it is due.
fn push_metrics(text: &mut String, lent: &Lent<'_>, area: AreaId) -> Result<(), Fail> {
    let (database, entries) = (&lent.database, &lent.inter.routers);
    for lsa in database.lsas(Section::Area(area)) {
        let is_covered = covered(database, area, lsa);
        let metric = due(database, area, lsa, &lent.intra, entries);
        write!(text, " {is_covered} {metric}")?;
    }
    Ok(())
}

/// The cost of the preferred entry of an AS boundary router, and the metrics of both areas.
fn reported(alloc: Global, lent: &Lent<'_>) -> Result<String, Fail> {
    let entries = lent.inter.routers.as_slice();
    let cost = preferred(entries, RouterId(R3)).map(|entry| entry.cost);
    let mut text = format!(in alloc; "{cost:?}")?;
    for area in [AreaId(0), AreaId(1)] {
        push_metrics(&mut text, lent, area)?;
    }
    Ok(text)
}

/// The same while this number of growths are left. It is a failure if one was asked for.
fn reported_with(alloc: Global, growths: u64) -> Result<String, Fail> {
    let failing = FailingAlloc::new(alloc, u64::MAX);
    let lent = lend(&failing)?;
    failing.set_remaining(growths);
    let text = reported(alloc, &lent)?;
    if failing.remaining() == growths {
        Ok(text)
    } else {
        Err("no growth")?
    }
}

#[test]
fn preferred_entries_and_metrics_take_no_memory(rt: HostRuntime) -> Result<(), Fail> {
    let ample = reported_with(rt.alloc(), 1_000)?;
    let refused = reported_with(rt.alloc(), 0)?;
    // 10.2.0.0/16 is announced by 1.1.1.1: over the link of cost 10, and at 1 after 2.2.2.2.
    assert!(rt; ample.ends_with(" true 11"), "{ample}");
    assert_eq!(rt; refused, ample);
    Ok(())
}
