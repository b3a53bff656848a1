//! What routers have lost, where one network was the baseline of another.

use super::paths::BORDERS;
use forwarding::Forwarding;
use lost_routes::{Announced, LostPairs, RouterPrefix};
use lsdb::Database;
use spf::Meter;
use std::alloc::Global;
use std::test::*;
use test_support::dump_of_text;

/// Three routers in a row, each with a stub network.
const ROW: &str = "area 0.0.0.0
router 1.1.1.1: point-to-point 2.2.2.2 data=10.0.12.1 cost=10, stub 10.1.0.0/16 cost=1
router 2.2.2.2: point-to-point 1.1.1.1 data=10.0.12.2 cost=10, \
point-to-point 3.3.3.3 data=10.0.23.2 cost=10, stub 10.2.0.0/16 cost=1
router 3.3.3.3: point-to-point 2.2.2.2 data=10.0.23.3 cost=10, stub 10.3.0.0/16 cost=1";

/// The same without the link of 2.2.2.2 and 3.3.3.3, and without the stub network of 2.2.2.2.
const CUT: &str = "area 0.0.0.0
router 1.1.1.1: point-to-point 2.2.2.2 data=10.0.12.1 cost=10, stub 10.1.0.0/16 cost=1
router 2.2.2.2: point-to-point 1.1.1.1 data=10.0.12.2 cost=10
router 3.3.3.3: stub 10.3.0.0/16 cost=1";

/// The same without 3.3.3.3.
const FAILED: &str = "area 0.0.0.0
router 1.1.1.1: point-to-point 2.2.2.2 data=10.0.12.1 cost=10, stub 10.1.0.0/16 cost=1
router 2.2.2.2: point-to-point 1.1.1.1 data=10.0.12.2 cost=10, \
point-to-point 3.3.3.3 data=10.0.23.2 cost=10, stub 10.2.0.0/16 cost=1";

/// 2.2.2.2 in the backbone has a route to the stub network of 3.3.3.3 by a summary-LSA of 1.1.1.1.
const AREAS: &str = "area 0.0.0.0
router 1.1.1.1 flags=1: point-to-point 2.2.2.2 data=10.0.12.1 cost=10
router 2.2.2.2: point-to-point 1.1.1.1 data=10.0.12.2 cost=10
summary 10.3.0.0/16 by=1.1.1.1 cost=11
area 0.0.0.1
router 1.1.1.1 flags=1: point-to-point 3.3.3.3 data=10.0.13.1 cost=10
router 3.3.3.3: point-to-point 1.1.1.1 data=10.0.13.3 cost=10, stub 10.3.0.0/16 cost=1";

/// The same without the stub network, which the summary-LSA has outlived.
const OUTLIVED: &str = "area 0.0.0.0
router 1.1.1.1 flags=1: point-to-point 2.2.2.2 data=10.0.12.1 cost=10
router 2.2.2.2: point-to-point 1.1.1.1 data=10.0.12.2 cost=10
summary 10.3.0.0/16 by=1.1.1.1 cost=11
area 0.0.0.1
router 1.1.1.1 flags=1: point-to-point 3.3.3.3 data=10.0.13.1 cost=10
router 3.3.3.3: point-to-point 1.1.1.1 data=10.0.13.3 cost=10";

/// The border routers that announce a prefix which neither has, without their link.
const APART: &str = "area 0.0.0.0
router 1.1.1.1 flags=1
router 2.2.2.2 flags=1
summary 10.9.0.0/16 by=1.1.1.1 cost=5
summary 10.9.0.0/16 by=2.2.2.2 cost=5";

/// What happened, the network before and after it, and what routers have lost.
const CASES: &[(&str, &str, &str, &str)] = &[
    ("nothing happened", ROW, ROW, "lost gone "),
    (
        "a link was cut, and a stub network went",
        ROW,
        CUT,
        "lost 1.1.1.1 10.3.0.0/16 2.2.2.2 10.3.0.0/16 3.3.3.3 10.1.0.0/16 \
        gone 1.1.1.1 10.2.0.0/16 2.2.2.2 10.2.0.0/16 3.3.3.3 10.2.0.0/16 ",
    ),
    // No pairs of 3.3.3.3: it is attached to no area.
    (
        "a router failed",
        ROW,
        FAILED,
        "lost gone 1.1.1.1 10.3.0.0/16 2.2.2.2 10.3.0.0/16 ",
    ),
    ("routes came", CUT, ROW, "lost gone "),
    // 2.2.2.2 has its route still.
    (
        "a summary outlived its network",
        AREAS,
        OUTLIVED,
        "lost gone 1.1.1.1 10.3.0.0/16 3.3.3.3 10.3.0.0/16 ",
    ),
    (
        "a prefix of summaries alone is announced by them",
        BORDERS,
        APART,
        "lost 1.1.1.1 10.9.0.0/16 2.2.2.2 10.9.0.0/16 gone ",
    ),
];

/// Adds routers and prefixes, each with a space after it.
fn push_pairs(alloc: Global, text: &mut String, pairs: &[RouterPrefix]) -> Result<(), Fail> {
    for pair in pairs {
        let (router, net) = (pair.router, pair.net);
        text.push_str(&format!(in alloc; "{router} {net} ")?)?;
    }
    Ok(())
}

/// What routers have lost between two networks.
fn lost_between(alloc: Global, baseline: &str, now: &str) -> Result<String, Fail> {
    let baseline = Database::load(alloc, &dump_of_text(alloc, baseline)?)?;
    let now = Database::load(alloc, &dump_of_text(alloc, now)?)?;
    let found = LostPairs::of(
        alloc,
        &Announced::of(alloc, &baseline)?,
        &Announced::of(alloc, &now)?,
        &Forwarding::of(alloc, &baseline, &mut Meter::new())?,
        &Forwarding::of(alloc, &now, &mut Meter::new())?,
    )?;
    let mut text = String::new(alloc);
    text.push_str("lost ")?;
    push_pairs(alloc, &mut text, found.lost())?;
    text.push_str("gone ")?;
    push_pairs(alloc, &mut text, found.gone())?;
    Ok(text)
}

#[test]
fn routers_lose_what_happened(rt: HostRuntime) -> Result<(), Fail> {
    for (name, baseline, now, wanted) in CASES {
        let found = lost_between(rt.alloc(), baseline, now)?;
        assert_eq!(rt; found.as_str(), *wanted, "{name}");
    }
    Ok(())
}
