//! The lines of loops and blackholes, where one network was the baseline of another.

use loop_report::{LoopReport, joint_loops, push_found};
use lsdb::Database;
use network_names::{Names, read_names};
use spf::Meter;
use std::alloc::Global;
use std::test::*;
use study_text::push_lines;
use test_support::dump_of_text;

/// The names of routers.
const NAMES: &[u8] = b"1.1.1.1 r1
2.2.2.2 r2
3.3.3.3 r3
4.4.4.4 r4";

/// 1.1.1.1 between 2.2.2.2, an area border router, and 3.3.3.3.
const CHAIN: &str = "area 0.0.0.0
router 1.1.1.1: point-to-point 2.2.2.2 data=10.0.12.1 cost=10, \
point-to-point 3.3.3.3 data=10.0.13.1 cost=10
router 2.2.2.2 flags=1: point-to-point 1.1.1.1 data=10.0.12.2 cost=10
router 3.3.3.3: point-to-point 1.1.1.1 data=10.0.13.3 cost=10, stub 10.0.0.0/8 cost=1";

/// With these, 2.2.2.2 has a way back to 1.1.1.1 for 10.1.0.0/16, by the network of 3.3.3.3 that
/// covers it, and none for 20.1.0.0/16.
const SUMMARIES: &str = "summary 10.1.0.0/16 by=2.2.2.2 cost=20
summary 20.1.0.0/16 by=2.2.2.2 cost=20";

/// 2.2.2.2 drops what has no longer match than 10.0.0.0/8.
const HALF: &str = "area 0.0.0.0
router 1.1.1.1: point-to-point 2.2.2.2 data=10.0.12.1 cost=10, stub 10.0.0.0/9 cost=1
router 2.2.2.2 flags=1: point-to-point 1.1.1.1 data=10.0.12.2 cost=10
summary 10.0.0.0/8 by=2.2.2.2 cost=5";

/// The same where longer prefixes cover all of 10.0.0.0/8.
const WHOLE: &str = "area 0.0.0.0
router 1.1.1.1: point-to-point 2.2.2.2 data=10.0.12.1 cost=10, stub 10.0.0.0/9 cost=1, \
stub 10.128.0.0/9 cost=1
router 2.2.2.2 flags=1: point-to-point 1.1.1.1 data=10.0.12.2 cost=10
summary 10.0.0.0/8 by=2.2.2.2 cost=5";

/// A ring of four routers, without 2.2.2.2, which is between 1.1.1.1 and 4.4.4.4.
const RING: &str = "area 0.0.0.0
router 1.1.1.1: point-to-point 2.2.2.2 data=10.0.12.1 cost=10, \
point-to-point 3.3.3.3 data=10.0.13.1 cost=30
router 3.3.3.3: point-to-point 1.1.1.1 data=10.0.13.3 cost=30, \
point-to-point 4.4.4.4 data=10.0.34.3 cost=10
router 4.4.4.4: point-to-point 2.2.2.2 data=10.0.24.4 cost=10, \
point-to-point 3.3.3.3 data=10.0.34.4 cost=10, stub 10.4.0.0/16 cost=1";

/// With this, 2.2.2.2 sends to 4.4.4.4, and so does 1.1.1.1 by 2.2.2.2.
const SHORT: &str = "router 2.2.2.2: point-to-point 1.1.1.1 data=10.0.12.2 cost=10, \
point-to-point 4.4.4.4 data=10.0.24.2 cost=10";

/// With this, 2.2.2.2 sends round by 1.1.1.1.
const ROUND: &str = "router 2.2.2.2: point-to-point 1.1.1.1 data=10.0.12.2 cost=10, \
point-to-point 4.4.4.4 data=10.0.24.2 cost=100";

/// What it is, the parts of the baseline and of the network, and the lines of `loops` and of
/// `microloops`.
const CASES: &[(&str, &[&str], &[&str], &str)] = &[
    // Before, 1.1.1.1 sends to 3.3.3.3; now 3.3.3.3 sends to 1.1.1.1 for the longer prefix.
    (
        "a loop, and a new blackhole",
        &[CHAIN],
        &[CHAIN, SUMMARIES],
        "loop 10.1.0.0/16 at r1,r2
blackhole 20.1.0.0/16 at r2 from r1
joint
loop 10.1.0.0/16 at r1,r2,r3
",
    ),
    (
        "the loop is in the baseline too, and the blackhole is not new",
        &[CHAIN, SUMMARIES],
        &[CHAIN, SUMMARIES],
        "loop 10.1.0.0/16 at r1,r2
joint
loop 10.1.0.0/16 at r1,r2
",
    ),
    (
        "no loop and no blackhole now",
        &[CHAIN, SUMMARIES],
        &[CHAIN],
        "joint
loop 10.1.0.0/16 at r1,r2,r3
",
    ),
    (
        "half a prefix is in its atom",
        &[CHAIN],
        &[HALF],
        "blackhole 10.0.0.0/8 at r2 from r1
joint
loop 10.0.0.0/8 at r1,r2
",
    ),
    (
        "longer prefixes cover a prefix whole",
        &[CHAIN],
        &[WHOLE],
        "joint
",
    ),
    (
        "a loop while routers change over",
        &[RING, SHORT],
        &[RING, ROUND],
        "joint
loop 10.4.0.0/16 at r1,r2
",
    ),
];

/// The database of a network in parts.
fn network(alloc: Global, parts: &[&str]) -> Result<Database, Fail> {
    let mut text = String::new(alloc);
    for part in parts {
        text.push_str(part)?;
        text.push_str("\n")?;
    }
    Ok(Database::load(alloc, &dump_of_text(alloc, &text)?)?)
}

/// The lines of `loops`.
fn push_report(text: &mut Vec<u8>, names: &Names<'_>, report: &LoopReport) -> Result<(), Fail> {
    push_lines(text, names, report.loops())?;
    push_lines(text, names, report.blackholes())?;
    Ok(())
}

/// The lines of `loops` and, after a line between them, of `microloops`.
fn lines_between(alloc: Global, baseline: &[&str], now: &[&str]) -> Result<Vec<u8>, Fail> {
    let baseline = network(alloc, baseline)?;
    let now = network(alloc, now)?;
    let names = read_names(alloc, NAMES).map_err(|_| "the names")?;
    let mut text = Vec::new(alloc);
    let report = LoopReport::between(alloc, &baseline, &now, &mut Meter::new())?;
    push_report(&mut text, &names, &report)?;
    text.extend_from_slice(b"joint\n")?;
    let joint = joint_loops(alloc, &baseline, &now, &mut Meter::new())?;
    push_lines(&mut text, &names, &joint)?;
    Ok(text)
}

/// What `loops none` and `blackholes none` have found.
fn found_between(alloc: Global, baseline: &[&str], now: &[&str]) -> Result<Vec<u8>, Fail> {
    let baseline = network(alloc, baseline)?;
    let now = network(alloc, now)?;
    let names = read_names(alloc, NAMES).map_err(|_| "the names")?;
    let mut text = Vec::new(alloc);
    let report = LoopReport::between(alloc, &baseline, &now, &mut Meter::new())?;
    push_found(&mut text, &names, "loops", report.loops())?;
    text.extend_from_slice(b", ")?;
    push_found(&mut text, &names, "blackholes", report.blackholes())?;
    Ok(text)
}

#[test]
fn atoms_show_loops_and_blackholes(rt: HostRuntime) -> Result<(), Fail> {
    for (name, baseline, now, wanted) in CASES {
        let found = lines_between(rt.alloc(), baseline, now)?;
        assert_eq!(rt; found.as_slice(), wanted.as_bytes(), "{name}");
    }
    Ok(())
}

#[test]
fn expectations_find_them(rt: HostRuntime) -> Result<(), Fail> {
    let found = found_between(rt.alloc(), &[CHAIN], &[CHAIN, SUMMARIES])?;
    let wanted = "loops 1: 10.1.0.0/16 at r1,r2, blackholes 1: 20.1.0.0/16 at r2";
    assert_eq!(rt; found.as_slice(), wanted.as_bytes());
    Ok(())
}
