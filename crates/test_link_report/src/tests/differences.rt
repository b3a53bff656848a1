//! How one small network differs from another, by meaning.

use super::built::differences_text;
use std::test::*;

/// The baseline: three links of 1.1.1.1 have the same ends, and 4.4.4.4 is at MaxAge.
const BASELINE: &str = "area 0.0.0.0
router 1.1.1.1 flags=7: point-to-point 2.2.2.2 data=10.0.12.1 cost=10, stub 10.0.12.0/30 cost=10, \
point-to-point 3.3.3.3 data=0.0.0.3 cost=5, point-to-point 3.3.3.3 data=0.0.0.3 cost=6, \
point-to-point 3.3.3.3 data=0.0.0.3 cost=7
router 2.2.2.2: transit 10.1.0.2 data=10.1.0.2 cost=10
router 4.4.4.4 age=3600: stub 10.4.0.0/16 cost=1
network 10.1.0.2/24 by=2.2.2.2: 3.3.3.3, 1.1.1.1, 2.2.2.2, 1.1.1.1
summary 10.3.0.0/16 by=1.1.1.1 cost=5
asbr-summary 9.9.9.9 by=1.1.1.1 cost=5
area 0.0.0.2
router 1.1.1.1: stub 10.2.0.0/16 cost=1";

/// The database: its ages and the order of links and LSAs are other ones too.
const NOW: &str = "area 0.0.0.0
asbr-summary 9.9.9.9 by=1.1.1.1 cost=16777215
network 10.1.0.2/25 by=2.2.2.2: 5.5.5.5, 2.2.2.2, 4.4.4.4
router 1.1.1.1 flags=16 age=700: point-to-point 3.3.3.3 data=0.0.0.3 cost=5, stub 10.0.12.0/30 \
cost=10, point-to-point 3.3.3.3 data=0.0.0.3 cost=7, virtual 2.2.2.2 data=10.0.12.1 cost=10
router 2.2.2.2 age=9: transit 10.1.0.2 data=10.1.0.2 cost=12
router 4.4.4.4: stub 10.4.0.0/16 cost=1
summary 10.3.0.0/17 by=1.1.1.1 cost=6
area 0.0.0.3
summary 10.2.0.0/16 by=1.1.1.1 cost=1";

const LINES: &str = "area 0.0.0.0 router r1: bits VEB -> -
area 0.0.0.0 router r1: #3 point-to-point to r3, 0.0.0.3: cost 6 -> 7
area 0.0.0.0 router r1: new #4 virtual to r2, 10.0.12.1, cost 10
area 0.0.0.0 router r1: gone #1 point-to-point to r2, 10.0.12.1, cost 10
area 0.0.0.0 router r1: gone #5 point-to-point to r3, 0.0.0.3, cost 7
area 0.0.0.0 router r2: #1 transit to 10.1.0.2, 10.1.0.2: cost 10 -> 12
new area 0.0.0.0 router r4: 1 links
area 0.0.0.0 network 10.1.0.2 by r2: mask /24 -> /25
area 0.0.0.0 network 10.1.0.2 by r2: new member r4
area 0.0.0.0 network 10.1.0.2 by r2: new member r5
area 0.0.0.0 network 10.1.0.2 by r2: gone member r1
area 0.0.0.0 network 10.1.0.2 by r2: gone member r3
area 0.0.0.0 summary 10.3.0.0/17 by r1: mask /16 -> /17
area 0.0.0.0 summary 10.3.0.0/17 by r1: metric 5 -> 6
area 0.0.0.0 asbr-summary 9.9.9.9 by r1: metric 5 -> 16777215
gone area 0.0.0.2: kind ordinary
gone area 0.0.0.2 router r1: 1 links
new area 0.0.0.3: kind ordinary
new area 0.0.0.3 summary 10.2.0.0/16 by r1: metric 1
";

#[test]
fn areas_and_live_lsas_differ(rt: HostRuntime) -> Result<(), Fail> {
    let found = differences_text(rt.alloc(), BASELINE, NOW)?;
    assert_eq!(rt; found.as_str(), LINES);
    let none = differences_text(rt.alloc(), NOW, NOW)?;
    assert_eq!(rt; none.as_str(), "");
    Ok(())
}
