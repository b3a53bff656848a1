//! The lines of all routers, links and networks.

use super::built::{links_text, networks_text, routers_text};
use std::test::*;

/// Two areas: 2.2.2.2 is a border router, and 1.1.1.1 an AS boundary router; 3.3.3.3 is at MaxAge.
/// Two links of 1.1.1.1 and 2.2.2.2 stand in another order at 2.2.2.2, and two unnumbered ones of
/// 1.1.1.1 and 5.5.5.5 have nothing that distinguishes them. A LAN has two network-LSAs.
const NETWORK: &str = "area 0.0.0.0
router 1.1.1.1 flags=2: point-to-point 2.2.2.2 data=10.0.12.1 cost=10, stub 10.0.12.0/30 \
cost=10, point-to-point 2.2.2.2 data=10.0.12.5 cost=10, stub 10.0.12.4/30 cost=10, \
point-to-point 5.5.5.5 data=0.0.0.3 cost=7, point-to-point 5.5.5.5 data=0.0.0.4 cost=7
router 2.2.2.2 flags=1: point-to-point 1.1.1.1 data=10.0.12.6 cost=12, stub 10.0.12.4/30 \
cost=12, point-to-point 1.1.1.1 data=10.0.12.2 cost=10, stub 10.2.0.0/16 cost=3
router 3.3.3.3 age=3600: stub 10.3.0.0/16 cost=1
router 5.5.5.5: point-to-point 1.1.1.1 data=0.0.0.7 cost=7, point-to-point 1.1.1.1 \
data=0.0.0.8 cost=9, virtual 9.9.9.9 data=10.9.9.9 cost=3
area 0.0.0.1
router 2.2.2.2 flags=1: transit 10.1.0.4 data=10.1.0.2 cost=10
router 4.4.4.4: transit 10.1.0.4 data=10.1.0.4 cost=5, transit 10.1.0.9 data=10.1.0.4 cost=6
network 10.1.0.4/24 by=4.4.4.4: 4.4.4.4, 2.2.2.2, 7.7.7.7, 6.6.6.6
network 10.1.0.4/25 by=3.3.3.3: 3.3.3.3, 2.2.2.2
network 10.0.0.3/24 by=3.3.3.3: 3.3.3.3";

const ROUTERS: &str = "1.1.1.1 r1 areas 0.0.0.0 roles asbr links 4 transit 0 stubs 2
2.2.2.2 r2 areas 0.0.0.0,0.0.0.1 roles abr links 2 transit 1 stubs 2
4.4.4.4 r4 areas 0.0.0.1 roles - links 0 transit 2 stubs 0
5.5.5.5 r5 areas 0.0.0.0 roles - links 2 transit 0 stubs 0
";

const LINKS: &str =
    "r1 area 0.0.0.0 #1 point-to-point to r2, 10.0.12.1, cost 10, back 10, peer 10.0.12.2, stub \
#2 10.0.12.0/30 cost 10
r1 area 0.0.0.0 #2 stub 10.0.12.0/30, cost 10, of #1
r1 area 0.0.0.0 #3 point-to-point to r2, 10.0.12.5, cost 10, back 12, peer 10.0.12.6, stub \
#4 10.0.12.4/30 cost 10
r1 area 0.0.0.0 #4 stub 10.0.12.4/30, cost 10, of #3
r1 area 0.0.0.0 #5 point-to-point to r5, 0.0.0.3, cost 7, back 7/9, peer 0.0.0.7/0.0.0.8
r1 area 0.0.0.0 #6 point-to-point to r5, 0.0.0.4, cost 7, back 7/9, peer 0.0.0.7/0.0.0.8
r2 area 0.0.0.0 #1 point-to-point to r1, 10.0.12.6, cost 12, back 10, peer 10.0.12.5, stub \
#2 10.0.12.4/30 cost 12
r2 area 0.0.0.0 #2 stub 10.0.12.4/30, cost 12, of #1
r2 area 0.0.0.0 #3 point-to-point to r1, 10.0.12.2, cost 10, back 10, peer 10.0.12.1
r2 area 0.0.0.0 #4 stub 10.2.0.0/16, cost 3
r2 area 0.0.0.1 #1 transit to 10.1.0.4, 10.1.0.2, cost 10, back 0, network 10.1.0.0/24
r4 area 0.0.0.1 #1 transit to 10.1.0.4, 10.1.0.4, cost 5, back 0, network 10.1.0.0/24
r4 area 0.0.0.1 #2 transit to 10.1.0.9, 10.1.0.4, cost 6, back none, network none
r5 area 0.0.0.0 #1 point-to-point to r1, 0.0.0.7, cost 7, back 7, peer 0.0.0.3/0.0.0.4
r5 area 0.0.0.0 #2 point-to-point to r1, 0.0.0.8, cost 9, back 7, peer 0.0.0.3/0.0.0.4
r5 area 0.0.0.0 #3 virtual to 9.9.9.9, 10.9.9.9, cost 3
";

const NETWORKS: &str = "10.0.0.0/24 area 0.0.0.1 dr r3 10.0.0.3 members - one-way r3
10.1.0.0/24 area 0.0.0.1 dr r4 10.1.0.4 members r2,r4 one-way r6,7.7.7.7
";

#[test]
fn routers_have_areas_roles_and_counts(rt: HostRuntime) -> Result<(), Fail> {
    let found = routers_text(rt.alloc(), NETWORK)?;
    assert_eq!(rt; found.as_str(), ROUTERS);
    Ok(())
}

#[test]
fn links_have_what_is_known_of_their_other_ends(rt: HostRuntime) -> Result<(), Fail> {
    let found = links_text(rt.alloc(), NETWORK)?;
    assert_eq!(rt; found.as_str(), LINKS);
    Ok(())
}

#[test]
fn networks_have_members(rt: HostRuntime) -> Result<(), Fail> {
    let found = networks_text(rt.alloc(), NETWORK)?;
    assert_eq!(rt; found.as_str(), NETWORKS);
    Ok(())
}
