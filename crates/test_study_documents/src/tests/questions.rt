//! Routers, links and networks of a network of two areas.

use super::built::{links_text, networks_text, routers_text};
use std::test::*;

/// 2.2.2.2 is a border router, and 1.1.1.1 an AS boundary router with a virtual link. A LAN has a
/// member without a link to it.
const NETWORK: &str = "area 0.0.0.0
router 1.1.1.1 flags=2: point-to-point 2.2.2.2 data=10.0.12.1 cost=10, stub 10.0.12.0/30 \
cost=10, virtual 9.9.9.9 data=10.9.9.9 cost=3
router 2.2.2.2 flags=1: point-to-point 1.1.1.1 data=10.0.12.2 cost=12
area 0.0.0.1
router 2.2.2.2 flags=1: transit 10.1.0.2 data=10.1.0.2 cost=10, stub 10.2.0.0/16 cost=3
network 10.1.0.2/24 by=2.2.2.2: 2.2.2.2, 3.3.3.3";

const ROUTERS: &str = ",\"routers\":[\
{\"router\":\"1.1.1.1\",\"name\":\"r1\",\"areas\":[\"0.0.0.0\"],\"roles\":[\"asbr\"],\
\"links\":1,\"transit\":0,\"stubs\":1},\
{\"router\":\"2.2.2.2\",\"name\":\"r2\",\"areas\":[\"0.0.0.0\",\"0.0.0.1\"],\
\"roles\":[\"abr\"],\"links\":1,\"transit\":1,\"stubs\":1}]}";

const LINKS: &str = ",\"links\":[\
{\"router\":\"1.1.1.1\",\"area\":\"0.0.0.0\",\"number\":1,\"type\":\"point-to-point\",\
\"cost\":10,\"to\":\"2.2.2.2\",\"data\":\"10.0.12.1\",\"back\":[12],\
\"peers\":[\"10.0.12.2\"],\"stub\":{\"number\":2,\"prefix\":\"10.0.12.0/30\",\"cost\":10}},\
{\"router\":\"1.1.1.1\",\"area\":\"0.0.0.0\",\"number\":2,\"type\":\"stub\",\"cost\":10,\
\"prefix\":\"10.0.12.0/30\",\"of\":1},\
{\"router\":\"1.1.1.1\",\"area\":\"0.0.0.0\",\"number\":3,\"type\":\"virtual\",\"cost\":3,\
\"to\":\"9.9.9.9\",\"data\":\"10.9.9.9\"},\
{\"router\":\"2.2.2.2\",\"area\":\"0.0.0.0\",\"number\":1,\"type\":\"point-to-point\",\
\"cost\":12,\"to\":\"1.1.1.1\",\"data\":\"10.0.12.2\",\"back\":[10],\
\"peers\":[\"10.0.12.1\"],\"stub\":null},\
{\"router\":\"2.2.2.2\",\"area\":\"0.0.0.1\",\"number\":1,\"type\":\"transit\",\"cost\":10,\
\"to\":\"10.1.0.2\",\"data\":\"10.1.0.2\",\"back\":[0],\"prefix\":\"10.1.0.0/24\"},\
{\"router\":\"2.2.2.2\",\"area\":\"0.0.0.1\",\"number\":2,\"type\":\"stub\",\"cost\":3,\
\"prefix\":\"10.2.0.0/16\",\"of\":null}]}";

const NETWORKS: &str =
    ",\"networks\":[{\"area\":\"0.0.0.1\",\"prefix\":\"10.1.0.0/24\",\"address\":\"10.1.0.2\",\
\"router\":\"2.2.2.2\",\"members\":[\"2.2.2.2\"],\"one_way\":[\"3.3.3.3\"]}]}";

#[test]
fn answers_have_the_keys_of_their_types(rt: HostRuntime) -> Result<(), Fail> {
    for (found, wanted) in [
        (routers_text(rt.alloc(), NETWORK)?, ROUTERS),
        (links_text(rt.alloc(), NETWORK)?, LINKS),
        (networks_text(rt.alloc(), NETWORK)?, NETWORKS),
    ] {
        assert_eq!(rt; found.as_str(), wanted);
    }
    Ok(())
}
