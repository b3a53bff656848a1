//! Filters of the transit networks of LSAs.

use super::nets::nets;
use lsa_codec::Addr;
use lsdb::Database;
use std::test::*;

/// Whether the filter of a slot of the backbone may have a network; `None` where there is no such
/// slot.
fn may_have(database: &Database, index: usize, network: u32) -> Option<bool> {
    if database.section_count() == 0 {
        return None;
    }
    let filter = database.transit_filters(0).get(index)?;
    Some(filter.may_have(Addr(network)))
}

/// The network 10.5.0.3.
const NETWORK: u32 = 0x0a05_0003;

/// The slots of the backbone, and whether the LSA there is of the network: the router-LSA of
/// 1.1.1.1, the network-LSA, the router-LSAs of 2.2.2.2, which has no transit link, and of 3.3.3.3,
/// a summary-LSA, and the router-LSA of 4.4.4.4, which is the last one.
const SLOTS: &[(usize, Option<bool>)] = &[
    (0, Some(true)),
    (1, Some(true)),
    (2, Some(false)),
    (3, Some(true)),
    (4, Some(false)),
    (6, Some(true)),
    (7, None),
];

#[test]
fn each_slot_has_a_filter_of_the_networks_of_its_lsa(rt: HostRuntime) -> Result<(), Fail> {
    let database = Database::load(rt.alloc(), nets())?;
    for (index, is_of) in SLOTS {
        assert_eq!(rt; may_have(&database, *index, NETWORK), *is_of, "{index}");
    }
    Ok(())
}
