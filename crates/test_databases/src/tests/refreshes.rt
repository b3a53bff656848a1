//! `refresh`: how many LSAs it rewrites.

use super::nets::edit_of;
use edit_history::apply;
use lsdb::Database;
use std::alloc::AllocError;
use std::test::*;
use test_support::dump_of_text;

/// Area 0.0.0.0: 1.1.1.1 (bit E) with links to 2.2.2.2 of cost 5 and to 4.4.4.4 of cost 3, and a
/// stub link for 10.1.0.0/16 of cost 2; the links back; a summary-LSA of 2.2.2.2 for 10.3.0.0/16.
/// Area 0.0.0.1: 2.2.2.2 with a link of cost 20 to 3.3.3.3, which has a stub link for 10.3.0.0/16
/// of cost 1; summary-LSAs of 2.2.2.2 for 10.1.0.0/16 and for the AS boundary router 1.1.1.1.
/// Area 0.0.0.2: 4.4.4.4, and its summary-LSA for 10.3.0.0/16. Three summary-LSAs are stale, one
/// in each area; the one for 10.1.0.0/16 is not.
pub(super) const STALE: &str = "\
area 0.0.0.0
router 1.1.1.1 flags=2: point-to-point 2.2.2.2 data=10.0.0.1 cost=5, \
point-to-point 4.4.4.4 data=10.0.0.5 cost=3, stub 10.1.0.0/16 cost=2
router 2.2.2.2 flags=1: point-to-point 1.1.1.1 data=10.0.0.2 cost=5
router 4.4.4.4 flags=1: point-to-point 1.1.1.1 data=10.0.0.6 cost=3
summary 10.3.0.0/16 by=2.2.2.2 cost=11
area 0.0.0.1
router 2.2.2.2 flags=1: point-to-point 3.3.3.3 data=10.0.1.2 cost=20
router 3.3.3.3: point-to-point 2.2.2.2 data=10.0.1.3 cost=10, stub 10.3.0.0/16 cost=1
summary 10.1.0.0/16 by=2.2.2.2 cost=7
asbr-summary 1.1.1.1 by=2.2.2.2 cost=9
area 0.0.0.2
router 4.4.4.4 flags=1
summary 10.3.0.0/16 by=4.4.4.4 cost=19";

/// Whether this is the dump of a database.
fn is_dumped(database: &Database, dump: &[u8]) -> Result<bool, AllocError> {
    Ok(database.dump()?.as_slice() == dump)
}

#[test]
fn a_refresh_rewrites_three_metrics_and_then_none(rt: HostRuntime) -> Result<(), Fail> {
    let refresh = edit_of("refresh")?;
    let stale = dump_of_text(rt.alloc(), STALE)?;
    let mut database = Database::load(rt.alloc(), &stale)?;
    assert!(rt; is_dumped(&database, &stale)?);
    assert_eq!(rt; apply(&mut database, &refresh)?.len(), 3);
    assert!(rt; !is_dumped(&database, &stale)?);
    assert_eq!(rt; apply(&mut database, &refresh)?.len(), 0);
    Ok(())
}
