//! What runs begin at, by name, so that rows of tables name it.

use std::alloc::Global;
use std::test::*;
use test_support::{dump_of_text, session_of};
use whole_run::SAMPLE;

/// A dump or a saved session.
#[derive(Clone, Copy)]
pub(super) enum Beginning {
    /// The sample.
    Sample,
    /// A network.
    Network,
    /// Two areas.
    TwoAreas,
    /// The sample as a saved session, 155 bytes: the cost of the link of 1.1.1.1 was made 11, which
    /// is done, and then 12, which is undone.
    Saved,
}

/// A backbone with the network 10.5.0.3 of 3.3.3.3, an AS boundary router, and a link between the
/// other two routers on it, 1.1.1.1 and 4.4.4.4.
const NETWORK: &str = "\
area 0.0.0.0
router 1.1.1.1: transit 10.5.0.3 data=10.5.0.1 cost=10, point-to-point 4.4.4.4 data=10.0.0.1 cost=5
router 4.4.4.4: point-to-point 1.1.1.1 data=10.0.0.4 cost=5, transit 10.5.0.3 data=10.5.0.4 cost=5
router 3.3.3.3 flags=2: transit 10.5.0.3 data=10.5.0.3 cost=10, stub 10.3.0.0/16 cost=1
network 10.5.0.3/16 by=3.3.3.3: 1.1.1.1, 3.3.3.3, 4.4.4.4";

/// The router 1.1.1.1 between the backbone, with 2.2.2.2, and the area 0.0.0.1, with 3.3.3.3: all
/// three are area border routers, and both areas have summary-LSAs. That of 1.1.1.1, for
/// 10.22.0.0/16, is stale: it reaches no such network.
const TWO_AREAS: &str = "\
area 0.0.0.0
router 1.1.1.1 flags=1: point-to-point 2.2.2.2 data=10.0.0.1 cost=10
router 2.2.2.2 flags=1: point-to-point 1.1.1.1 data=10.0.0.2 cost=10
summary 10.20.0.0/16 by=2.2.2.2 cost=20
summary 10.21.0.0/16 by=2.2.2.2 cost=16777215
summary 10.22.0.0/16 by=1.1.1.1 cost=3
area 0.0.0.1
router 1.1.1.1 flags=1: point-to-point 3.3.3.3 data=10.1.0.1 cost=1
router 3.3.3.3 flags=1: point-to-point 1.1.1.1 data=10.1.0.3 cost=1
summary 10.20.0.0/16 by=3.3.3.3 cost=1";

/// How many edits are done and undone, and their lines.
const HISTORY: &[u8] = b"\0\x01\0\x01cost 0.0.0.0 1.1.1.1 1 11\ncost 0.0.0.0 1.1.1.1 1 12\n";

/// The bytes.
pub(super) fn bytes_of(alloc: Global, beginning: Beginning) -> Result<Vec<u8>, Fail> {
    Ok(match beginning {
        Beginning::Sample => Vec::from_slice(alloc, SAMPLE)?,
        Beginning::Network => dump_of_text(alloc, NETWORK)?,
        Beginning::TwoAreas => dump_of_text(alloc, TWO_AREAS)?,
        Beginning::Saved => session_of(alloc, SAMPLE, HISTORY)?,
    })
}
