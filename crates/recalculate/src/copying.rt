//! When a copy of the loaded database pays.

use crate::counts::beginning_of;
use edit_history::Record;
use lsdb::Database;
use std::alloc::Allocator;

/// To take a change of an LSA back and make it again takes about as long as to copy this number of
/// LSAs.
const COPIES_IN_THE_TIME: usize = 8;

/// Whether to take edits back and carry them out again takes longer than to copy the database, by
/// the numbers of LSAs alone.
pub(crate) fn takes_longer_than_a_copy<A: Allocator + Copy>(
    edits: &[Record<A>],
    database: &Database<A>,
) -> bool {
    let counts = beginning_of(database);
    let few = counts.lsas / COPIES_IN_THE_TIME + counts.as_lsas / COPIES_IN_THE_TIME;
    change_more(edits, few)
}

/// Whether edits changed more LSAs than this, where an LSA counts once for each edit that changed
/// it.
fn change_more<A: Allocator + Copy>(edits: &[Record<A>], few: usize) -> bool {
    let mut left = few;
    for edit in edits {
        let changed = edit.len();
        if left < changed {
            return true;
        }
        left -= changed;
    }
    false
}
