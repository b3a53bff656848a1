//! The one LSA that the last edit, or taking one back, has changed.

use super::edited::{edited, move_by};
use super::nets::nets;
use crate::edited::Way;
use edit_history::{Change, Moved};
use std::alloc::Global;
use std::test::*;

/// The router-LSA of 1.1.1.1 in `NETS`.
const LOADED: &[u8] = &[
    0x00, 0x01, 0x02, 0x01, 0x01, 0x01, 0x01, 0x01, 0x01, 0x01, 0x01, 0x01, 0x80, 0x00, 0x00, 0x01,
    0xc4, 0xe7, 0x00, 0x48, 0x00, 0x00, 0x00, 0x04, 0x02, 0x02, 0x02, 0x02, 0x0a, 0x00, 0x00, 0x01,
    0x01, 0x00, 0x00, 0x0a, 0x02, 0x02, 0x02, 0x02, 0x0a, 0x00, 0x01, 0x01, 0x01, 0x00, 0x00, 0x0a,
    0x0a, 0x01, 0x00, 0x00, 0xff, 0xff, 0x00, 0x00, 0x03, 0x00, 0x00, 0x01, 0x0a, 0x05, 0x00, 0x03,
    0x0a, 0x05, 0x00, 0x01, 0x02, 0x00, 0x00, 0x0a,
];

/// The same with another metric of its last link.
const EDITED: &[u8] = &[
    0x00, 0x01, 0x02, 0x01, 0x01, 0x01, 0x01, 0x01, 0x01, 0x01, 0x01, 0x01, 0x80, 0x00, 0x00, 0x01,
    0x22, 0x8d, 0x00, 0x48, 0x00, 0x00, 0x00, 0x04, 0x02, 0x02, 0x02, 0x02, 0x0a, 0x00, 0x00, 0x01,
    0x01, 0x00, 0x00, 0x0a, 0x02, 0x02, 0x02, 0x02, 0x0a, 0x00, 0x01, 0x01, 0x01, 0x00, 0x00, 0x0a,
    0x0a, 0x01, 0x00, 0x00, 0xff, 0xff, 0x00, 0x00, 0x03, 0x00, 0x00, 0x01, 0x0a, 0x05, 0x00, 0x03,
    0x0a, 0x05, 0x00, 0x01, 0x02, 0x00, 0x00, 0x07,
];

/// The cost of the link of 1.1.1.1 to the network.
const COST: &str = "cost 0.0.0.0 1.1.1.1 4 7";

/// An edit of two LSAs.
const FAIL_LINK: &str = "fail-link 0.0.0.0 2.2.2.2 1.1.1.1";

/// Edits of `NETS`, how many edits are then taken back, the LSA that the last done edit is reported
/// to have changed, and the one that the first undone edit is.
const CHANGES: &[(&str, usize, Option<&[u8]>, Option<&[u8]>)] = &[
    (COST, 0, Some(LOADED), None),
    (COST, 1, None, Some(EDITED)),
    (FAIL_LINK, 0, None, None),
    (FAIL_LINK, 1, None, None),
];

/// Whether a change is reported at the first slot of the backbone, of an LSA with these bytes; or
/// none, where there are no bytes.
fn is_change_so(change: Option<Change<'_>>, lsa: Option<&[u8]>) -> bool {
    match change {
        Some(Change { slot, before }) => {
            (slot.section, slot.index) == (0, 0) && Some(before.bytes()) == lsa
        }
        None => lsa.is_none(),
    }
}

/// Whether these changes are reported after an edit, when this number of edits is taken back.
fn are_reported(
    alloc: Global,
    line: &str,
    count: usize,
    last: Option<&[u8]>,
    next: Option<&[u8]>,
) -> Result<bool, Fail> {
    let (mut database, mut history) = edited(alloc, nets(), &[line])?;
    move_by(&mut database, &mut history, Way::Back, count)?;
    Ok(
        is_change_so(history.one_change(Moved::On(1)), last)
            && is_change_so(history.one_change(Moved::Back(1)), next),
    )
}

#[test]
fn reports_the_one_lsa_that_an_edit_changed(rt: HostRuntime) -> Result<(), Fail> {
    for (line, count, last, next) in CHANGES {
        let reported = are_reported(rt.alloc(), line, *count, *last, *next)?;
        assert!(rt; reported, "{line}, {count} taken back");
    }
    Ok(())
}
