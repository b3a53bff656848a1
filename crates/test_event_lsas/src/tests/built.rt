//! Small networks, and what events change there. These functions have no clauses, so that the
//! prover knows nothing of what they answer, and the tests are proved soon.

use event_links::{EventFault, LinkEvent};
use event_lsas::{ChangeFault, link_changes};
use lsa_codec::RouterId;
use lsdb::{Database, SlotId};
use std::alloc::Global;
use std::test::*;
use test_support::dump_of_text;

pub(super) const R1: RouterId = RouterId(0x0101_0101);

pub(super) const R2: RouterId = RouterId(0x0202_0202);

pub(super) const R3: RouterId = RouterId(0x0303_0303);

pub(super) const R4: RouterId = RouterId(0x0404_0404);

pub(super) const R6: RouterId = RouterId(0x0606_0606);

/// The database that a text describes.
fn database(alloc: Global, text: &str) -> Result<Database, Fail> {
    Ok(Database::load(alloc, &dump_of_text(alloc, text)?)?)
}

/// A line for a slot: its number in its area, and the bytes of its LSA, if there is one.
fn push_slot(lines: &mut Vec<u8>, slot: SlotId, lsa: Option<&[u8]>) -> Result<(), Fail> {
    lines.extend_from_slice(&slot.section.to_be_bytes())?;
    lines.extend_from_slice(&slot.index.to_be_bytes())?;
    lines.extend_from_slice(lsa.unwrap_or(b"none"))?;
    Ok(())
}

/// What an event changes: each slot, and the LSA that it gets.
pub(super) fn changes(alloc: Global, text: &str, event: LinkEvent) -> Result<Vec<u8>, Fail> {
    let mut lines = Vec::new(alloc);
    for change in link_changes(&database(alloc, text)?, event)? {
        let slot = change.slot();
        let lsa = change.into_lsa();
        push_slot(&mut lines, slot, lsa.as_ref().map(|lsa| lsa.bytes()))?;
    }
    Ok(lines)
}

/// The same of slots of a text, each by the number of its area and its number there. A slot after
/// the last LSA of an area has none.
pub(super) fn slots(alloc: Global, text: &str, ids: &[(usize, usize)]) -> Result<Vec<u8>, Fail> {
    let mut lines = Vec::new(alloc);
    let database = database(alloc, text)?;
    for &(section, index) in ids {
        let slot = SlotId { section, index };
        push_slot(&mut lines, slot, database.get(slot).map(|lsa| lsa.bytes()))?;
    }
    Ok(lines)
}

/// The refusal of an event.
pub(super) fn fault(alloc: Global, text: &str, event: LinkEvent) -> Result<EventFault, Fail> {
    match link_changes(&database(alloc, text)?, event) {
        Ok(_) => Err("not refused".into()),
        Err(ChangeFault::Refused(fault)) => Ok(fault),
        Err(fault) => Err(fault.into()),
    }
}
