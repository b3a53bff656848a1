//! Small networks, and what is there once a router has gone. These functions have no clauses, so
//! that the prover knows nothing of what they answer, and the tests are proved soon.

use departures::{DepartureFault, departure_changes};
use event_lsas::SlotChange;
use lsa_codec::{Addr, Lsa, Prefix, RouterId};
use lsdb::{Database, SlotId};
use network_departures::Departure;
use std::alloc::Global;
use std::test::*;
use test_support::dump_of_text;

pub(super) const R1: RouterId = RouterId(0x0101_0101);

pub(super) const R2: RouterId = RouterId(0x0202_0202);

pub(super) const R3: RouterId = RouterId(0x0303_0303);

pub(super) const R4: RouterId = RouterId(0x0404_0404);

/// The network 192.168.1.0/24.
pub(super) fn lan() -> Prefix {
    Prefix::masked(Addr(0xc0a8_0100), 24)
}

/// A router leaves 192.168.1.0/24.
pub(super) fn leaves(router: RouterId) -> Departure {
    Departure::LeavesNetwork { router, net: lan() }
}

/// No section of these databases has more LSAs.
const MOST_LSAS: usize = 64;

/// The database that a text describes.
fn database(alloc: Global, text: &str) -> Result<Database, Fail> {
    Ok(Database::load(alloc, &dump_of_text(alloc, text)?)?)
}

/// The LSA that is in a slot with these changes.
fn lsa_after<'a>(
    database: &'a Database,
    changes: &'a [SlotChange],
    slot: SlotId,
) -> Option<&'a Lsa> {
    for change in changes {
        if change.slot() == slot {
            return change.lsa();
        }
    }
    database.get(slot)
}

/// Adds the number of a section, and the bytes of its LSAs with these changes, in their order.
fn push_section(
    bytes: &mut Vec<u8>,
    database: &Database,
    changes: &[SlotChange],
    section: usize,
) -> Result<(), Fail> {
    bytes.extend_from_slice(&section.to_be_bytes())?;
    for index in 0..MOST_LSAS {
        if let Some(lsa) = lsa_after(database, changes, SlotId { section, index }) {
            bytes.extend_from_slice(lsa.bytes())?;
        }
    }
    Ok(())
}

/// The bytes of all LSAs with these changes, section by section.
fn bytes_with(alloc: Global, database: &Database, changes: &[SlotChange]) -> Result<Vec<u8>, Fail> {
    let mut bytes = Vec::new(alloc);
    for section in 0..database.section_count() {
        push_section(&mut bytes, database, changes, section)?;
    }
    Ok(bytes)
}

/// The bytes of all LSAs of a text.
fn lsas(alloc: Global, text: &str) -> Result<Vec<u8>, Fail> {
    bytes_with(alloc, &database(alloc, text)?, &[])
}

/// The bytes of all LSAs once a router has gone.
fn after(alloc: Global, text: &str, event: &Departure) -> Result<Vec<u8>, Fail> {
    let database = database(alloc, text)?;
    let changes = departure_changes(&database, event)?;
    bytes_with(alloc, &database, &changes)
}

/// Whether the LSAs of a text are those of another one once a router has gone.
pub(super) fn leads_to(
    alloc: Global,
    text: &str,
    event: &Departure,
    wanted: &str,
) -> Result<bool, Fail> {
    Ok(after(alloc, text, event)? == lsas(alloc, wanted)?)
}

/// The refusal of a departure.
pub(super) fn fault(alloc: Global, text: &str, event: &Departure) -> Result<DepartureFault, Fail> {
    match departure_changes(&database(alloc, text)?, event) {
        Ok(_) => Err("not refused".into()),
        Err(fault) => Ok(fault),
    }
}
