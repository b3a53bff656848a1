//! Readers, slots and copies of one database.

ghost use Rattle.std.specs.Prelude.{◌≡◌, IsSome};
ghost use Rattle.lsdb.specs.Slots.{slot_at};

use lsa_codec::{Addr, AreaId, Key, Lsa, RouterId};
use lsdb::{Database, Section, SlotFault, SlotId};
use std::alloc::Global;
use std::test::*;

/// Area 0.0.0.0 with the router-LSAs of 1.1.1.1 and 2.2.2.2, the stub area 0.0.0.1 with the
/// summary-LSA of 2.2.2.2 for 10.8.0.0/16, and its AS-external-LSA for 10.9.0.0/16.
const DUMP: &[u8] = &[
    0x4f, 0x53, 0x57, 0x50, 1, 2, 0, 0, 0, 0, 0, 0, 2, 0x00, 0x01, 0x02, 0x01, 1, 1, 1, 1, 1, 1, 1,
    1, 0x80, 0, 0, 1, 0xd5, 0x5a, 0, 0x24, 0, 0, 0, 1, 2, 2, 2, 2, 0x0a, 0, 0, 1, 1, 0, 0, 0x0a,
    0x00, 0x01, 0x02, 0x01, 2, 2, 2, 2, 2, 2, 2, 2, 0x80, 0, 0, 1, 0x62, 0xa7, 0, 0x30, 0, 0, 0, 2,
    1, 1, 1, 1, 0x0a, 0, 0, 2, 1, 0, 0, 0x0a, 0x0a, 2, 0, 0, 0xff, 0xff, 0, 0, 3, 0, 0, 5, 0, 0, 0,
    1, 1, 0, 1, 0x00, 0x01, 0x00, 0x03, 0x0a, 8, 0, 0, 2, 2, 2, 2, 0x80, 0, 0, 1, 0xb0, 0x8d, 0,
    0x1c, 0xff, 0xff, 0, 0, 0, 0, 0, 7, 0, 1, 0x00, 0x01, 0x02, 0x05, 0x0a, 9, 0, 0, 2, 2, 2, 2,
    0x80, 0, 0, 1, 0x80, 0x23, 0, 0x24, 0xff, 0xff, 0, 0, 0x80, 0, 0, 0x14, 0, 0, 0, 0, 0, 0, 0, 0,
];

const BACKBONE: Section = Section::Area(AreaId(0));

const STUB: Section = Section::Area(AreaId(1));

const ABSENT: Section = Section::Area(AreaId(7));

/// The key of the router-LSA of 2.2.2.2.
const SECOND_ROUTER: Key = Key {
    kind: 1,
    id: Addr(0x02020202),
    adv: RouterId(0x02020202),
};

/// The bytes of `DUMP`. This has no clauses, so that the prover knows nothing of them.
fn dump() -> &'static [u8] {
    DUMP
}

fn loaded(alloc: Global) -> Result<Database, Fail> {
    Ok(Database::load(alloc, dump())?)
}

/// Whether the dump of a database is `DUMP`.
fn is_dumped(database: &Database) -> Result<bool, Fail> {
    Ok(database.dump()?.as_slice() == DUMP)
}

/// The size of a database, and its sections: the IDs and kinds of areas, and how many LSAs.
fn sections_text(alloc: Global, database: &Database) -> Result<String, Fail> {
    let size = database.size();
    let mut text = format!(in alloc; "size {size}")?;
    for index in 0..database.section_count() {
        let count = database.count_in(index);
        match database.area_in(index) {
            Some((id, stub)) => text.push_str(&format!(in alloc; ", {id} stub={stub} {count}")?)?,
            None => text.push_str(&format!(in alloc; ", as {count}")?)?,
        }
    }
    Ok(text)
}

/// The IDs and kinds of the areas of a database.
fn areas_text(alloc: Global, database: &Database) -> Result<String, Fail> {
    let mut text = String::new(alloc);
    for index in 0..database.area_count() {
        let (id, stub) = database.area(index);
        text.push_str(&format!(in alloc; "{id} stub={stub};")?)?;
    }
    Ok(text)
}

#[test]
fn reads_the_areas(rt: HostRuntime) -> Result<(), Fail> {
    let database = loaded(rt.alloc())?;
    let text = sections_text(rt.alloc(), &database)?;
    assert_eq!(rt;
        text.as_str(),
        "size 170, 0.0.0.0 stub=false 2, 0.0.0.1 stub=true 1, as 1"
    );
    let text = areas_text(rt.alloc(), &database)?;
    assert_eq!(rt; text.as_str(), "0.0.0.0 stub=false;0.0.0.1 stub=true;");
    Ok(())
}

/// Sections, their numbers, where their LSAs stand in `DUMP`, and the slot of the router-LSA of
/// 2.2.2.2 among them.
const SECTIONS: &[(Section, Option<usize>, &[(usize, usize)], Option<SlotId>)] = &[
    (
        BACKBONE,
        Some(0),
        &[(13, 49), (49, 97)],
        Some(SlotId {
            section: 0,
            index: 1,
        }),
    ),
    (STUB, Some(1), &[(104, 132)], None),
    (Section::AsWide, Some(2), &[(134, 170)], None),
    (ABSENT, None, &[], None),
];

/// Whether a section has these LSAs, in this order and by these numbers.
fn has_lsas(database: &Database, section: Section, slots: &[(usize, usize)]) -> bool {
    let mut lsas = database.lsas(section);
    for (number, (from, to)) in slots.iter().enumerate() {
        let bytes = DUMP.get(*from..*to);
        if lsas.next().map(|lsa| lsa.bytes()) != bytes
            || number >= database.count(section)
            || Some(database.lsa(section, number).bytes()) != bytes
        {
            return false;
        }
    }
    lsas.next().is_none() && database.count(section) == slots.len()
}

/// The bytes of the LSA at a slot.
fn bytes_at(database: &Database, section: usize, index: usize) -> Option<&[u8]> {
    database
        .get(SlotId { section, index })
        .map(|lsa| lsa.bytes())
}

#[test]
fn reads_sections_and_slots(rt: HostRuntime) -> Result<(), Fail> {
    let database = loaded(rt.alloc())?;
    for (number, (section, index, slots, found)) in SECTIONS.iter().enumerate() {
        assert_eq!(rt; database.index_of(*section), *index, "section {number}");
        assert!(rt; has_lsas(&database, *section, slots), "section {number}");
        let slot = database.find(*section, SECOND_ROUTER);
        assert_eq!(rt; slot, *found, "section {number}");
    }
    assert_eq!(rt; bytes_at(&database, 0, 1), DUMP.get(49..97));
    assert!(rt; bytes_at(&database, 0, 2).is_none());
    assert!(rt; bytes_at(&database, 3, 0).is_none());
    Ok(())
}

/// What is seen of a database while a slot is empty: its size and the LSAs of the backbone. The
/// LSA is put back at the end.
fn seen_without(database: &mut Database, slot: SlotId) -> (usize, usize, bool)
    requires { IsSome (slot_at database.old slot) }
    ensures { database.new ≡ database.old }
{
    let mut content: Option<Lsa> = None;
    // That it is a database has to hold after each of the two swaps.
    database.assert_valid();
    database.swap(slot, &mut content);
    let seen = (
        database.size(),
        database.count(BACKBONE),
        database.get(slot).is_none(),
    );
    database.swap(slot, &mut content);
    seen
}

#[test]
fn removes_and_puts_back(rt: HostRuntime) -> Result<(), Fail> {
    let mut database = loaded(rt.alloc())?;
    let slot = database.find(BACKBONE, SECOND_ROUTER).ok_or("a slot")?;
    assert_eq!(rt; seen_without(&mut database, slot), (122, 1, true));
    assert_eq!(rt; database.size(), 170);
    assert!(rt; is_dumped(&database)?);
    Ok(())
}

/// The slot that is opened in a section, and whether it is empty.
fn opened(database: &mut Database, section: Section) -> Result<(usize, usize, bool), SlotFault> {
    let slot = database.open_slot(section)?;
    Ok((slot.section, slot.index, database.get(slot).is_none()))
}

/// Sections, and the slots that are opened in them.
const OPENED: &[(Section, Result<(usize, usize, bool), SlotFault>)] = &[
    (STUB, Ok((1, 1, true))),
    (ABSENT, Err(SlotFault::NoArea)),
    (BACKBONE, Ok((0, 2, true))),
];

/// Empty slots are no LSAs of the database or of a copy of it.
#[test]
fn opens_slots_and_copies(rt: HostRuntime) -> Result<(), Fail> {
    let mut database = loaded(rt.alloc())?;
    for (number, (section, slot)) in OPENED.iter().enumerate() {
        assert_eq!(rt; opened(&mut database, *section), *slot, "section {number}");
    }
    assert_eq!(rt; database.count(STUB), 1);
    assert!(rt; is_dumped(&database)?);
    let copy = database.clone_of()?;
    assert_eq!(rt; copy.size(), 170);
    assert!(rt; is_dumped(&copy)?);
    Ok(())
}
