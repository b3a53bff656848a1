//! Reading a dump.

ghost use Rattle.std.specs.Prelude.{◌≡◌, ◌≤◌, length, [], Ok, Some, None, IfOk, IfErr, Err, Result, option_map, All};
ghost use Rattle.lsdb.specs.KeyRanges.{HaveWidths};
ghost use Rattle.lsdb.specs.Limits.{most_lsas_of_as};
ghost use Rattle.lsdb.specs.Lists.{is_in_scope, limit_of, Lists, IsDatabase, size};
ghost use Rattle.lsdb.specs.Slots.{full, section_of, lists_of};
ghost use Rattle.lsdb.specs.steps.OneSection.{AreApart};
ghost use Rattle.lsdb.specs.steps.View.{head_of, section_slots_of, slots_of};
ghost use Rattle.lsdb.specs.Text.{text};
ghost use Rattle.lsdb.specs.steps.Reading.{at_of, Gives, Reads, IsMemoryAfter, reported_fault};
ghost use Rattle.lsdb.specs.Loading.{lsa_at, lsas_from, section_at, id_at, kind_at, area_at, areas_from, is_above, magic_at, version_at, area_count_at, sections_at, loaded, IsFirstFault, first_lsa_at, section_front_at, area_front_at, first_section_at, sections_front_at, front_loaded};

use crate::cursor::Cursor;
use crate::database::{Database, Head, SectionOf};
use crate::dump::{MAGIC, VERSION};
use crate::fault::{DumpFault, DumpFaultKind, ReadError};
use crate::keyed_slots::{KeyedSlots, key_of};
use crate::limits::{LONGEST_DUMP, MOST_AREAS, MOST_LSAS_OF_AREA, MOST_LSAS_OF_AS};
use crate::read::{advanced, fault, read_u8, read_u16, read_u32};
use lsa_codec::{AS_OPAQUE_LSA, AreaId, EXTERNAL_LSA, Key, Lsa, LsaFault};
use std::alloc::Allocator;
use std::collections::BTreeSet;

/// Whether an LSA with this key may stand in the section (RFC 2328, 12.2; RFC 5250 for type 11).
fn is_in_scope(area: Option<Head>, key: Key) -> bool
    ensures { result ≡ is_in_scope (option_map head_of area) key }
{
    let has_as_scope = key.kind == EXTERNAL_LSA || key.kind == AS_OPAQUE_LSA;
    has_as_scope == area.is_none()
}

/// How many LSAs the section may have.
fn limit_of(area: Option<Head>) -> u16
    ensures { result ≡ limit_of (option_map head_of area) }
{
    match area {
        Some(_) => MOST_LSAS_OF_AREA,
        None => MOST_LSAS_OF_AS,
    }
}

#[tactic(auto, unfolding(crate::specs::Loading::lsa_at))]
fn read_lsa<'a, A: Allocator + Copy>(
    alloc: A,
    area: Option<Head>,
    at: Cursor<'a>,
) -> Result<(Lsa<A>, Cursor<'a>), ReadError>
    ensures lsa { Gives (λ x. (x.0, at_of x.1))
        result (lsa_at (option_map head_of area) (at_of at.entry)) }
    ensures memory { IsMemoryAfter (first_lsa_at 1 (at_of at.entry)) result }
{
    match Lsa::decode(alloc, at.rest) {
        Err(LsaFault::OutOfMemory) => Err(ReadError::Memory),
        Err(lsa_fault) => Err(ReadError::Fault(fault(at, DumpFaultKind::Lsa(lsa_fault)))),
        Ok((lsa, size)) => {
            if !is_in_scope(area, lsa.key()) {
                return Err(ReadError::Fault(fault(at, DumpFaultKind::WrongSection)));
            }
            Ok((lsa, advanced(at, size)))
        }
    }
}

/// This number of LSAs, each at a slot of its own. The set of keys saves a search for each LSA.
fn read_lsas<'a, A: Allocator + Copy>(
    alloc: A,
    area: Option<Head>,
    count: u16,
    start: Cursor<'a>,
) -> Result<(Vec<Option<Lsa<A>>, A>, Cursor<'a>), ReadError>
    ensures lsas { Gives (λ x. (full x.0.items, at_of x.1))
        result (lsas_from (option_map head_of area) count [] (at_of start.entry)) }
    ensures apart { IfOk result (λ x. AreApart x.0.items) }
    ensures widths { IfOk result (λ x. All HaveWidths (full x.0.items)) }
    ensures few { IfOk result (λ x. length x.0.items ≤ most_lsas_of_as) }
    ensures memory { IsMemoryAfter (first_lsa_at count (at_of start.entry)) result }
{
    let mut slots = Vec::new(alloc);
    let mut keys = BTreeSet::new(alloc);
    let mut at = start;
    for _ in 0..count {
        let (lsa, after) = read_lsa(alloc, area, at)?;
        if !keys.insert(key_of(&lsa))? {
            return Err(ReadError::Fault(fault(at, DumpFaultKind::DuplicateLsa)));
        }
        slots.push(Some(lsa))?;
        at = after;
    }
    Ok((slots, at))
}

#[tactic(auto, unfolding(crate::specs::Loading::section_at, crate::specs::Loading::section_front_at))]
fn read_section<'a, A: Allocator + Copy>(
    alloc: A,
    area: Option<Head>,
    at: Cursor<'a>,
) -> Result<(SectionOf<A>, Cursor<'a>), ReadError>
    ensures section { Gives (λ x. (section_of (section_slots_of x.0), at_of x.1))
        result (section_at (option_map head_of area) (at_of at.entry)) }
    ensures memory { IsMemoryAfter
        (section_front_at (option_map head_of area) (at_of at.entry)) result }
{
    let (count, rest) = read_u16(at)?;
    if limit_of(area) < count {
        return Err(ReadError::Fault(fault(at, DumpFaultKind::TooManyLsas)));
    }
    let (slots, rest) = read_lsas(alloc, area, count, rest)?;
    let slots = KeyedSlots::of(alloc, slots)?;
    Ok((SectionOf { area, slots }, rest))
}

/// Whether an ID is above that of the area before.
fn is_above(id: u32, before: Option<Head>) -> bool
    ensures { result ≡ is_above id (option_map head_of before) }
{
    match before {
        None => true,
        Some(before) => before.id.0 < id,
    }
}

#[tactic(auto, unfolding(crate::specs::Loading::id_at))]
fn read_id<'a>(before: Option<Head>, at: Cursor<'a>) -> Result<(u32, Cursor<'a>), DumpFault>
    ensures { Reads (λ x. (x.0, at_of x.1))
        result (id_at (option_map head_of before) (at_of at.entry)) }
{
    let (id, rest) = read_u32(at)?;
    if !is_above(id, before) {
        return Err(fault(at, DumpFaultKind::AreaOrder));
    }
    Ok((id, rest))
}

/// Whether the area with that ID is a stub area.
#[tactic(auto, unfolding(crate::specs::Loading::kind_at))]
fn read_kind(id: u32, at: Cursor<'_>) -> Result<(bool, Cursor<'_>), DumpFault>
    ensures { Reads (λ x. (x.0, at_of x.1)) result (kind_at id (at_of at.entry)) }
{
    let (kind, rest) = read_u8(at)?;
    if 1 < kind {
        return Err(fault(at, DumpFaultKind::BadAreaKind));
    }
    if id == AreaId::BACKBONE.0 && kind == 1 {
        return Err(fault(at, DumpFaultKind::BackboneStub));
    }
    Ok((kind == 1, rest))
}

#[tactic(auto, using(crate::proofs::Fronts::any_id), unfolding(crate::specs::Loading::area_at, crate::specs::Loading::area_front_at))]
fn read_area<'a, A: Allocator + Copy>(
    alloc: A,
    before: Option<Head>,
    at: Cursor<'a>,
) -> Result<(SectionOf<A>, Cursor<'a>), ReadError>
    ensures area { Gives (λ x. (section_of (section_slots_of x.0), at_of x.1))
        result (area_at (option_map head_of before) (at_of at.entry)) }
    ensures memory { IsMemoryAfter (area_front_at (at_of at.entry)) result }
{
    let (id, rest) = read_id(before, at)?;
    let (is_stub, rest) = read_kind(id, rest)?;
    let area = Head {
        id: AreaId(id),
        is_stub,
    };
    read_section(alloc, Some(area), rest)
}

fn read_areas<'a, A: Allocator + Copy>(
    alloc: A,
    count: u8,
    start: Cursor<'a>,
) -> Result<(Vec<SectionOf<A>, A>, Cursor<'a>), ReadError>
    ensures areas { Gives (λ x. (lists_of (slots_of x.0.items), at_of x.1))
        result (areas_from count None [] (at_of start.entry)) }
    ensures memory { IsMemoryAfter (first_section_at count (at_of start.entry)) result }
{
    let mut areas = Vec::new(alloc);
    let mut before: Option<Head> = None;
    let mut at = start;
    for _ in 0..count {
        let (area, after) = read_area(alloc, before, at)?;
        before = area.area;
        areas.push(area)?;
        at = after;
    }
    Ok((areas, at))
}

#[tactic(auto, unfolding(crate::specs::Loading::magic_at))]
pub(crate) fn read_magic(at: Cursor<'_>) -> Result<Cursor<'_>, DumpFault>
    ensures { Reads at_of result (magic_at (at_of at.entry)) }
{
    let (found, rest) = read_u32(at)?;
    if found != MAGIC {
        return Err(fault(at, DumpFaultKind::BadMagic));
    }
    Ok(rest)
}

#[tactic(auto, unfolding(crate::specs::Loading::version_at))]
fn read_version(at: Cursor<'_>) -> Result<Cursor<'_>, DumpFault>
    ensures { Reads at_of result (version_at (at_of at.entry)) }
{
    let (found, rest) = read_u8(at)?;
    if found != VERSION {
        return Err(fault(at, DumpFaultKind::BadVersion));
    }
    Ok(rest)
}

#[tactic(auto, unfolding(crate::specs::Loading::area_count_at))]
fn read_area_count(at: Cursor<'_>) -> Result<(u8, Cursor<'_>), DumpFault>
    ensures { Reads (λ x. (x.0, at_of x.1)) result (area_count_at (at_of at.entry)) }
{
    let (count, rest) = read_u8(at)?;
    if MOST_AREAS < count {
        return Err(fault(at, DumpFaultKind::TooManyAreas));
    }
    Ok((count, rest))
}

/// The areas, and after them the LSAs of AS scope.
#[tactic(auto, unfolding(crate::specs::Loading::sections_at))]
pub(crate) fn read_sections<'a, A: Allocator + Copy>(
    alloc: A,
    at: Cursor<'a>,
) -> Result<(Vec<SectionOf<A>, A>, Cursor<'a>), ReadError>
    ensures sections { Gives (λ x. (lists_of (slots_of x.0.items), at_of x.1))
        result (sections_at (at_of at.entry)) }
    ensures memory { IsMemoryAfter (sections_front_at (at_of at.entry)) result }
{
    let (count, at) = read_area_count(at)?;
    let (mut sections, at) = read_areas(alloc, count, at)?;
    let (as_wide, at) = read_section(alloc, None, at)?;
    sections.push(as_wide)?;
    Ok((sections, at))
}

#[tactic(auto, unfolding(crate::specs::Loading::loaded, crate::specs::Loading::dump_at, crate::specs::Loading::front_loaded, crate::specs::Loading::front_at))]
fn read_dump<A: Allocator + Copy>(alloc: A, bytes: &[u8]) -> Result<Vec<SectionOf<A>, A>, ReadError>
    ensures sections { Gives (λ sections. lists_of (slots_of sections.items))
        result (loaded bytes.now) }
    ensures memory { IsMemoryAfter (front_loaded bytes.now) result }
{
    if LONGEST_DUMP < bytes.len() {
        return Err(ReadError::Fault(DumpFault {
            offset: 0,
            kind: DumpFaultKind::TooLarge,
        }));
    }
    let start = Cursor {
        offset: 0,
        rest: bytes,
    };
    let at = read_version(read_magic(start)?)?;
    let (sections, end) = read_sections(alloc, at)?;
    if !end.rest.is_empty() {
        return Err(ReadError::Fault(fault(end, DumpFaultKind::TrailingBytes)));
    }
    Ok(sections)
}

/// The fault that is reported of a failed reading.
pub(crate) fn dump_fault(error: ReadError) -> DumpFault
    ensures { result ≡ reported_fault error }
{
    match error {
        ReadError::Fault(fault) => fault,
        ReadError::Memory => DumpFault {
            offset: 0,
            kind: DumpFaultKind::OutOfMemory,
        },
    }
}

impl<A: Allocator + Copy> Database<A> {
    /// The database whose dump the bytes are.
    ///
    /// Of several faults the first from front to back is reported; `TooLarge` comes before all
    /// others, and `OutOfMemory` may stand in place of any that comes after the front: the magic,
    /// the version, the number of areas, and of the first section its head, its count and its first
    /// LSA.
    #[tactic(auto, using(crate::proofs::FirstFault::first_reported))]
    pub fn load(alloc: A, bytes: &[u8]) -> Result<Database<A>, DumpFault>
        // What is loaded is spelled so.
        ensures database { IfOk result (λ db. IsDatabase (lists_of db)) }
        ensures spelled { IfOk result (λ db. bytes.now ≡ text (lists_of db)) }

        // What is spelled so is loaded, unless memory runs out; else the first fault is reported.
        ensures found { IfOk result (λ db. loaded bytes.now ≡ Ok (lists_of db)) }
        ensures fault { IfErr result (λ fault. IsFirstFault fault (loaded bytes.now)) }

        // A fault of the front is reported whatever memory there is: none is asked for before.
        ensures front { (fault : DumpFault)
            → front_loaded bytes.now ≡ Err fault → result ≡ Err fault }
    {
        match read_dump(alloc, bytes) {
            Ok(sections) => Ok(Database::of_sections(alloc, sections, bytes.len())),
            Err(error) => Err(dump_fault(error)),
        }
    }
}

/// Laws of the text of a database.
pub fn text_laws()
    // Every database is loaded from its text.
    ensures complete { (db : Lists) → IsDatabase db → loaded (text db) ≡ Ok db }

    // Different databases have different texts.
    ensures one_text { (a b : Lists) → IsDatabase a → IsDatabase b → text a ≡ text b → a ≡ b }

    ensures length { (db : Lists) → length (text db) ≡ size db }
{}
