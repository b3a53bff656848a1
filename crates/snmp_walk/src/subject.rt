//! What the objects of the OSPF-MIB are about (RFC 4750).

ghost use Rattle.std.specs.Prelude.{◌≡◌, IfOk};
ghost use Rattle.snmp_walk.specs.Subjects.{byte_of, address_of, key_in, as_row, area_row, row_subject, area_subject, entry_subject, scalar_subject, inner_subject, subject_of};

use crate::name::{arcs_after, head_of};
use crate::text::first_dot;
use findings::ReportedLsa;
use lsa_codec::{Addr, AreaId, Key, RouterId};
use std::alloc::{AllocError, Allocator};

/// What an object is about, by its name.
#[derive(Clone, Copy, Debug, PartialEq, Eq)]
pub(crate) enum Subject {
    /// The kind of this area: `ospfImportAsExtern`.
    Kind(AreaId),
    /// The bytes of this row's LSA.
    Bytes(ReportedLsa),
    /// Another column of this row.
    Column(ReportedLsa),
    /// The number of LSAs of this area, or, where there is none, of AS-external-LSAs:
    /// `ospfAreaLsaCount`, `ospfExternLsaCount`.
    Count(Option<AreaId>),
    /// Another object of the MIB.
    Other,
    /// The name, or the index in it, cannot be read.
    Unreadable,
    /// The object does not belong to this MIB.
    Foreign,
}

/// The byte that an arc is, where it is below 256.
fn byte_of(arc: u32) -> Option<u8>
    ensures { result ≡ byte_of arc }
{
    if arc < 256 { Some(arc as u8) } else { None }
}

/// The address whose bytes are these four arcs, the highest first.
#[tactic(auto, unfolding(crate::specs::Subjects::address_of))]
fn address_of(arcs: &[u32]) -> Option<u32>
    ensures { result ≡ address_of arcs.now }
{
    let [first, second, third, fourth] = arcs else {
        return None;
    };
    let first = byte_of(*first)?;
    let second = byte_of(*second)?;
    let third = byte_of(*third)?;
    let fourth = byte_of(*fourth)?;
    Some(u32::from_be_bytes([first, second, third, fourth]))
}

/// The key of an LSA: LS type, Link State ID and Advertising Router.
#[tactic(auto, unfolding(crate::specs::Subjects::key_in))]
fn key_in(index: &[u32]) -> Option<Key>
    ensures { result ≡ key_in index.now }
{
    let [arc, names @ ..] = index else {
        return None;
    };
    let kind = byte_of(*arc)?;
    let (id, adv) = names.split_at(names.len().min(4));
    let id = Addr(address_of(id)?);
    let adv = RouterId(address_of(adv)?);
    Some(Key { kind, id, adv })
}

/// The row of a table that is not of areas.
#[tactic(auto, unfolding(crate::specs::Subjects::as_row))]
fn as_row(index: &[u32]) -> Option<ReportedLsa>
    ensures { result ≡ as_row index.now }
{
    let key = key_in(index)?;
    Some(ReportedLsa { area: None, key })
}

/// The row of the table of the LSAs of areas.
#[tactic(auto, unfolding(crate::specs::Subjects::area_row))]
fn area_row(index: &[u32]) -> Option<ReportedLsa>
    ensures { result ≡ area_row index.now }
{
    let (area, key) = index.split_at(index.len().min(4));
    let area = AreaId(address_of(area)?);
    let key = key_in(key)?;
    Some(ReportedLsa {
        area: Some(area),
        key,
    })
}

/// The subject of a row's object: the column with this number has the bytes.
fn row_subject(bytes: u32, column: u32, row: Option<ReportedLsa>) -> Subject
    ensures { result ≡ row_subject bytes column row }
{
    match row {
        None => Subject::Unreadable,
        Some(row) => {
            if column == bytes {
                Subject::Bytes(row)
            } else {
                Subject::Column(row)
            }
        }
    }
}

/// The subject of an object in the row of an area.
fn area_subject(column: u32, index: &[u32]) -> Subject
    ensures { result ≡ area_subject column index.now }
{
    if column != 3 && column != 7 {
        return Subject::Other;
    }
    match address_of(index) {
        None => Subject::Unreadable,
        Some(area) => {
            if column == 3 {
                Subject::Kind(AreaId(area))
            } else {
                Subject::Count(Some(AreaId(area)))
            }
        }
    }
}

/// The subject of an object in a row of a table.
fn entry_subject(table: u32, column: u32, index: &[u32]) -> Subject
    ensures { result ≡ entry_subject table column index.now }
{
    if table == 4 {
        return row_subject(8, column, area_row(index));
    }
    if table == 12 {
        return row_subject(7, column, as_row(index));
    }
    if table == 19 {
        return row_subject(7, column, as_row(index));
    }
    if table == 2 {
        return area_subject(column, index);
    }
    Subject::Other
}

/// The subject of an object that is no row of a table, by its group, its number in that, and what
/// follows it: `ospfExternLsaCount.0` is 1.6.0.
fn scalar_subject(group: u32, object: u32, instance: u32, index: &[u32]) -> Subject
    ensures { result ≡ scalar_subject group object instance index.now }
{
    if group == 1 && object == 6 && instance == 0 && index.is_empty() {
        Subject::Count(None)
    } else {
        Subject::Other
    }
}

/// The subject of an object of the MIB, by the arcs after that of the MIB.
#[tactic(auto, unfolding(crate::specs::Subjects::inner_subject))]
fn inner_subject(arcs: &[u32]) -> Subject
    ensures { result ≡ inner_subject arcs.now }
{
    let [table, entry, column, index @ ..] = arcs else {
        return Subject::Other;
    };
    if *entry == 1 {
        entry_subject(*table, *column, index)
    } else {
        scalar_subject(*table, *entry, *column, index)
    }
}

/// OSPF in MIB-2.
const OSPF: &[u32] = &[1, 3, 6, 1, 2, 1, 14];

/// What an object of this name is about.
pub(crate) fn subject_of<A: Allocator + Copy>(alloc: A, name: &[u8]) -> Result<Subject, AllocError>
    ensures { IfOk result (λ subject. subject ≡ subject_of name.now) }
{
    let Some(end) = first_dot(name) else {
        return Ok(Subject::Foreign);
    };
    let Some(front) = head_of(alloc, &name[..end])? else {
        return Ok(Subject::Foreign);
    };
    let Some(arcs) = arcs_after(front, &name[end + 1..])? else {
        return Ok(Subject::Unreadable);
    };
    match arcs.as_slice().strip_prefix(OSPF) {
        None => Ok(Subject::Foreign),
        Some(inner) => Ok(inner_subject(inner)),
    }
}
