//! What one object of a walk contains.

ghost use Rattle.std.specs.Prelude.{◌≡◌, IfOk, OnOk, ◌++◌, List, ℕ};
ghost use Rattle.snmp_walk.specs.ParsedObjects.{same_key, parsed_kind, placed, parsed_lsa, parsed_bytes, parsed_column, parsed_count, parsed_absent, parsed_by, parsed_in};
ghost use Rattle.snmp_walk.specs.steps.ParsedLines.{parsed_at, parsed_after};

use crate::object::object_at;
use crate::subject::{Subject, subject_of};
use crate::value::{bytes_in, count_in, is_absent, is_end_of_view, kind_in};
use findings::{Finding, ReportedLsa, UnusedReason};
use lsa_codec::{AreaId, Key, Lsa, LsaFault};
use lsa_instances::{AreaReport, Observation, Scope};
use std::alloc::{AllocError, Allocator};

/// What an object contains.
#[derive(Debug, Drop)]
pub(crate) enum ParsedObject<A: Allocator> {
    /// The LSA of a row.
    Lsa(ReportedLsa, Observation<A>),
    /// The kind of an area.
    Kind(AreaReport),
    /// What is missing.
    Finding(Finding),
    /// Another column of a row.
    Row(ReportedLsa),
    /// The number of LSAs that the router has of this area, or, where there is none, of
    /// AS-external-LSAs.
    Count(Option<AreaId>, u32),
    /// An object of the MIB that is not needed here.
    Nothing,
    /// An object of another MIB.
    Foreign,
}

/// Whether two keys are the same.
fn same_key(a: Key, b: Key) -> bool
    ensures { result ≡ same_key a b }
{
    a == b
}

/// The kind of area in a value of `ospfImportAsExtern`.
fn parsed_kind<A: Allocator + Copy>(area: AreaId, value: &[u8]) -> ParsedObject<A>
    ensures { result ≡ parsed_kind area value.now }
{
    if is_end_of_view(value) {
        return ParsedObject::Nothing;
    }
    match kind_in(value) {
        Some(kind) => ParsedObject::Kind(AreaReport { id: area, kind }),
        None => ParsedObject::Finding(Finding::UnreadableKind(area)),
    }
}

/// The LSA of a row, in its scope.
fn placed<A: Allocator + Copy>(row: ReportedLsa, lsa: Lsa<A>) -> ParsedObject<A>
    ensures { result ≡ placed row lsa }
{
    if !same_key(lsa.key(), row.key) {
        return ParsedObject::Finding(Finding::Unused(row, UnusedReason::OtherKey(lsa.key())));
    }
    match Scope::of(row.key.kind, row.area) {
        None => ParsedObject::Finding(Finding::Unused(row, UnusedReason::NoArea)),
        Some(scope) => ParsedObject::Lsa(
            row,
            Observation {
                scope,
                seen: None,
                lsa,
            },
        ),
    }
}

/// What the bytes of a row contain.
fn parsed_lsa<A: Allocator + Copy>(
    alloc: A,
    row: ReportedLsa,
    bytes: &[u8],
) -> Result<ParsedObject<A>, AllocError>
    ensures { IfOk result (λ parsed. parsed ≡ parsed_lsa row bytes.now) }
{
    match Lsa::decode(alloc, bytes) {
        Ok((lsa, length)) => {
            if length == bytes.len() {
                Ok(placed(row, lsa))
            } else {
                Ok(ParsedObject::Finding(Finding::Unused(row, UnusedReason::Longer)))
            }
        }
        Err(LsaFault::OutOfMemory) => Err(AllocError),
        Err(fault) => Ok(ParsedObject::Finding(Finding::Unused(row, UnusedReason::Refused(fault)))),
    }
}

/// What the column with the bytes contains.
fn parsed_bytes<A: Allocator + Copy>(
    alloc: A,
    row: ReportedLsa,
    value: &[u8],
) -> Result<ParsedObject<A>, AllocError>
    ensures { IfOk result (λ parsed. parsed ≡ parsed_bytes row value.now) }
{
    if is_end_of_view(value) {
        return Ok(ParsedObject::Nothing);
    }
    match bytes_in(alloc, value)? {
        Some(bytes) => parsed_lsa(alloc, row, &bytes),
        None => Ok(ParsedObject::Finding(Finding::Unused(row, UnusedReason::NotOctets))),
    }
}

/// What another column of a row contains.
fn parsed_column<A: Allocator + Copy>(row: ReportedLsa, value: &[u8]) -> ParsedObject<A>
    ensures { result ≡ parsed_column row value.now }
{
    if is_end_of_view(value) {
        ParsedObject::Nothing
    } else {
        ParsedObject::Row(row)
    }
}

/// What a value of a count contains.
fn parsed_count<A: Allocator + Copy>(area: Option<AreaId>, value: &[u8]) -> ParsedObject<A>
    ensures { result ≡ parsed_count area value.now }
{
    match count_in(value) {
        Some(count) => ParsedObject::Count(area, count),
        None => ParsedObject::Nothing,
    }
}

/// What an object contains that the agent does not have.
fn parsed_absent<A: Allocator + Copy>(subject: Subject) -> ParsedObject<A>
    ensures { result ≡ parsed_absent subject }
{
    match subject {
        Subject::Foreign => ParsedObject::Foreign,
        _ => ParsedObject::Finding(Finding::NoSuchObject),
    }
}

/// What an object contains.
fn parsed_by<A: Allocator + Copy>(
    alloc: A,
    name: &[u8],
    value: &[u8],
) -> Result<ParsedObject<A>, AllocError>
    ensures { IfOk result (λ parsed. parsed
        ≡ parsed_by (record { name = name.now; value = value.now })) }
{
    let subject = subject_of(alloc, name)?;
    if is_absent(value) {
        return Ok(parsed_absent(subject));
    }
    match subject {
        Subject::Kind(area) => Ok(parsed_kind(area, value)),
        Subject::Bytes(row) => parsed_bytes(alloc, row, value),
        Subject::Column(row) => Ok(parsed_column(row, value)),
        Subject::Count(area) => Ok(parsed_count(area, value)),
        Subject::Other => Ok(ParsedObject::Nothing),
        Subject::Unreadable => Ok(ParsedObject::Finding(Finding::UnreadableName)),
        Subject::Foreign => Ok(ParsedObject::Foreign),
    }
}

/// Adds what the object contains that begins here, at the start of a line.
#[tactic(auto, unfolding(crate::specs::steps::ParsedLines::parsed_at))]
fn parse_line<A: Allocator + Copy>(
    alloc: A,
    parsed: &mut Vec<ParsedObject<A>, A>,
    line: &[u8],
) -> Result<(), AllocError>
    ensures { OnOk result (parsed.new.items ≡ parsed.old.items ++ parsed_at line.now) }
{
    match object_at(line) {
        Some(object) => {
            parsed.push(parsed_by(alloc, object.name, object.value)?)?;
            Ok(())
        }
        None => Ok(()),
    }
}

/// Adds what the object contains that begins after the line feed here, if it is one.
#[tactic(auto, unfolding(crate::specs::steps::ParsedLines::parsed_after))]
fn parse_line_after<A: Allocator + Copy>(
    alloc: A,
    parsed: &mut Vec<ParsedObject<A>, A>,
    text: &[u8],
) -> Result<(), AllocError>
    ensures { OnOk result (parsed.new.items ≡ parsed.old.items ++ parsed_after text.now) }
{
    match text {
        [b'\n', line @ ..] => parse_line(alloc, parsed, line),
        _ => Ok(()),
    }
}

/// What each object of a walk contains.
#[tactic(auto, using(crate::proofs::ParsedObjects::parsed_first, crate::proofs::ParsedObjects::parsed_next, crate::proofs::ParsedObjects::parsed_all))]
pub(crate) fn parse_all<A: Allocator + Copy>(
    alloc: A,
    text: &[u8],
) -> Result<Vec<ParsedObject<A>, A>, AllocError>
    ensures { IfOk result (λ parsed. parsed.items ≡ parsed_in text.now) }
{
    let mut parsed = Vec::new(alloc);
    parse_line(alloc, &mut parsed, text)?;
    for index in 0..text.len() {
        parse_line_after(alloc, &mut parsed, &text[index..])?;
    }
    Ok(parsed)
}
