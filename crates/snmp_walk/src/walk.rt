//! What a walk contains.

ghost use Rattle.std.specs.Prelude.{◌≡◌, IfOk, IfErr, ◌⊎◌, true, false};
ghost use Rattle.std.specs.List.{filter_map, list_any};
ghost use Rattle.findings.specs.Contents.{lists_in};
ghost use Rattle.snmp_walk.specs.declared.fault.WalkFault.TheVariants as faults;
ghost use Rattle.snmp_walk.specs.Contents.{HasContent};
ghost use Rattle.snmp_walk.specs.ParsedObjects.{parsed_in};
ghost use Rattle.snmp_walk.specs.Sorting.{is_of_mib, part_of};

use crate::count::{fewer_in, put_fewer};
use crate::fault::WalkFault;
use crate::missing::{put_missing, rows_missing};
use crate::parsed_object::{ParsedObject, parse_all};
use findings::{Content, Finding, Part, sorted};
use std::alloc::{AllocError, Allocator};

/// The part of the content of a file that an object is, if it is one.
fn part_of<A: Allocator + Copy>(parsed: ParsedObject<A>) -> Option<Part<A>>
    ensures { result ≡ part_of parsed }
{
    match parsed {
        ParsedObject::Lsa(_, observation) => Some(Part::Lsa(observation)),
        ParsedObject::Kind(area) => Some(Part::Kind(area)),
        ParsedObject::Finding(finding) => Some(Part::Finding(finding)),
        ParsedObject::Row(_)
        | ParsedObject::Count(_, _)
        | ParsedObject::Nothing
        | ParsedObject::Foreign => None,
    }
}

/// Whether it belongs to the OSPF-MIB. A name that cannot be read does not count.
fn is_of_mib<A: Allocator + Copy>(parsed: &ParsedObject<A>) -> bool
    ensures { result ≡ is_of_mib parsed.now }
{
    match parsed {
        ParsedObject::Foreign => false,
        ParsedObject::Finding(Finding::UnreadableName) => false,
        _ => true,
    }
}

/// Whether an object of the OSPF-MIB is among them.
fn is_walk<A: Allocator + Copy>(parsed: &[ParsedObject<A>]) -> bool
    ensures { result ≡ list_any is_of_mib parsed.now }
{
    parsed.iter().any(|object| is_of_mib(object))
}

/// The parts that objects are.
fn parts_of<A: Allocator + Copy>(
    alloc: A,
    parsed: Vec<ParsedObject<A>, A>,
) -> Result<Vec<Part<A>, A>, AllocError>
    ensures { IfOk result (λ parts. parts.items ≡ filter_map part_of parsed.items) }
{
    parsed
        .into_iter()
        .filter_map(|object| part_of(object))
        .collect(alloc)
}

/// Reads a walk, as net-snmp prints it: the LSAs, which have no time stamps, the kinds of areas,
/// and what is missing or cannot be used.
///
/// # Errors
///
/// The text has no object of the OSPF-MIB, or memory ran out.
pub fn read_walk<A: Allocator + Copy>(alloc: A, text: &[u8]) -> Result<Content<A>, WalkFault>
    ensures content { IfOk result (λ content. HasContent text.now (lists_in content)) }
    ensures fault { IfErr result (λ fault. (fault ≡ faults.OutOfMemory)
        ⊎ ((fault ≡ faults.NotAWalk)
        × (list_any (is_of_mib {A = A}) (parsed_in text.now) ≡ false))) }
{
    let parsed = parse_all(alloc, text)?;
    if !is_walk(&parsed) {
        return Err(WalkFault::NotAWalk);
    }
    let missing = rows_missing(alloc, &parsed)?;
    let fewer = fewer_in(alloc, &parsed)?;
    let mut parts = parts_of(alloc, parsed)?;
    put_missing(&mut parts, &missing)?;
    put_fewer(&mut parts, &fewer)?;
    Ok(sorted(alloc, parts)?)
}
