//! What a file contains, sorted by kind.

ghost use Rattle.std.specs.Prelude.{◌≡◌, IfOk};
ghost use Rattle.std.specs.List.{filter_map};
ghost use Rattle.findings.specs.Contents.{content_of, header_of, kind_of, lists_in, observation_of};

use crate::finding::Finding;
use crate::part::Part;
use crate::reporting::findings_of;
use lsa_instances::{AreaReport, Header, Observation};
use std::alloc::{AllocError, Allocator, Global};

/// What a file contains, whatever its format: each kind of its parts in the order of the file.
#[derive(Debug, Drop)]
pub struct Content<A: Allocator = Global> {
    /// The LSAs, byte for byte.
    pub observations: Vec<Observation<A>, A>,
    /// The areas and their kinds, one for each report.
    pub kinds: Vec<AreaReport, A>,
    /// The headers of LSAs that stand without their bodies.
    pub headers: Vec<Header, A>,
    /// What cannot be used, or is missing: warnings about frames, each reason once, with their
    /// number; then what is reported one by one; and then the number of LSAs and rows whose fields
    /// cannot be read, unless it is 0.
    pub findings: Vec<Finding, A>,
}

/// The LSA, if it is one.
fn observation_of<A: Allocator + Copy>(part: Part<A>) -> Option<Observation<A>>
    ensures { result ≡ observation_of part }
{
    match part {
        Part::Lsa(observation) => Some(observation),
        _ => None,
    }
}

/// The kind of an area, if it is one.
fn kind_of<A: Allocator + Copy>(part: &Part<A>) -> Option<AreaReport>
    ensures { result ≡ kind_of part.now }
{
    match part {
        Part::Kind(area) => Some(*area),
        _ => None,
    }
}

/// The header of an LSA, if it is one.
fn header_of<A: Allocator + Copy>(part: &Part<A>) -> Option<Header>
    ensures { result ≡ header_of part.now }
{
    match part {
        Part::Header(header) => Some(*header),
        _ => None,
    }
}

/// The LSAs.
fn observations_of<A: Allocator + Copy>(
    alloc: A,
    parts: Vec<Part<A>, A>,
) -> Result<Vec<Observation<A>, A>, AllocError>
    ensures { IfOk result (λ observations. observations.items
        ≡ filter_map observation_of parts.items) }
{
    parts
        .into_iter()
        .filter_map(|part| observation_of(part))
        .collect(alloc)
}

/// The kinds of areas.
fn kinds_of<A: Allocator + Copy>(
    alloc: A,
    parts: &[Part<A>],
) -> Result<Vec<AreaReport, A>, AllocError>
    ensures { IfOk result (λ kinds. kinds.items ≡ filter_map kind_of parts.now) }
{
    parts.iter().filter_map(|part| kind_of(part)).collect(alloc)
}

/// The headers of LSAs.
fn headers_of<A: Allocator + Copy>(
    alloc: A,
    parts: &[Part<A>],
) -> Result<Vec<Header, A>, AllocError>
    ensures { IfOk result (λ headers. headers.items ≡ filter_map header_of parts.now) }
{
    parts
        .iter()
        .filter_map(|part| header_of(part))
        .collect(alloc)
}

/// What a file with these parts contains.
///
/// # Errors
///
/// Memory ran out.
#[tactic(auto, unfolding(crate::specs::Contents::content_of))]
pub fn sorted<A: Allocator + Copy>(
    alloc: A,
    parts: Vec<Part<A>, A>,
) -> Result<Content<A>, AllocError>
    ensures { IfOk result (λ content. lists_in content ≡ content_of parts.items) }
{
    let kinds = kinds_of(alloc, &parts)?;
    let headers = headers_of(alloc, &parts)?;
    let findings = findings_of(alloc, &parts)?;
    let observations = observations_of(alloc, parts)?;
    Ok(Content {
        observations,
        kinds,
        headers,
        findings,
    })
}
