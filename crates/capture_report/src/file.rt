//! The findings in a file.

ghost use Rattle.std.specs.Prelude.{◌≡◌, ◌++◌, IfOk, OnOk};
ghost use Rattle.std.specs.List.{filter_map, list_any};
ghost use Rattle.capture_report.specs.FileFindings.{AreFileFindings, empty_finding, has_nothing, is_document, is_not_read, reported_nssa};

use crate::each::put_each;
use crate::sets::once;
use findings::Finding;
use lsa_codec::AreaId;
use lsa_instances::{AreaKind, AreaReport};
use network_files::{FileKind, ParsedFile};
use std::alloc::{AllocError, Allocator};

/// The area, if it is reported to be not-so-stubby.
fn reported_nssa(area: AreaReport) -> Option<AreaId>
    ensures { result ≡ reported_nssa area }
{
    match area.kind {
        AreaKind::Ordinary | AreaKind::Stub => None,
        AreaKind::Nssa => Some(area.id),
    }
}

/// The areas that are reported to be not-so-stubby, one for each report.
fn reported_nssas<A: Allocator + Copy>(
    alloc: A,
    areas: &[AreaReport],
) -> Result<Vec<AreaId, A>, AllocError>
    ensures { IfOk result (λ nssas. nssas.items ≡ filter_map reported_nssa areas.now) }
{
    areas
        .iter()
        .filter_map(|area| reported_nssa(*area))
        .collect(alloc)
}

/// Whether LSAs of types that are not read are reported.
fn is_not_read(finding: Finding) -> bool
    ensures { result ≡ is_not_read finding }
{
    matches!(finding, Finding::NotRead(_, _))
}

/// Whether the databases of a router are named in a file of this kind, though they may be empty.
fn is_document(kind: FileKind) -> bool
    ensures { result ≡ is_document kind }
{
    match kind {
        FileKind::Json => true,
        FileKind::Capture | FileKind::Printed | FileKind::Walk => false,
    }
}

/// Whether some finding is about LSAs of types that are not read.
fn has_others(findings: &[Finding]) -> bool
    ensures { result ≡ list_any is_not_read findings.now }
{
    findings.iter().any(|finding| is_not_read(*finding))
}

/// Whether a file has neither an LSA nor the kind of an area nor a header of an LSA, and none of
/// types that are not read.
fn has_nothing<A: Allocator + Copy>(file: &ParsedFile<A>) -> bool
    ensures { result ≡ has_nothing file.now }
{
    file.observations.is_empty()
        && file.areas.is_empty()
        && file.headers.is_empty()
        && !has_others(&file.findings)
}

/// Adds the finding that a file contains nothing, unless it is a document that says so.
fn put_empty<A: Allocator + Copy>(
    findings: &mut Vec<Finding, A>,
    file: &ParsedFile<A>,
) -> Result<(), AllocError>
    ensures { OnOk result (findings.new.items ≡ findings.old.items ++ empty_finding file.now) }
{
    if has_nothing(file) && !is_document(file.kind) {
        findings.push(Finding::Empty)?;
    }
    Ok(())
}

/// The findings in a file: what cannot be used in it, or is missing; that it contains nothing; and
/// after that the areas that it reports to be not-so-stubby, each once, in rising order.
///
/// # Errors
///
/// Memory ran out.
pub fn file_findings<A: Allocator + Copy>(
    alloc: A,
    file: &ParsedFile<A>,
) -> Result<Vec<Finding, A>, AllocError>
    ensures { IfOk result (λ findings. AreFileFindings file.now findings.items) }
{
    let all = reported_nssas(alloc, &file.areas)?;
    let nssas = once(alloc, &all)?;
    let mut findings = Vec::from_slice(alloc, &file.findings)?;
    put_empty(&mut findings, file)?;
    put_each(&mut findings, &nssas, |area| Finding::Nssa(area))?;
    Ok(findings)
}
