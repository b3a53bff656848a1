//! What calls answer, as bytes that say all of it.

use crate::tests::contents::has;
use crate::tests::documents::pieces::LINKS_BYTES;
use capture_files::{Capture, CaptureFault};
use findings::Content;
use frr_json::JsonFault;
use lsa_codec::AreaId;
use lsa_instances::{AreaReport, Header, Observation, Scope};
use lsdb::Database;
use lsdb_listing::{Difference, ListFault, PrintedList};
use lsdb_merge::JoinFault;
use network_files::{FileFault, ParsedFile};
use snmp_walk::WalkFault;
use std::alloc::{AllocError, Global};
use std::fmt::Debug;
use std::test::*;
use test_support::{Answer, FailingAlloc};

/// Adds observations: what names each, when it was seen, and its bytes.
fn push_observations(
    text: &mut String,
    observations: &[Observation<&FailingAlloc>],
) -> Result<(), Fail> {
    for observation in observations {
        let (place, seen, bytes) = (
            observation.place(),
            observation.seen,
            observation.lsa.bytes(),
        );
        write!(text, "{place} {seen:?} {bytes:?}\n")?;
    }
    Ok(())
}

/// Adds the kinds of areas.
fn push_kinds(text: &mut String, kinds: &[AreaReport]) -> Result<(), Fail> {
    for area in kinds {
        let (id, kind) = (area.id, area.kind);
        write!(text, "{id} {kind:?}\n")?;
    }
    Ok(())
}

/// Adds headers: what names each, and which instance it is of.
fn push_headers(text: &mut String, headers: &[Header]) -> Result<(), Fail> {
    for header in headers {
        let (place, age) = (header.place, header.age);
        let (sequence, checksum) = (header.instance.sequence, header.instance.checksum);
        write!(text, "{place} {age} {sequence} {checksum}\n")?;
    }
    Ok(())
}

/// Findings, whatever they are of, and what files contain beside them.
fn contents_of<F: Debug>(
    alloc: Global,
    findings: &F,
    observations: &[Observation<&FailingAlloc>],
    kinds: &[AreaReport],
    headers: &[Header],
) -> Result<Answer, Fail> {
    let mut text = format!(in alloc; "{findings:?}\n")?;
    push_observations(&mut text, observations)?;
    push_kinds(&mut text, kinds)?;
    push_headers(&mut text, headers)?;
    Ok(Some(text.into_bytes()))
}

/// The frames of a capture, and how it ends.
fn capture_text(alloc: Global, capture: &Capture<'_, &FailingAlloc>) -> Result<String, Fail> {
    let (frames, end) = (capture.frames.as_slice(), capture.end);
    Ok(format!(in alloc; "{frames:?} {end:?}")?)
}

/// The answer that is a capture.
pub(super) fn of_capture(
    alloc: Global,
    capture: Result<Capture<'_, &FailingAlloc>, CaptureFault>,
) -> Result<Answer, Fail> {
    match capture {
        Ok(capture) => Ok(Some(capture_text(alloc, &capture)?.into_bytes())),
        Err(CaptureFault::OutOfMemory) => Ok(None),
        Err(fault) => Err(fault)?,
    }
}

/// The answer that is what a file contains, whatever its format.
fn of_contents(alloc: Global, content: &Content<&FailingAlloc>) -> Result<Answer, Fail> {
    contents_of(
        alloc,
        &content.findings.as_slice(),
        &content.observations,
        &content.kinds,
        &content.headers,
    )
}

/// The same, of frames or of what a router prints as a text.
pub(super) fn of_content(
    alloc: Global,
    content: Result<Content<&FailingAlloc>, AllocError>,
) -> Result<Answer, Fail> {
    match content {
        Ok(content) => of_contents(alloc, &content),
        Err(AllocError) => Ok(None),
    }
}

/// The same, of a walk.
pub(super) fn of_walk(
    alloc: Global,
    walk: Result<Content<&FailingAlloc>, WalkFault>,
) -> Result<Answer, Fail> {
    match walk {
        Ok(walk) => of_contents(alloc, &walk),
        Err(WalkFault::OutOfMemory) => Ok(None),
        Err(fault) => Err(fault)?,
    }
}

/// The same, of a document of one LSA. A document that contains something else is a failure.
pub(super) fn of_document(
    alloc: Global,
    printed: Result<Content<&FailingAlloc>, JsonFault>,
) -> Result<Answer, Fail> {
    match printed {
        Ok(printed) => {
            if !has(&printed, &[(Scope::Area(AreaId(1)), LINKS_BYTES)], &[], &[]) {
                return Err("another document")?;
            }
            of_contents(alloc, &printed)
        }
        Err(JsonFault::OutOfMemory) => Ok(None),
        Err(fault) => Err(fault)?,
    }
}

/// The answer that is what a file contains.
pub(super) fn of_file(
    alloc: Global,
    file: Result<ParsedFile<&FailingAlloc>, FileFault>,
) -> Result<Answer, Fail> {
    match file {
        Ok(file) => contents_of(
            alloc,
            &(file.kind, file.findings.as_slice()),
            &file.observations,
            &file.areas,
            &file.headers,
        ),
        Err(FileFault::OutOfMemory) => Ok(None),
        Err(fault) => Err(fault)?,
    }
}

/// The answer that is a list.
pub(super) fn of_list(
    alloc: Global,
    list: Result<PrintedList<&FailingAlloc>, ListFault>,
) -> Result<Answer, Fail> {
    match list {
        Ok(list) => contents_of(alloc, &list.findings.as_slice(), &[], &[], &list.headers),
        Err(ListFault::OutOfMemory) => Ok(None),
        Err(fault) => Err(fault)?,
    }
}

/// The answer that is differences from a list.
pub(super) fn of_differences(
    alloc: Global,
    differences: Result<Vec<Difference, &FailingAlloc>, AllocError>,
) -> Result<Answer, Fail> {
    match differences {
        Ok(differences) => contents_of(alloc, &differences.as_slice(), &[], &[], &[]),
        Err(AllocError) => Ok(None),
    }
}

/// The answer that is lines.
pub(super) fn of_lines(
    alloc: Global,
    lines: Result<String<&FailingAlloc>, AllocError>,
) -> Result<Answer, Fail> {
    match lines {
        Ok(lines) => Ok(Some(Vec::from_slice(alloc, lines.as_bytes())?)),
        Err(AllocError) => Ok(None),
    }
}

/// The answer that is observations.
pub(super) fn of_observations(
    alloc: Global,
    observations: Result<Vec<Observation<&FailingAlloc>, &FailingAlloc>, AllocError>,
) -> Result<Answer, Fail> {
    match observations {
        Ok(observations) => contents_of(alloc, &"", &observations, &[], &[]),
        Err(AllocError) => Ok(None),
    }
}

/// The dump of a database.
fn dump_of(alloc: Global, database: &Database<&FailingAlloc>) -> Result<Vec<u8>, Fail> {
    Ok(Vec::from_slice(alloc, &database.dump()?)?)
}

/// The answer that is a database. There is ample memory for its dump, and from then on.
pub(super) fn of_database(
    alloc: Global,
    failing: &FailingAlloc,
    database: Result<Database<&FailingAlloc>, JoinFault>,
) -> Result<Answer, Fail> {
    match database {
        Ok(database) => {
            failing.set_remaining(u64::MAX);
            Ok(Some(dump_of(alloc, &database)?))
        }
        Err(JoinFault::OutOfMemory) => Ok(None),
        Err(fault) => Err(fault)?,
    }
}
