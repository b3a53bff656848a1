//! What a file contains.

ghost use Rattle.std.specs.Prelude.{IfOk, IfErr};
ghost use Rattle.network_files.specs.ParsedFiles.{IsFileAs, IsFileOf, IsRefusalAs, IsRefusalOf};

use crate::content::content_as;
use crate::fault::FileFault;
use crate::kind::FileKind;
use findings::{Content, Finding};
use lsa_instances::{AreaReport, Header, Observation};
use std::alloc::{Allocator, Global};

/// What a file contains, in the order of the file.
#[derive(Debug, Drop)]
pub struct ParsedFile<A: Allocator = Global> {
    /// What kind of file it is.
    pub kind: FileKind,
    /// The LSAs, byte for byte.
    pub observations: Vec<Observation<A>, A>,
    /// The areas and their kinds, one for each report in the file.
    pub areas: Vec<AreaReport, A>,
    /// The headers of LSAs that stand without their bodies, in the packets of a capture.
    pub headers: Vec<Header, A>,
    /// What cannot be used, or is missing.
    pub findings: Vec<Finding, A>,
}

/// Reads a file of this kind.
fn read_as<A: Allocator + Copy>(
    alloc: A,
    kind: FileKind,
    bytes: &[u8],
) -> Result<ParsedFile<A>, FileFault>
    ensures parsed { IfOk result (λ file. IsFileAs kind bytes.now file) }
    ensures fault { IfErr result (λ fault. IsRefusalAs A kind bytes.now fault) }
{
    let Content {
        observations,
        kinds,
        headers,
        findings,
    } = content_as(alloc, kind, bytes)?;
    Ok(ParsedFile {
        kind,
        observations,
        areas: kinds,
        headers,
        findings,
    })
}

/// Reads a file of any kind.
///
/// # Errors
///
/// A malformed capture is refused. A file that begins with a brace is refused where it is not JSON,
/// or has none of the databases that are read. A file that is neither a capture nor what a router
/// prints is refused where no line of it has an object of the OSPF-MIB: its kind is then unknown.
/// Or memory ran out.
pub fn read_file<A: Allocator + Copy>(alloc: A, bytes: &[u8]) -> Result<ParsedFile<A>, FileFault>
    ensures parsed { IfOk result (λ file. IsFileOf bytes.now file) }
    ensures fault { IfErr result (λ fault. IsRefusalOf A bytes.now fault) }
{
    read_as(alloc, FileKind::of(bytes), bytes)
}
