//! What a file of each kind contains.

ghost use Rattle.std.specs.Prelude.{◌≡◌, IfOk, IfErr};
ghost use Rattle.capture_files.specs.Captures.{IsCapture};
ghost use Rattle.capture_files.specs.CaptureTexts.{capture_text};
ghost use Rattle.findings.specs.Contents.{lists_in};
ghost use Rattle.frr_json.specs.Contents.{HasContent as IsDocumentOf};
ghost use Rattle.ospf_packets.specs.Contents.{HasContent as IsCaptureOf};
ghost use Rattle.snmp_walk.specs.Contents.{HasContent as IsWalkOf};
ghost use Rattle.network_files.specs.ParsedFiles.{HasContent, IsRefusalAs, IsRefusalOfCapture, IsRefusalOfJson, IsRefusalOfWalk};

use crate::fault::FileFault;
use crate::kind::{FileKind, is_compressed};
use capture_files::{Capture, CaptureFault, read_capture};
use findings::Content;
use frr_json::{JsonFault, read_printed_json};
use frr_text::read_printed;
use ospf_packets::read_frames;
use snmp_walk::{WalkFault, read_walk};
use std::alloc::Allocator;

/// The frames of a capture.
fn frames_of<A: Allocator + Copy>(alloc: A, bytes: &[u8]) -> Result<Capture<'_, A>, FileFault>
    ensures capture { IfOk result (λ capture. IsCapture bytes.now (capture_text capture)) }
    ensures fault { IfErr result (λ fault. IsRefusalOfCapture bytes.now fault) }
{
    match read_capture(alloc, bytes) {
        Ok(capture) => Ok(capture),
        Err(CaptureFault::OutOfMemory) => Err(FileFault::OutOfMemory),
        Err(fault) => Err(FileFault::Capture(fault)),
    }
}

/// What a capture contains.
fn content_of_capture<A: Allocator + Copy>(alloc: A, bytes: &[u8]) -> Result<Content<A>, FileFault>
    ensures content { IfOk result (λ content. IsCaptureOf bytes.now (lists_in content)) }
    ensures fault { IfErr result (λ fault. IsRefusalOfCapture bytes.now fault) }
{
    let Capture { frames, end } = frames_of(alloc, bytes)?;
    Ok(read_frames(alloc, &frames, end)?)
}

/// What a document in JSON contains.
fn content_of_document<A: Allocator + Copy>(alloc: A, bytes: &[u8]) -> Result<Content<A>, FileFault>
    ensures content { IfOk result (λ content. IsDocumentOf bytes.now (lists_in content)) }
    ensures fault { IfErr result (λ fault. IsRefusalOfJson bytes.now fault) }
{
    match read_printed_json(alloc, bytes) {
        Ok(content) => Ok(content),
        Err(JsonFault::NotJson) => Err(FileFault::NotJson),
        Err(JsonFault::NoDatabase) => Err(FileFault::NoDatabase),
        Err(JsonFault::OutOfMemory) => Err(FileFault::OutOfMemory),
    }
}

/// What a walk contains.
fn content_of_walk<A: Allocator + Copy>(alloc: A, bytes: &[u8]) -> Result<Content<A>, FileFault>
    ensures content { IfOk result (λ content. IsWalkOf bytes.now (lists_in content)) }
    ensures fault { IfErr result (λ fault. IsRefusalOfWalk A bytes.now fault) }
{
    match read_walk(alloc, bytes) {
        Ok(content) => Ok(content),
        Err(WalkFault::OutOfMemory) => Err(FileFault::OutOfMemory),
        Err(WalkFault::NotAWalk) => {
            if is_compressed(bytes) {
                Err(FileFault::Compressed)
            } else {
                Err(FileFault::UnknownKind)
            }
        }
    }
}

/// What a file of this kind contains.
pub(crate) fn content_as<A: Allocator + Copy>(
    alloc: A,
    kind: FileKind,
    bytes: &[u8],
) -> Result<Content<A>, FileFault>
    ensures content { IfOk result (λ content. HasContent kind bytes.now (lists_in content)) }
    ensures fault { IfErr result (λ fault. IsRefusalAs A kind bytes.now fault) }
{
    match kind {
        FileKind::Capture => content_of_capture(alloc, bytes),
        FileKind::Json => content_of_document(alloc, bytes),
        FileKind::Printed => Ok(read_printed(alloc, bytes)?),
        FileKind::Walk => content_of_walk(alloc, bytes),
    }
}
