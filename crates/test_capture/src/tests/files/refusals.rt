//! Kinds of files, and files that are rejected.

use super::pieces::{CAPTURE, JSON, TEXT, WALK};
use crate::tests::packets::frames::changed;
use capture_files::CaptureFault;
use network_files::{FileFault, FileKind, read_file};
use std::alloc::Global;
use std::test::*;

/// Files, and their kinds. Among them are the magic numbers of pcap, in both byte orders and both
/// units, and the first block of pcapng, whole and cut.
const KINDS: &[(&str, &[u8], FileKind)] = &[
    ("a capture", CAPTURE, FileKind::Capture),
    ("a walk", WALK, FileKind::Walk),
    ("a text", TEXT, FileKind::Printed),
    ("a document", JSON, FileKind::Json),
    (
        "microseconds, the higher order",
        b"\xa1\xb2\xc3\xd4",
        FileKind::Capture,
    ),
    (
        "microseconds, the lower order",
        b"\xd4\xc3\xb2\xa1",
        FileKind::Capture,
    ),
    (
        "nanoseconds, the higher order",
        b"\xa1\xb2\x3c\x4d",
        FileKind::Capture,
    ),
    (
        "nanoseconds, the lower order",
        b"\x4d\x3c\xb2\xa1",
        FileKind::Capture,
    ),
    ("pcapng", b"\x0a\x0d\x0d\x0a", FileKind::Capture),
    ("pcapng, cut", b"\x0a\x0d\x0d", FileKind::Walk),
];

#[test]
fn kinds_of_files(rt: HostRuntime) {
    for (name, file, kind) in KINDS {
        assert_eq!(rt; FileKind::of(file), *kind, "{name}");
    }
}

/// Why a file is rejected, if it is.
fn fault_of(alloc: Global, file: &[u8]) -> Option<FileFault> {
    read_file(alloc, file).err()
}

/// Files that are rejected, and the fault.
const REJECTED: &[(&str, &[u8], FileFault)] = &[
    ("no bytes", b"", FileFault::UnknownKind),
    ("the front of a dump", b"OSWP\x01", FileFault::UnknownKind),
    ("a brace alone", b" {", FileFault::NotJson),
    ("an object without members", b"{}", FileFault::NoDatabase),
    ("an array", b"[]", FileFault::UnknownKind),
];

#[test]
fn files_that_are_rejected(rt: HostRuntime) {
    for (name, file, fault) in REJECTED {
        assert_eq!(rt; fault_of(rt.alloc(), file), Some(*fault), "{name}");
    }
}

/// A record whose captured length is above its original length.
#[test]
fn a_malformed_length_is_reported_with_its_place(rt: HostRuntime) -> Result<(), Fail> {
    let alloc = rt.alloc();
    let file = changed(alloc, CAPTURE, &[(32, 0x4f)])?;
    let fault = FileFault::Capture(CaptureFault::CapturedLength(24));
    assert_eq!(rt; fault_of(alloc, &file), Some(fault));
    assert!(rt; format!(in alloc; "{fault}")?.as_str() == "CapturedLength at 24");
    Ok(())
}
