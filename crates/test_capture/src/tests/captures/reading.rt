//! What is read of files of both formats: frames, ends, and why a file is refused.

use super::{pcap, pcapng};
use capture_files::{Capture, CaptureFault, End, LinkType, read_capture, read_pcap};
use std::alloc::Global;
use std::test::*;

/// What a frame contains: its link, its moment, its bytes, and how many it had on the link.
pub(super) type Parsed<'a> = (LinkType, Option<u64>, &'a [u8], u32);

/// What is called: the reader of pcap, or that of both formats.
#[derive(Clone, Copy)]
enum Reader {
    Pcap,
    Both,
}

/// What a reader answers. This has no clauses, so that the prover reads those of the calls once,
/// and not in each test.
fn capture(alloc: Global, reader: Reader, file: &[u8]) -> Result<Capture<'_>, CaptureFault> {
    match reader {
        Reader::Pcap => read_pcap(alloc, file),
        Reader::Both => read_capture(alloc, file),
    }
}

/// How many frames a file has, and how it ends.
fn read(alloc: Global, reader: Reader, file: &[u8]) -> Result<(usize, End), CaptureFault> {
    let capture = capture(alloc, reader, file)?;
    Ok((capture.frames.len(), capture.end))
}

/// Whether a file ends whole, with frames that contain this.
fn has_frames(
    alloc: Global,
    reader: Reader,
    file: &[u8],
    frames: &[Parsed<'_>],
) -> Result<bool, CaptureFault> {
    let capture = capture(alloc, reader, file)?;
    for (frame, parsed) in capture.frames.iter().zip(frames.iter()) {
        if (frame.link, frame.seen, frame.bytes, frame.original) != *parsed {
            return Ok(false);
        }
    }
    Ok(capture.end == End::Whole && capture.frames.len() == frames.len())
}

/// Whole files, and their frames.
const WHOLE: &[(&str, Reader, &[u8], &[Parsed<'_>])] = &[
    (
        "pcap, the lower order, nanoseconds",
        Reader::Pcap,
        pcap::LITTLE,
        pcap::LITTLE_FRAMES,
    ),
    (
        "pcap, the higher order, microseconds",
        Reader::Pcap,
        pcap::BIG,
        pcap::BIG_FRAMES,
    ),
    (
        "pcapng, two interfaces with their units",
        Reader::Both,
        pcapng::LITTLE,
        pcapng::LITTLE_FRAMES,
    ),
    (
        "pcapng, a simple packet of the higher order",
        Reader::Both,
        pcapng::BIG,
        pcapng::BIG_FRAMES,
    ),
];

#[test]
fn frames_of_whole_files(rt: HostRuntime) {
    for (name, reader, file, frames) in WHOLE {
        assert_eq!(rt;
            has_frames(rt.alloc(), *reader, file, frames),
            Ok(true),
            "{name}"
        );
    }
}

/// Files, how long the front of each is, how many frames it has, and how it ends.
const CUTS: &[(&str, Reader, &[u8], usize, usize, End)] = &[
    ("pcap", Reader::Pcap, pcap::LITTLE, 24, 0, End::Whole),
    ("pcap", Reader::Pcap, pcap::LITTLE, 25, 0, End::Cut(24)),
    ("pcap", Reader::Pcap, pcap::LITTLE, 42, 0, End::Cut(24)),
    ("pcap", Reader::Pcap, pcap::LITTLE, 43, 1, End::Whole),
    ("pcap", Reader::Pcap, pcap::LITTLE, 60, 1, End::Cut(43)),
    ("pcap", Reader::Pcap, pcap::LITTLE, 61, 2, End::Whole),
    ("pcapng", Reader::Both, pcapng::LITTLE, 11, 0, End::Cut(0)),
    ("pcapng", Reader::Both, pcapng::LITTLE, 28, 0, End::Whole),
    ("pcapng", Reader::Both, pcapng::LITTLE, 83, 0, End::Cut(48)),
    ("pcapng", Reader::Both, pcapng::LITTLE, 84, 1, End::Whole),
    (
        "pcapng",
        Reader::Both,
        pcapng::LITTLE,
        171,
        1,
        End::Cut(136),
    ),
];

#[test]
fn a_file_that_was_cut_is_read_to_its_last_whole_part(rt: HostRuntime) -> Result<(), Fail> {
    for (format, reader, file, size, frames, end) in CUTS {
        let front = file.get(..*size).ok_or("a front")?;
        let found = read(rt.alloc(), *reader, front);
        assert_eq!(rt; found, Ok((*frames, *end)), "{format} at {size}");
    }
    assert_eq!(rt; pcap::LITTLE.len(), 61);
    Ok(())
}

/// Files, and what they are refused for.
const REFUSED: &[(&str, Reader, &[u8], CaptureFault)] = &[
    ("no byte", Reader::Pcap, b"", CaptureFault::NotACapture),
    (
        "three bytes",
        Reader::Pcap,
        b"\xa1\xb2\xc3",
        CaptureFault::NotACapture,
    ),
    (
        "a dump",
        Reader::Pcap,
        b"OSWP and more than a header",
        CaptureFault::NotACapture,
    ),
    (
        "a short header",
        Reader::Pcap,
        pcap::SHORT,
        CaptureFault::ShortHeader,
    ),
    (
        "another version",
        Reader::Pcap,
        pcap::OTHER_VERSION,
        CaptureFault::Version,
    ),
    (
        "a captured length above that of the frame",
        Reader::Pcap,
        pcap::LONGER,
        CaptureFault::CapturedLength(24),
    ),
    (
        "a captured length above that of files",
        Reader::Pcap,
        pcap::HUGE,
        CaptureFault::CapturedLength(24),
    ),
    (
        "another byte order",
        Reader::Both,
        pcapng::STRANGER,
        CaptureFault::ByteOrder(0),
    ),
    (
        "a section of 8 bytes",
        Reader::Both,
        pcapng::SHORT,
        CaptureFault::BlockLength(0),
    ),
    (
        "two lengths of a block",
        Reader::Both,
        pcapng::TWOFOLD,
        CaptureFault::BlockLength(0),
    ),
    (
        "a packet of no interface",
        Reader::Both,
        pcapng::WITHOUT,
        CaptureFault::NoInterface(28),
    ),
];

#[test]
fn files_that_are_refused(rt: HostRuntime) {
    for (name, reader, file, fault) in REFUSED {
        assert_eq!(rt; read(rt.alloc(), *reader, file), Err(*fault), "{name}");
    }
}
