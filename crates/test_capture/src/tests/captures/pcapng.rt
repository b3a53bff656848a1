//! Files of the pcapng format: sections, interfaces, units of time, and malformed blocks.

use super::reading::Parsed;
use capture_files::LinkType;

/// A section of the lower order. Its blocks, by their offsets: 28, an interface of Ethernet without
/// options; 48, the frame `abc`, of 5 bytes, on interface 0; 84, a block of another type; 96, an
/// interface of Linux cooked capture, with if_name (2) and if_tsresol (9, 10 to the power of -9);
/// 136, the frame `de` on interface 1, at the same number of units.
pub(in crate::tests) const LITTLE: &[u8] = b"\x0a\x0d\x0d\x0a\x1c\0\0\0\x4d\x3c\x2b\x1a\x01\0\0\0\
    \xff\xff\xff\xff\xff\xff\xff\xff\x1c\0\0\0\
    \x01\0\0\0\x14\0\0\0\x01\0\0\0\0\0\x04\0\x14\0\0\0\
    \x06\0\0\0\x24\0\0\0\0\0\0\0\x01\0\0\0\x07\xf2\x05\x2a\x03\0\0\0\x05\0\0\0abc\0\x24\0\0\0\
    \x05\0\0\0\x0c\0\0\0\x0c\0\0\0\
    \x01\0\0\0\x28\0\0\0\x71\0\0\0\0\0\0\0\
    \x02\0\x01\0a\0\0\0\x09\0\x01\0\x09\0\0\0\0\0\0\0\x28\0\0\0\
    \x06\0\0\0\x24\0\0\0\x01\0\0\0\x01\0\0\0\x07\xf2\x05\x2a\x02\0\0\0\x02\0\0\0de\0\0\x24\0\0\0";

/// A section of the higher order, with an interface that captures 2 bytes, and a simple packet of
/// 7 bytes.
pub(super) const BIG: &[u8] = b"\x0a\x0d\x0d\x0a\0\0\0\x1c\x1a\x2b\x3c\x4d\0\x01\0\0\
    \xff\xff\xff\xff\xff\xff\xff\xff\0\0\0\x1c\
    \0\0\0\x01\0\0\0\x14\0\x65\0\0\0\0\0\x02\0\0\0\x14\
    \0\0\0\x03\0\0\0\x14\0\0\0\x07xy\0\0\0\0\0\x14";

/// The frames of `LITTLE`.
pub(super) const LITTLE_FRAMES: &[Parsed<'_>] = &[
    (LinkType::ETHERNET, Some(5_000_000_007_000), b"abc", 5),
    (LinkType::LINUX_SLL, Some(5_000_000_007), b"de", 2),
];

/// The frame of `BIG`.
pub(super) const BIG_FRAMES: &[Parsed<'_>] = &[(LinkType::RAW, None, b"xy", 7)];

/// A section of a byte order that there is not.
pub(super) const STRANGER: &[u8] = b"\x0a\x0d\x0d\x0a\x1c\0\0\0\x4d\x3c\x2b\x1b\x01\0\0\0";

/// A section of 8 bytes.
pub(super) const SHORT: &[u8] = b"\x0a\x0d\x0d\x0a\0\0\0\x08\x1a\x2b\x3c\x4d";

/// A section whose two lengths differ.
pub(super) const TWOFOLD: &[u8] = b"\x0a\x0d\x0d\x0a\0\0\0\x1c\x1a\x2b\x3c\x4d\0\x01\0\0\
    \xff\xff\xff\xff\xff\xff\xff\xff\0\0\0\x20";

/// A packet in a section without interfaces.
pub(super) const WITHOUT: &[u8] = b"\x0a\x0d\x0d\x0a\0\0\0\x1c\x1a\x2b\x3c\x4d\0\x01\0\0\
    \xff\xff\xff\xff\xff\xff\xff\xff\0\0\0\x1c\0\0\0\x03\0\0\0\x10\0\0\0\0\0\0\0\x10";
