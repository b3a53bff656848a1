//! Files of the pcap format: both byte orders, both units, and malformed ones.

use super::reading::Parsed;
use capture_files::LinkType;

/// Lowest byte first, nanoseconds, Ethernet. One frame of 3 bytes, all of it captured, at
/// 1,795,401,980 seconds and 630,265,671 nanoseconds; one of 70 bytes, of which 2 were captured.
pub(super) const LITTLE: &[u8] =
    b"\x4d\x3c\xb2\xa1\x02\x00\x04\x00\0\0\0\0\0\0\0\0\x00\x00\x04\x00\x01\x00\x00\x00\
    \xfc\xa8\x03\x6b\x47\x17\x91\x25\x03\x00\x00\x00\x03\x00\x00\x00abc\
    \xfc\xa8\x03\x6b\x47\x17\x91\x25\x02\x00\x00\x00\x46\x00\x00\x00de";

/// Highest byte first, microseconds, Linux cooked capture. One frame of 1 byte, at 1 second and
/// 2 microseconds.
pub(super) const BIG: &[u8] =
    b"\xa1\xb2\xc3\xd4\x00\x02\x00\x04\0\0\0\0\0\0\0\0\x00\x04\x00\x00\x00\x00\x00\x71\
    \x00\x00\x00\x01\x00\x00\x00\x02\x00\x00\x00\x01\x00\x00\x00\x01x";

/// The frames of `LITTLE`.
pub(super) const LITTLE_FRAMES: &[Parsed<'_>] = &[
    (
        LinkType::ETHERNET,
        Some(1_795_401_980_630_265_671),
        b"abc",
        3,
    ),
    (
        LinkType::ETHERNET,
        Some(1_795_401_980_630_265_671),
        b"de",
        70,
    ),
];

/// The frame of `BIG`.
pub(super) const BIG_FRAMES: &[Parsed<'_>] = &[(LinkType::LINUX_SLL, Some(1_000_002_000), b"x", 1)];

/// The header of a file of version 3.4.
pub(super) const OTHER_VERSION: &[u8] =
    b"\xa1\xb2\xc3\xd4\x00\x03\x00\x04\0\0\0\0\0\0\0\0\x00\x04\x00\x00\x00\x00\x00\x01";

/// One byte less than the header of `BIG`.
pub(super) const SHORT: &[u8] =
    b"\xa1\xb2\xc3\xd4\x00\x02\x00\x04\0\0\0\0\0\0\0\0\x00\x04\x00\x00\x00\x00\x00";

/// A record that is longer than its frame was.
pub(super) const LONGER: &[u8] =
    b"\xa1\xb2\xc3\xd4\x00\x02\x00\x04\0\0\0\0\0\0\0\0\x00\x04\x00\x00\x00\x00\x00\x01\
    \x00\x00\x00\x01\x00\x00\x00\x02\x00\x00\x00\x02\x00\x00\x00\x01xy";

/// A record that is longer than a file may have.
pub(super) const HUGE: &[u8] =
    b"\xa1\xb2\xc3\xd4\x00\x02\x00\x04\0\0\0\0\0\0\0\0\x00\x04\x00\x00\x00\x00\x00\x01\
    \x00\x00\x00\x01\x00\x00\x00\x02\x00\x04\x00\x01\x00\x04\x00\x01xy";
