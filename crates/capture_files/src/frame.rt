//! Frames, and how a file of them ends.

use std::alloc::{Allocator, Global};

/// The kind of a link, which says how a frame begins (the LINKTYPE_ numbers of tcpdump.org).
#[derive(Clone, Copy, Debug, PartialEq, Eq)]
pub struct LinkType(pub u16);

impl LinkType {
    /// Ethernet.
    pub const ETHERNET: LinkType = LinkType(1);
    /// IPv4 or IPv6 without a link header.
    pub const RAW: LinkType = LinkType(101);
    /// Linux cooked capture.
    pub const LINUX_SLL: LinkType = LinkType(113);
    /// IPv4 without a link header.
    pub const IPV4: LinkType = LinkType(228);
    /// Linux cooked capture, version 2.
    pub const LINUX_SLL2: LinkType = LinkType(276);
}

/// A frame as it was captured.
#[derive(Clone, Copy, Debug)]
pub struct Frame<'a> {
    /// The link on which it was.
    pub link: LinkType,
    /// When it was seen, in nanoseconds since 1970; `None` where the file does not say.
    pub seen: Option<u64>,
    /// The bytes that the file has of it.
    pub bytes: &'a [u8],
    /// How many bytes it had on the link. Where there are fewer in the file, it was cut short.
    pub original: u32,
}

/// How a file ends.
#[derive(Clone, Copy, Debug, PartialEq, Eq)]
pub enum End {
    /// With its last record.
    Whole,
    /// In the middle of its last record, which begins at this offset.
    Cut(usize),
}

/// What a capture file contains.
#[derive(Debug, Drop)]
pub struct Capture<'a, A: Allocator = Global> {
    /// The frames in the order of the file, which need not be that of time.
    pub frames: Vec<Frame<'a>, A>,
    /// How the file ends.
    pub end: End,
}
