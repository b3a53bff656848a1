//! Kinds of files.

ghost use Rattle.std.specs.Prelude.{◌≡◌, ◌≤◌, length};
ghost use Rattle.std.specs.Option.{is_some};
ghost use Rattle.capture_files.specs.Pcap.{fraction_of};
ghost use Rattle.network_files.specs.Kinds.{is_capture, is_compressed, kind_of};
ghost use Rattle.frr_text.specs.Headings.{is_printed};
ghost use Rattle.frr_text.specs.Words.{words};
ghost use Rattle.frr_json.specs.ParsedDocuments.{is_printed_json};

use byteorder::{BigEndian, ByteOrder, LittleEndian};
use frr_json::is_printed_json;
use frr_text::is_printed;

/// The type of a Section Header Block, which reads the same in both byte orders.
const SECTION_HEADER: u32 = 0x0a0d_0d0a;

/// What kind of file it is, by its content.
#[derive(Clone, Copy, Debug, PartialEq, Eq)]
pub enum FileKind {
    /// A packet capture: it begins as a file of the pcapng or of the pcap format does.
    Capture,
    /// What a router prints of its databases in JSON: it is not a capture, and its first character
    /// after white space is an opening brace.
    Json,
    /// What a router prints of its databases as a text: it is neither of the two, and somewhere in
    /// it are the words `OSPF Router with ID` or `LS age:`.
    Printed,
    /// An SNMP walk: every other file is read as one.
    Walk,
}

/// Whether a magic number is one of the pcap format.
fn is_magic(number: u32) -> bool
    ensures { result ≡ is_some (fraction_of number) }
{
    matches!(number, 0xa1b2_c3d4 | 0xa1b2_3c4d)
}

/// Whether the file begins as a capture does.
fn is_capture(bytes: &[u8]) -> bool
    ensures { result ≡ is_capture bytes.now }
{
    if bytes.len() < 4 {
        return false;
    }
    let big = BigEndian::read_u32(bytes);
    big == SECTION_HEADER || is_magic(big) || is_magic(LittleEndian::read_u32(bytes))
}

/// Whether a file begins as one does that gzip has compressed (RFC 1952, 2.3.1).
pub fn is_compressed(bytes: &[u8]) -> bool
    ensures { result ≡ is_compressed bytes.now }
{
    matches!(bytes, [0x1f, 0x8b, ..])
}

impl FileKind {
    /// The kind of a file with these bytes.
    pub fn of(bytes: &[u8]) -> FileKind
        ensures { result ≡ kind_of bytes.now }
    {
        if is_capture(bytes) {
            FileKind::Capture
        } else if is_printed_json(bytes) {
            FileKind::Json
        } else if is_printed(bytes) {
            FileKind::Printed
        } else {
            FileKind::Walk
        }
    }
}
