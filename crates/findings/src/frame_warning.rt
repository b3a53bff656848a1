//! Warnings about the frames of a capture.

ghost use Rattle.std.specs.Prelude.{◌≡◌, Some};
ghost use Rattle.findings.specs.Texts.{warning_name};

use crate::unused_reason::refused_name;
use lsa_codec::LsaFault;
use std::fmt;

/// Why a frame contains nothing that is used, or not all that it might.
///
/// Its `Display` is its name; that of an LSA that is refused has the name of the fault after it, as
/// `RefusedLsa Checksum`.
#[derive(Clone, Copy, Debug, PartialEq, Eq)]
pub enum FrameWarning {
    /// The link type is not one of those that are read.
    OtherLink,
    /// The frame carries something other than IPv4.
    NotIpv4,
    /// The frame carries packets that are encapsulated, in PPPoE (RFC 2516), MPLS (RFC 3032) or GRE
    /// (RFC 2784), as ERSPAN does it too. What is in them is not read.
    Encapsulated,
    /// The datagram carries a protocol other than OSPF, which is 89.
    NotOspf,
    /// The frame ends before what is to be read there, as one does that was cut short.
    Truncated,
    /// A length is too small for what it counts, or larger than what it stands in.
    BadLength,
    /// A fragment of an OSPF datagram that cannot be joined with the others, since some of them are
    /// missing (RFC 791, 3.2).
    MissingFragment,
    /// The packet has an OSPF version other than 2.
    OtherVersion,
    /// The checksum of the packet is wrong (RFC 2328, A.3.1).
    BadChecksum,
    /// OSPF has no packets of this type (RFC 2328, A.3.1).
    OtherType,
    /// An LSA of the packet is not accepted, for this fault, which is never `OutOfMemory`.
    RefusedLsa(LsaFault),
}

/// The name of a warning.
fn warning_name(warning: FrameWarning) -> &'static str
    ensures { result.now ≡ warning_name warning }
{
    match warning {
        FrameWarning::OtherLink => "OtherLink",
        FrameWarning::NotIpv4 => "NotIpv4",
        FrameWarning::NotOspf => "NotOspf",
        FrameWarning::Encapsulated => "Encapsulated",
        FrameWarning::Truncated => "Truncated",
        FrameWarning::BadLength => "BadLength",
        FrameWarning::MissingFragment => "MissingFragment",
        FrameWarning::OtherVersion => "OtherVersion",
        FrameWarning::BadChecksum => "BadChecksum",
        FrameWarning::OtherType => "OtherType",
        FrameWarning::RefusedLsa(fault) => refused_name(fault),
    }
}

impl fmt::Display for FrameWarning {
    ghost output = { λ warning. Some (warning_name warning) };

    fn fmt<W: fmt::Write>(&self, f: &mut fmt::Formatter<W>) -> fmt::Result {
        let name = warning_name(*self);
        write!(f, "{name}")
    }
}
