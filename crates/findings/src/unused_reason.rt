//! Why LSAs are not used.

ghost use Rattle.std.specs.Prelude.{◌≡◌, Some};
ghost use Rattle.findings.specs.Texts.{reason_name, refused_name};

use lsa_codec::{Key, LsaFault};
use std::fmt;

/// Why an LSA that a file reports is not used.
///
/// Its `Display` is its name; that of an LSA that is refused has the name of the fault after it, as
/// `RefusedLsa Checksum`.
#[derive(Clone, Copy, Debug, PartialEq, Eq)]
pub enum UnusedReason {
    /// The walk has other columns of the LSA's row, but not the one with the bytes: it was cut.
    Missing,
    /// The value of the row is not printed as bytes.
    NotOctets,
    /// The bytes, or those that the printed fields make, are not an accepted LSA, for this fault,
    /// which is never `OutOfMemory`. It is `Checksum` where a printed LSA has something that is not
    /// printed.
    Refused(LsaFault),
    /// Bytes follow the LSA in the row.
    Longer,
    /// The bytes have this key, and the index of the row another one.
    OtherKey(Key),
    /// The LSA has area scope, and the file has it in no area.
    NoArea,
}

/// The name of an LSA that is refused.
pub(crate) fn refused_name(fault: LsaFault) -> &'static str
    ensures { result.now ≡ refused_name fault }
{
    match fault {
        LsaFault::Truncated => "RefusedLsa Truncated",
        LsaFault::Length => "RefusedLsa Length",
        LsaFault::BadType => "RefusedLsa BadType",
        LsaFault::Body => "RefusedLsa Body",
        LsaFault::Checksum => "RefusedLsa Checksum",
        LsaFault::Mask => "RefusedLsa Mask",
        LsaFault::RouterId => "RefusedLsa RouterId",
        LsaFault::ZeroCost => "RefusedLsa ZeroCost",
        LsaFault::OutOfMemory => "RefusedLsa OutOfMemory",
    }
}

/// The name of a reason.
fn reason_name(reason: UnusedReason) -> &'static str
    ensures { result.now ≡ reason_name reason }
{
    match reason {
        UnusedReason::Missing => "Missing",
        UnusedReason::NotOctets => "NotOctets",
        UnusedReason::Refused(fault) => refused_name(fault),
        UnusedReason::Longer => "Longer",
        UnusedReason::OtherKey(_) => "OtherKey",
        UnusedReason::NoArea => "NoArea",
    }
}

impl fmt::Display for UnusedReason {
    ghost output = { λ reason. Some (reason_name reason) };

    fn fmt<W: fmt::Write>(&self, f: &mut fmt::Formatter<W>) -> fmt::Result {
        let name = reason_name(*self);
        write!(f, "{name}")
    }
}
