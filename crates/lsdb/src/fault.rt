//! Why bytes are no dump.

ghost use Rattle.std.specs.Prelude.{◌≡◌};
ghost use Rattle.lsdb.specs.Faults.{fault_code, fault_name, lsa_fault_name};
ghost use Rattle.lsdb.specs.declared.fault.ReadError.TheVariants.{Memory, Fault};

use lsa_codec::{Decimal, LsaFault};
use std::alloc::{AllocError, AllocFailed};
use std::error::Error;
use std::fmt;

/// What is wrong with a dump.
#[derive(Clone, Copy, Debug, PartialEq, Eq)]
pub enum DumpFaultKind {
    /// The dump does not begin with the four bytes of `OSWP`.
    BadMagic,
    /// The version is not 1.
    BadVersion,
    /// The dump ends inside a field of the container: magic, version, a count, an area's ID or
    /// kind.
    Truncated,
    /// Bytes stand after the last LSA.
    TrailingBytes,
    /// More than 64 areas.
    TooManyAreas,
    /// The ID of an area is not above that of the area before it.
    AreaOrder,
    /// The kind of an area is neither 0 (ordinary) nor 1 (stub).
    BadAreaKind,
    /// An area has more than 8,192 LSAs.
    TooManyLsas,
    /// The bytes are no accepted LSA. The fault is never `OutOfMemory`.
    Lsa(LsaFault),
    /// An LSA of AS scope (type 5 or 11) in an area, or one of another type after the areas.
    WrongSection,
    /// The section has an LSA with the same key before.
    DuplicateLsa,
    /// The backbone, area 0.0.0.0, is reported to be a stub area (RFC 2328, 3.6).
    BackboneStub,
    /// More than 16,777,216 bytes.
    TooLarge,
    /// A growth was refused.
    OutOfMemory,
    /// A line of the history of a session, counted from 0, is not as it was saved. A database is
    /// never refused so.
    BadHistory(u16),
}

impl DumpFaultKind {
    /// The code and the name of each kind.
    fn texts(&self) -> (&'static str, &'static str)
        ensures code { result.0.now ≡ fault_code self.now }
        ensures name { result.1.now ≡ fault_name self.now }
    {
        match self {
            DumpFaultKind::BadMagic => ("L1", "BadMagic"),
            DumpFaultKind::BadVersion => ("L2", "BadVersion"),
            DumpFaultKind::Truncated => ("L3", "Truncated"),
            DumpFaultKind::TrailingBytes => ("L4", "TrailingBytes"),
            DumpFaultKind::TooManyAreas => ("L5", "TooManyAreas"),
            DumpFaultKind::AreaOrder => ("L6", "AreaOrder"),
            DumpFaultKind::BadAreaKind => ("L7", "BadAreaKind"),
            DumpFaultKind::TooManyLsas => ("L8", "TooManyLsas"),
            DumpFaultKind::Lsa(fault) => ("L9", lsa_fault_name(*fault)),
            DumpFaultKind::WrongSection => ("L10", "WrongSection"),
            DumpFaultKind::DuplicateLsa => ("L11", "DuplicateLsa"),
            DumpFaultKind::BackboneStub => ("L12", "BackboneStub"),
            DumpFaultKind::TooLarge => ("L13", "TooLarge"),
            DumpFaultKind::OutOfMemory => ("L14", "OutOfMemory"),
            DumpFaultKind::BadHistory(_) => ("L15", "BadHistory"),
        }
    }

    /// The code of the kind, as `L4`.
    pub fn code(&self) -> &'static str
        ensures { result.now ≡ fault_code self.now }
    {
        self.texts().0
    }

    /// The name of the kind, as `TrailingBytes`, and `Lsa ZeroCost` where the bytes are no
    /// accepted LSA.
    pub fn name(&self) -> &'static str
        ensures { result.now ≡ fault_name self.now }
    {
        self.texts().1
    }
}

/// The name of what is wrong with an LSA.
fn lsa_fault_name(fault: LsaFault) -> &'static str
    ensures { result.now ≡ lsa_fault_name fault }
{
    match fault {
        LsaFault::Truncated => "Lsa Truncated",
        LsaFault::Length => "Lsa Length",
        LsaFault::BadType => "Lsa BadType",
        LsaFault::Body => "Lsa Body",
        LsaFault::Checksum => "Lsa Checksum",
        LsaFault::Mask => "Lsa Mask",
        LsaFault::RouterId => "Lsa RouterId",
        LsaFault::ZeroCost => "Lsa ZeroCost",
        LsaFault::OutOfMemory => "Lsa OutOfMemory",
    }
}

/// What is wrong with a dump, and the offset of the first byte of the field or LSA.
///
/// It is shown as `L4 TrailingBytes at 99`, `L9 Lsa ZeroCost at 13` or `L15 BadHistory 1 at 129`.
#[derive(Clone, Copy, Debug, PartialEq, Eq)]
pub struct DumpFault {
    /// How many bytes stand before the field or LSA; 0 for `TooLarge` and `OutOfMemory`.
    pub offset: usize,
    pub kind: DumpFaultKind,
}

impl fmt::Display for DumpFault {
    ghost use Rattle.std.specs.Prelude.{Some};
    ghost use Rattle.lsdb.specs.Faults.{fault_text};

    ghost output = { λ fault. Some (fault_text fault) };

    fn fmt<W: fmt::Write>(&self, f: &mut fmt::Formatter<W>) -> fmt::Result {
        let (code, name) = (self.kind.code(), self.kind.name());
        let offset = Decimal(self.offset as u64);
        if let DumpFaultKind::BadHistory(line) = self.kind {
            let line = Decimal(line as u64);
            return write!(f, "{code} {name} {line} at {offset}");
        }
        write!(f, "{code} {name} at {offset}")
    }
}

impl Error for DumpFault {}

/// Why reading ended.
#[derive(Debug, Drop)]
pub(crate) enum ReadError {
    Memory,
    Fault(DumpFault),
}

impl From<AllocError> for ReadError {
    ghost from_gives = { λ _ e. e ≡ Memory };

    fn from(_e: AllocError) -> ReadError {
        ReadError::Memory
    }
}

impl<T: Drop> From<AllocFailed<T>> for ReadError {
    ghost from_gives = { λ _ e. e ≡ Memory };

    fn from(_e: AllocFailed<T>) -> ReadError {
        ReadError::Memory
    }
}

impl From<DumpFault> for ReadError {
    ghost from_gives = { λ fault e. e ≡ Fault fault };

    fn from(fault: DumpFault) -> ReadError {
        ReadError::Fault(fault)
    }
}
