//! What differs between databases.

use lsa_changes::LsaChange;
use lsa_codec::AreaId;
use lsa_names::LsaName;

/// An area that came, went or is of another kind.
#[derive(Clone, Copy, Debug, PartialEq, Eq)]
pub enum AreaChange {
    /// The area is there now alone, as a stub area if this is `true` (RFC 2328, 3.6).
    New(bool),
    /// The area was there before alone, as a stub area if this is `true`.
    Gone(bool),
    /// The area was of the other kind before, and is a stub area now if this is `true`.
    Kind(bool),
}

/// What differs between a baseline and a database, a line of `differences`.
#[derive(Clone, Copy, Debug, PartialEq, Eq)]
pub enum DifferenceLine {
    /// An area differs.
    Area(AreaId, AreaChange),
    /// An LSA differs.
    Lsa(LsaName, LsaChange),
}
