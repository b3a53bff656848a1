//! What becomes of flushed LSAs.

/// Whether an LSA that was flushed, and was not announced again, is among those that stand
/// (RFC 2328, 14.1).
#[derive(Clone, Copy, Debug, PartialEq, Eq)]
pub enum FlushedLsas {
    /// It is left out.
    LeftOut,
    /// It stands, at MaxAge: so no router uses it.
    Kept,
}
