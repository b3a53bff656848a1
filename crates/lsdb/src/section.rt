//! The names of sections.

use lsa_codec::AreaId;

/// A section of a database: the LSAs of one area, or those of AS scope (RFC 2328, 12.2).
#[derive(Clone, Copy, Debug, PartialEq, Eq)]
pub enum Section {
    /// The LSAs of the area with this ID.
    Area(AreaId),
    /// The LSAs that are flooded through the whole AS: AS-external-LSAs and opaque LSAs of type 11.
    AsWide,
}
