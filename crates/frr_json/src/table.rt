//! The databases of a document: one for each LS type.

ghost use Rattle.std.specs.Prelude.{◌≡◌};
ghost use Rattle.frr_json.specs.Tables.{is_as_wide, table_name};

use findings::Feature;
use frr_text::fields::LsType;

/// A database that FRR prints, by the LS type of its LSAs.
#[derive(Clone, Copy)]
pub(crate) enum Table {
    /// LSAs of this type, which are read.
    Read(LsType),
    /// LSAs of type 7 (RFC 3101). They are counted alone.
    Nssa,
    /// Opaque LSAs of link scope, of type 9 (RFC 5250).
    LinkOpaque,
    /// Opaque LSAs of area scope, of type 10.
    AreaOpaque,
    /// Opaque LSAs of AS scope, of type 11.
    AsOpaque,
}

/// The name of a database.
pub(crate) fn table_name(table: Table) -> &'static str
    ensures { result.now ≡ table_name table }
{
    match table {
        Table::Read(LsType::Router) => "routerLinkStates",
        Table::Read(LsType::Network) => "networkLinkStates",
        Table::Read(LsType::Summary) => "summaryLinkStates",
        Table::Read(LsType::AsbrSummary) => "asbrSummaryLinkStates",
        Table::Read(LsType::External) => "asExternalLinkStates",
        Table::Nssa => "nssaExternalLinkStates",
        Table::LinkOpaque => "linkLocalOpaqueLsa",
        Table::AreaOpaque => "areaLocalOpaqueLsa",
        Table::AsOpaque => "asExternalOpaqueLsa",
    }
}

/// Whether its LSAs have AS scope, so that it has no areas.
pub(crate) fn is_as_wide(table: Table) -> bool
    ensures { result ≡ is_as_wide table }
{
    matches!(table, Table::Read(LsType::External) | Table::AsOpaque)
}
