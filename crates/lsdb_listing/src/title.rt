//! Titles of tables, and the LS types of their rows.

ghost use Rattle.std.specs.Prelude.{◌≡◌};
ghost use Rattle.lsdb_listing.specs.Headings.{titles};

use crate::label::Label;
use lsa_codec::{
    AS_OPAQUE_LSA, ASBR_SUMMARY_LSA, EXTERNAL_LSA, NETWORK_LSA, ROUTER_LSA, SUMMARY_LSA,
};
use lsa_instances::{AREA_OPAQUE_LSA, LINK_OPAQUE_LSA, NSSA_LSA};

/// The title of a table.
#[derive(Clone, Copy)]
pub(crate) struct Title {
    /// The LS type of the rows.
    pub(crate) kind: u8,
    /// What is printed.
    pub(crate) label: Label,
}

/// The titles, in rising order of LS types.
pub(crate) const TITLES: &[Title] = &[
    Title {
        kind: ROUTER_LSA,
        label: Label::Router,
    },
    Title {
        kind: NETWORK_LSA,
        label: Label::Network,
    },
    Title {
        kind: SUMMARY_LSA,
        label: Label::Summary,
    },
    Title {
        kind: ASBR_SUMMARY_LSA,
        label: Label::AsbrSummary,
    },
    Title {
        kind: EXTERNAL_LSA,
        label: Label::External,
    },
    Title {
        kind: NSSA_LSA,
        label: Label::Nssa,
    },
    Title {
        kind: LINK_OPAQUE_LSA,
        label: Label::LinkOpaque,
    },
    Title {
        kind: AREA_OPAQUE_LSA,
        label: Label::AreaOpaque,
    },
    Title {
        kind: AS_OPAQUE_LSA,
        label: Label::AsOpaque,
    },
];
