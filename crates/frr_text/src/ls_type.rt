//! LS types that are read, and how they are printed (RFC 2328, 12.1.3).

ghost use Rattle.std.specs.Prelude.{◌≡◌};
ghost use Rattle.frr_text.specs.Fields.{type_label, id_label};
ghost use Rattle.frr_text.specs.Making.{type_code};

use crate::label::Label;
use lsa_codec::{ASBR_SUMMARY_LSA, EXTERNAL_LSA, NETWORK_LSA, ROUTER_LSA, SUMMARY_LSA};

/// An LS type that is read.
#[derive(Clone, Copy)]
pub enum LsType {
    /// Type 1: router-LSAs.
    Router,
    /// Type 2: network-LSAs.
    Network,
    /// Type 3: summary-LSAs for networks.
    Summary,
    /// Type 4: summary-LSAs for AS boundary routers.
    AsbrSummary,
    /// Type 5: AS-external-LSAs.
    External,
}

impl LsType {
    /// The number of the LS type.
    pub(crate) fn code(self) -> u8
        ensures { result ≡ type_code self }
    {
        match self {
            LsType::Router => ROUTER_LSA,
            LsType::Network => NETWORK_LSA,
            LsType::Summary => SUMMARY_LSA,
            LsType::AsbrSummary => ASBR_SUMMARY_LSA,
            LsType::External => EXTERNAL_LSA,
        }
    }

    /// What is printed as the LS type.
    pub(crate) fn label(self) -> Label
        ensures { result ≡ type_label self }
    {
        match self {
            LsType::Router => Label::RouterLsa,
            LsType::Network => Label::NetworkLsa,
            LsType::Summary | LsType::AsbrSummary => Label::SummaryLsa,
            LsType::External => Label::ExternalLsa,
        }
    }

    /// What is printed after the Link State ID.
    pub(crate) fn id_label(self) -> Label
        ensures { result ≡ id_label self }
    {
        match self {
            LsType::Router => Label::Nothing,
            LsType::Network => Label::DesignatedRouter,
            LsType::Summary => Label::SummaryNetwork,
            LsType::AsbrSummary => Label::BoundaryRouter,
            LsType::External => Label::ExternalNetwork,
        }
    }
}
