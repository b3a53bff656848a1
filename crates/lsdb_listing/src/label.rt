//! What FRR and BIRD print around the rows of a list.

ghost use Rattle.std.specs.Prelude.{◌≡◌, option_map};
ghost use Rattle.frr_text.specs.Words.{words};
ghost use Rattle.lsdb_listing.specs.Labels.{text_of, after_label, begins_with};

use text_words::{Blanks, after_words};

/// What is printed around rows.
#[derive(Clone, Copy)]
pub(crate) enum Label {
    /// The title of the table of router-LSAs.
    Router,
    /// The title of the table of network-LSAs.
    Network,
    /// The title of the table of summary-LSAs for networks.
    Summary,
    /// The title of the table of summary-LSAs for AS boundary routers.
    AsbrSummary,
    /// The title of the table of AS-external-LSAs.
    External,
    /// The title of the table of NSSA-LSAs (RFC 3101).
    Nssa,
    /// The title of the table of opaque LSAs of link scope (RFC 5250).
    LinkOpaque,
    /// The title of the table of opaque LSAs of area scope (RFC 5250).
    AreaOpaque,
    /// The title of the table of opaque LSAs of AS scope (RFC 5250).
    AsOpaque,
    /// Before the Area ID after a title.
    InArea,
    /// Before the Area ID of a section.
    Area,
    /// The heading of the section of the whole AS.
    Global,
    /// Before the interface of a section.
    Link,
    /// The first columns of most tables.
    IdColumns,
    /// The first columns of a table of opaque LSAs.
    OpaqueColumns,
    /// The first columns of a section.
    TypeColumns,
    /// Before the Router ID of the router that prints.
    Printer,
    /// The program that prints.
    Bird,
    /// The last word of most titles.
    States,
    /// Before the LS age of an LSA that is printed whole.
    Age,
}

/// The words of a label.
#[tactic(auto, unfolding(crate::specs::Labels::text_of))]
fn text_of(label: Label) -> &'static [u8]
    ensures { result.now ≡ text_of label }
{
    match label {
        Label::Router => b"Router Link States",
        Label::Network => b"Net Link States",
        Label::Summary => b"Summary Link States",
        Label::AsbrSummary => b"ASBR-Summary Link States",
        Label::External => b"AS External Link States",
        Label::Nssa => b"NSSA-external Link States",
        Label::LinkOpaque => b"Link-Local Opaque-LSA",
        Label::AreaOpaque => b"Area-Local Opaque-LSA",
        Label::AsOpaque => b"AS-external Opaque-LSA",
        Label::InArea => b"(Area",
        Label::Area => b"Area",
        Label::Global => b"Global",
        Label::Link => b"Link",
        Label::IdColumns => b"Link ID ADV Router",
        Label::OpaqueColumns => b"Opaque-Type/Id ADV Router",
        Label::TypeColumns => b"Type LS ID Router",
        Label::Printer => b"OSPF Router with ID",
        Label::Bird => b"BIRD",
        Label::States => b"States",
        Label::Age => b"LS age:",
    }
}

/// What follows a label, where the line begins with it.
#[tactic(auto, unfolding(crate::specs::Labels::after_label, frr_text::specs::Words::words))]
pub(crate) fn after_label(label: Label, line: &[u8]) -> Option<&[u8]>
    ensures { option_map (λ rest. words rest.now) result ≡ after_label label (words line.now) }
{
    after_words(Blanks::InText, text_of(label), line)
}

/// Whether a line begins with a label.
pub(crate) fn begins_with(label: Label, line: &[u8]) -> bool
    ensures { result ≡ begins_with label (words line.now) }
{
    after_label(label, line).is_some()
}
