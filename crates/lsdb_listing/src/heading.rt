//! Lines that say where the rows below them belong.

ghost use Rattle.std.specs.Prelude.{◌≡◌};
ghost use Rattle.frr_text.specs.Words.{words};
ghost use Rattle.frr_text.specs.Rules.{or_else};
ghost use Rattle.lsdb_listing.specs.Headings.{titles, area_after, table_as, table_among, area_section, is_bare, is_global, is_link, bare_section, section_in};
ghost use Rattle.lsdb_listing.specs.Rows.{area_under};

use crate::label::{Label, after_label};
use crate::title::{TITLES, Title};
use frr_text::{area_of, next_word};
use lsa_codec::AreaId;
use text_words::address_of;

/// What stands above rows.
#[derive(Clone, Copy, Debug)]
pub(crate) enum Heading {
    /// FRR: the rows are of this LS type, and of this area, if one is named.
    Table(u8, Option<AreaId>),
    /// BIRD: the rows are of any LS types, and of this area, if one is named.
    Section(Option<AreaId>),
}

impl Heading {
    /// The area that it names.
    pub(crate) fn area(self) -> Option<AreaId>
        ensures { result ≡ area_under self }
    {
        match self {
            Heading::Table(_, area) => area,
            Heading::Section(area) => area,
        }
    }
}

/// The area that is named after a title, if one is.
fn area_after(line: &[u8]) -> Option<Option<AreaId>>
    ensures { result ≡ area_after (words line.now) }
{
    if next_word(line).is_none() {
        return Some(None);
    }
    let after = after_label(Label::InArea, line)?;
    let (word, _) = next_word(after)?;
    let area = area_of(word)?;
    Some(Some(area))
}

/// The table that the title begins, where it stands here.
#[tactic(auto, unfolding(crate::specs::Headings::table_as))]
fn table_as(title: Title, line: &[u8]) -> Option<Heading>
    ensures { result ≡ table_as title (words line.now) }
{
    let after = after_label(title.label, line)?;
    let area = area_after(after)?;
    Some(Heading::Table(title.kind, area))
}

/// The table that a title begins here.
fn table_in(line: &[u8]) -> Option<Heading>
    ensures { result ≡ table_among titles (words line.now) }
{
    for title in TITLES {
        if let Some(table) = table_as(*title, line) {
            return Some(table);
        }
    }
    None
}

/// The section of an area that begins here.
#[tactic(auto, unfolding(crate::specs::Headings::area_section))]
fn area_section(line: &[u8]) -> Option<Heading>
    ensures { result ≡ area_section (words line.now) }
{
    let after = after_label(Label::Area, line)?;
    let (word, _) = next_word(after)?;
    let address = address_of(word)?;
    Some(Heading::Section(Some(AreaId(address))))
}

/// Whether nothing stands here.
fn is_bare(line: &[u8]) -> bool
    ensures { result ≡ is_bare (words line.now) }
{
    next_word(line).is_none()
}

/// Whether this is the heading of the whole AS.
fn is_global(line: &[u8]) -> bool
    ensures { result ≡ is_global (words line.now) }
{
    match after_label(Label::Global, line) {
        Some(after) => is_bare(after),
        None => false,
    }
}

/// Whether this is the heading of a link.
fn is_link(line: &[u8]) -> bool
    ensures { result ≡ is_link (words line.now) }
{
    let Some(after) = after_label(Label::Link, line) else {
        return false;
    };
    match next_word(after) {
        Some((_interface, others)) => is_bare(others),
        None => false,
    }
}

/// The section that begins here.
#[tactic(auto, unfolding(crate::specs::Headings::section_in))]
fn section_in(line: &[u8]) -> Option<Heading>
    ensures { result ≡ section_in (words line.now) }
{
    if let Some(section) = area_section(line) {
        return Some(section);
    }
    if is_global(line) || is_link(line) {
        return Some(Heading::Section(None));
    }
    None
}

/// The heading that stands here.
pub(crate) fn heading_in(line: &[u8]) -> Option<Heading>
    ensures { result ≡ or_else (table_among titles (words line.now)) (section_in (words line.now)) }
{
    match table_in(line) {
        Some(table) => Some(table),
        None => section_in(line),
    }
}
