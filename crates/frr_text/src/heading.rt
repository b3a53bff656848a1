//! Headings: each names the area of the LSAs below it, and the kind of the area.

ghost use Rattle.std.specs.Prelude.{◌≡◌};
ghost use Rattle.frr_text.specs.Words.{words};
ghost use Rattle.frr_text.specs.Headings.{area_of, kind_in, heading_at, area_at};

use crate::label::{Label, after_label, word_after};
use lsa_codec::AreaId;
use lsa_instances::{AreaKind, AreaReport};
use text_words::{address_of, cut_at};

/// The area that a word names, perhaps before a closing parenthesis.
pub fn area_of(word: &[u8]) -> Option<AreaId>
    ensures { result ≡ area_of word.now }
{
    let name = match cut_at(word, b')') {
        Some((name, _)) => name,
        None => word,
    };
    match address_of(name) {
        Some(address) => Some(AreaId(address)),
        None => None,
    }
}

/// The kind of an area, by the mark after it: `[Stub]`, `[NSSA]`, or none.
fn kind_in(text: &[u8]) -> AreaKind
    ensures { result ≡ kind_in (words text.now) }
{
    if after_label(Label::Stub, text).is_some() {
        return AreaKind::Stub;
    }
    if after_label(Label::Nssa, text).is_some() {
        return AreaKind::Nssa;
    }
    AreaKind::Ordinary
}

/// The area that a heading names here, and its kind.
#[tactic(auto, unfolding(crate::specs::Headings::heading_at))]
pub(crate) fn heading_at(text: &[u8]) -> Option<AreaReport>
    ensures { result ≡ heading_at (words text.now) }
{
    let (word, rest) = word_after(Label::Area, text)?;
    let id = area_of(word)?;
    Some(AreaReport {
        id,
        kind: kind_in(rest),
    })
}

/// The area that a heading here begins, else the area of the last heading before.
#[tactic(auto, unfolding(crate::specs::Headings::area_at))]
pub(crate) fn area_at(area: Option<AreaId>, text: &[u8]) -> Option<AreaId>
    ensures { result ≡ area_at area (words text.now) }
{
    match word_after(Label::Area, text) {
        Some((word, _)) => area_of(word),
        None => area,
    }
}
