//! What a line means for those below it.

ghost use Rattle.std.specs.Prelude.{◌≡◌};
ghost use Rattle.frr_text.specs.Words.{words};
ghost use Rattle.lsdb_listing.specs.Headings.{is_columns, is_idle, is_start, is_heading_word, has_heading_word, line_kind_of, heading_after};
ghost use Rattle.lsdb_listing.specs.ParsedLines.{is_heading};

use crate::heading::{Heading, heading_in};
use crate::label::{Label, begins_with};
use frr_text::next_word;

/// What a line means for those below it.
#[derive(Clone, Copy)]
pub(crate) enum LineKind {
    /// The heading of rows.
    Heading(Heading),
    /// A router or a program names itself: another list may begin.
    Start,
    /// A heading of rows of an unknown kind.
    Foreign,
    /// Nothing, or the names of columns.
    Idle,
    /// Any other line: a row, where a heading stands above it.
    Row,
}

impl LineKind {
    /// Whether it is a heading.
    pub(crate) fn is_heading(self) -> bool
        ensures { result ≡ is_heading self }
    {
        matches!(self, LineKind::Heading(_))
    }

    /// The heading that the next line stands under.
    pub(crate) fn heading_after(self, heading: Option<Heading>) -> Option<Heading>
        ensures { result ≡ heading_after heading self }
    {
        match self {
            LineKind::Heading(next) => Some(next),
            LineKind::Start | LineKind::Foreign => None,
            LineKind::Idle | LineKind::Row => heading,
        }
    }
}

/// Whether a line has no words, or names columns.
fn is_idle(line: &[u8]) -> bool
    ensures { result ≡ is_idle (words line.now) }
{
    next_word(line).is_none()
        || begins_with(Label::IdColumns, line)
        || begins_with(Label::OpaqueColumns, line)
        || begins_with(Label::TypeColumns, line)
}

/// Whether a router or a program names itself.
fn is_start(line: &[u8]) -> bool
    ensures { result ≡ is_start (words line.now) }
{
    begins_with(Label::Printer, line) || begins_with(Label::Bird, line)
}

/// Whether a word of a heading stands here.
fn is_heading_word(line: &[u8]) -> bool
    ensures { result ≡ is_heading_word (words line.now) }
{
    begins_with(Label::InArea, line) || begins_with(Label::States, line)
}

/// Whether a word of a heading stands somewhere in the line.
fn has_heading_word(line: &[u8]) -> bool
    ensures { result ≡ has_heading_word (words line.now) }
{
    let mut rest = line;
    while let Some((_word, after)) = next_word(rest) {
        if is_heading_word(rest) {
            return true;
        }
        rest = after;
    }
    false
}

/// What a line means for those below it.
#[tactic(auto, unfolding(crate::specs::Headings::line_kind_of))]
pub(crate) fn line_kind_of(line: &[u8]) -> LineKind
    ensures { result ≡ line_kind_of (words line.now) }
{
    if is_idle(line) {
        return LineKind::Idle;
    }
    if let Some(heading) = heading_in(line) {
        return LineKind::Heading(heading);
    }
    if is_start(line) {
        return LineKind::Start;
    }
    if has_heading_word(line) {
        LineKind::Foreign
    } else {
        LineKind::Row
    }
}
