//! Places of findings.

ghost use Rattle.std.specs.Prelude.{◌≡◌, ◌++◌, IfOk, OnOk, codes, map};
ghost use Rattle.json.specs.Tree.{HasNumbers};
ghost use Rattle.study_json.specs.Fields.{HaveNumbers, more_text};
ghost use Rattle.study_json.specs.JsonText.{json_text, member_text};
ghost use Rattle.study_json.specs.Unnamed.{no_names};
ghost use Rattle.audit_places.specs.Texts.{place_text};
ghost use Rattle.finding_json.specs.Findings.{first_json, place_json, places_reply};

use audit_places::Place;
use audit_report::class_of;
use std::alloc::{AllocError, Allocator};
use study_json::{Document, Text, no_names, push_next};
use study_text::{Shown, push_word};
use study_words::{AuditKind, Word};

/// The text of a place, with Router IDs.
fn place_text<A: Allocator + Copy, B: Allocator + Copy>(
    alloc: A,
    place: &Place<B>,
) -> Result<Vec<u8, A>, AllocError>
    ensures { IfOk result (λ text. text.items ≡ place_text no_names place.now) }
{
    let mut text = Vec::new(alloc);
    place.push_to(&mut text, &no_names(alloc))?;
    Ok(text)
}

/// A place.
#[derive(Clone, Copy)]
pub(crate) struct ShownPlace<'a, B: Allocator>(pub(crate) &'a Place<B>);

impl<B: Allocator + Copy> Document for ShownPlace<'_, B> {
    ghost use Rattle.finding_json.specs.Findings.{place_json};

    ghost json_as = { λ place. place_json place.0.now };

    fn push_json<A: Allocator + Copy>(&self, text: &mut Vec<u8, A>) -> Result<(), AllocError> {
        let shown = place_text(*text.allocator(), self.0)?;
        Text(&shown).push_json(text)
    }
}

/// Adds the first place, if there is one.
pub(crate) fn push_first_place<A: Allocator + Copy, B: Allocator + Copy>(
    text: &mut Vec<u8, A>,
    places: &[Place<B>],
) -> Result<(), AllocError>
    ensures pushed { OnOk result (text.new.items ≡ text.old.items ++ (codes ","
        ++ member_text (codes "first") (json_text (first_json places.now)))) }
    ensures numbers { OnOk result (HasNumbers (first_json places.now)) }
{
    match places.split_first() {
        Some((place, _)) => push_next(text, "first", &ShownPlace(place)),
        None => {
            let missing: Option<&str> = None;
            push_next(text, "first", &missing)
        }
    }
}

/// Places, each as its JSON is added.
fn shown_places<'p, A: Allocator + Copy, B: Allocator + Copy>(
    alloc: A,
    places: &'p [Place<B>],
) -> Result<Vec<ShownPlace<'p, B>, A>, AllocError>
    ensures { IfOk result (λ shown. map (λ place. place_json place.0.now) shown.items
        ≡ map place_json places.now) }
{
    let mut shown = Vec::new(alloc);
    for place in places {
        shown.push(ShownPlace(place))?;
    }
    Ok(shown)
}

/// Adds the reply to `audit` with a kind, and the end of the object.
///
/// # Errors
///
/// Memory ran out. A part of the text may have been added.
pub fn push_places<A: Allocator + Copy, B: Allocator + Copy>(
    text: &mut Vec<u8, A>,
    kind: AuditKind,
    places: &[Place<B>],
) -> Result<(), AllocError>
    ensures pushed { OnOk result
        (text.new.items ≡ text.old.items ++ more_text (places_reply kind places.now)) }
    ensures numbers { OnOk result (HaveNumbers (places_reply kind places.now)) }
{
    let shown = shown_places(*text.allocator(), places)?;
    push_next(text, "kind", &kind.text())?;
    push_next(text, "class", &class_of(kind).text())?;
    push_next(text, "places", &shown.as_slice())?;
    push_word(text, "}")
}
