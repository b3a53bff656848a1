//! How databases differ.

ghost use Rattle.std.specs.Prelude.{◌≡◌, ◌++◌, IfOk, OnOk, codes, map};
ghost use Rattle.study_json.specs.Fields.{HaveNumbers, more_text};
ghost use Rattle.study_json.specs.JsonText.{json_text};
ghost use Rattle.json.specs.Tree.{HasNumbers};
ghost use Rattle.finding_json.specs.Differences.{area_what, area_word, difference_json, differences_reply, lsa_what, lsa_word};

use crate::lsa::NamedLsa;
use lsa_changes::{LsaChange, push_change};
use lsa_codec::AreaId;
use lsa_differences::{AreaChange, DifferenceLine};
use lsa_names::LsaName;
use std::alloc::{AllocError, Allocator};
use study_documents::push_listing;
use study_json::{Document, Text, no_names, push_first, push_next};
use study_text::push_word;

/// The word for how an area differs.
fn area_word(change: AreaChange) -> &'static str
    ensures { result.now ≡ area_word change }
{
    match change {
        AreaChange::New(_) => "new",
        AreaChange::Gone(_) => "gone",
        AreaChange::Kind(_) => "changed",
    }
}

/// The kind of an area that differs, or both kinds.
fn area_what(change: AreaChange) -> &'static str
    ensures { result.now ≡ area_what change }
{
    match change {
        AreaChange::New(false) | AreaChange::Gone(false) => "kind ordinary",
        AreaChange::New(true) | AreaChange::Gone(true) => "kind stub",
        AreaChange::Kind(false) => "kind stub -> ordinary",
        AreaChange::Kind(true) => "kind ordinary -> stub",
    }
}

/// The word for how an LSA differs.
fn lsa_word(change: LsaChange) -> &'static str
    ensures { result.now ≡ lsa_word change }
{
    match change {
        LsaChange::New(_) => "new",
        LsaChange::Gone(_) => "gone",
        LsaChange::Field(_)
        | LsaChange::Link(_)
        | LsaChange::NewMember(_)
        | LsaChange::GoneMember(_)
        | LsaChange::Content(_, _) => "changed",
    }
}

/// What of an LSA differs, or the detail of one that came or went, with Router IDs.
fn lsa_what<A: Allocator + Copy>(alloc: A, change: LsaChange) -> Result<Vec<u8, A>, AllocError>
    ensures { IfOk result (λ text. text.items ≡ lsa_what change) }
{
    let mut text = Vec::new(alloc);
    push_change(&mut text, &no_names(alloc), change)?;
    Ok(text)
}

/// A difference.
#[derive(Clone, Copy, Debug)]
struct Difference(DifferenceLine);

/// Adds an area that differs.
fn push_area<A: Allocator + Copy>(
    text: &mut Vec<u8, A>,
    area: AreaId,
    change: AreaChange,
) -> Result<(), AllocError>
    ensures { OnOk result (text.new.items ≡ text.old.items
        ++ json_text (difference_json (DifferenceLine.Area area change))) }
{
    let missing: Option<NamedLsa> = None;
    push_first(text, "change", &area_word(change))?;
    push_next(text, "area", &area)?;
    push_next(text, "lsa", &missing)?;
    push_next(text, "what", &area_what(change))?;
    push_word(text, "}")
}

/// Adds an LSA that differs.
fn push_lsa<A: Allocator + Copy>(
    text: &mut Vec<u8, A>,
    name: LsaName,
    change: LsaChange,
) -> Result<(), AllocError>
    ensures pushed { OnOk result (text.new.items ≡ text.old.items
        ++ json_text (difference_json (DifferenceLine.Lsa name change))) }
    ensures numbers { OnOk result
        (HasNumbers (difference_json (DifferenceLine.Lsa name change))) }
{
    let what = lsa_what(*text.allocator(), change)?;
    push_first(text, "change", &lsa_word(change))?;
    push_next(text, "area", &name.area)?;
    push_next(text, "lsa", &NamedLsa(name))?;
    push_next(text, "what", &Text(&what))?;
    push_word(text, "}")
}

impl Document for Difference {
    ghost use Rattle.finding_json.specs.Differences.{difference_json};

    ghost json_as = { λ difference. difference_json difference.0 };

    fn push_json<A: Allocator + Copy>(&self, text: &mut Vec<u8, A>) -> Result<(), AllocError> {
        match self.0 {
            DifferenceLine::Area(area, change) => push_area(text, area, change),
            DifferenceLine::Lsa(name, change) => push_lsa(text, name, change),
        }
    }
}

/// Differences, each as its JSON is added.
fn shown_lines<A: Allocator + Copy>(
    alloc: A,
    lines: &[DifferenceLine],
) -> Result<Vec<Difference, A>, AllocError>
    ensures { IfOk result (λ shown. map (λ difference. difference_json difference.0) shown.items
        ≡ map difference_json lines.now) }
{
    let mut shown = Vec::new(alloc);
    for line in lines {
        shown.push(Difference(*line))?;
    }
    Ok(shown)
}

/// Adds the reply to `differences`, and the end of the object.
///
/// # Errors
///
/// Memory ran out. A part of the text may have been added.
pub fn push_differences<A: Allocator + Copy>(
    text: &mut Vec<u8, A>,
    lines: &[DifferenceLine],
) -> Result<(), AllocError>
    ensures pushed { OnOk result
        (text.new.items ≡ text.old.items ++ more_text (differences_reply lines.now)) }
    ensures numbers { OnOk result (HaveNumbers (differences_reply lines.now)) }
{
    let shown = shown_lines(*text.allocator(), lines)?;
    push_listing(text, "differences", &shown)
}
