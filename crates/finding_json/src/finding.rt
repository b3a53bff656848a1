//! Findings of audits.

ghost use Rattle.std.specs.Prelude.{◌≡◌, ◌++◌, IfOk, OnOk, map};
ghost use Rattle.json.specs.Tree.{HasNumbers};
ghost use Rattle.study_json.specs.Fields.{HaveNumbers, more_text};
ghost use Rattle.study_json.specs.JsonText.{json_text};
ghost use Rattle.finding_json.specs.Findings.{findings_reply, found_json, found_json_of, meaning_fields};

use crate::place::push_first_place;
use audit_places::Place;
use audit_report::{Audit, Finding, action, class_of, meaning};
use std::alloc::{AllocError, Allocator};
use study_json::{Document, push_first, push_next};
use study_text::push_word;
use study_words::{AuditKind, Word};

/// Adds what a kind means and what is to be done, and the end of the object.
fn push_meaning<A: Allocator + Copy>(
    text: &mut Vec<u8, A>,
    kind: AuditKind,
) -> Result<(), AllocError>
    ensures pushed { OnOk result
        (text.new.items ≡ text.old.items ++ more_text (meaning_fields kind)) }
    ensures numbers { OnOk result (HaveNumbers (meaning_fields kind)) }
{
    push_next(text, "meaning", &meaning(kind))?;
    push_next(text, "action", &action(kind))?;
    push_word(text, "}")
}

/// Adds the findings of a kind.
fn push_found<A: Allocator + Copy, B: Allocator + Copy>(
    text: &mut Vec<u8, A>,
    kind: AuditKind,
    places: &[Place<B>],
) -> Result<(), AllocError>
    ensures pushed { OnOk result
        (text.new.items ≡ text.old.items ++ json_text (found_json_of kind places.now)) }
    ensures numbers { OnOk result (HasNumbers (found_json_of kind places.now)) }
{
    push_first(text, "class", &class_of(kind).text())?;
    push_next(text, "kind", &kind.text())?;
    push_next(text, "count", &places.len())?;
    push_first_place(text, places)?;
    push_meaning(text, kind)
}

/// A finding.
#[derive(Clone, Copy)]
struct ShownFinding<'a, B: Allocator>(&'a Finding<B>);

impl<B: Allocator + Copy> Document for ShownFinding<'_, B> {
    ghost use Rattle.finding_json.specs.Findings.{found_json};

    ghost json_as = { λ finding. found_json finding.0.now };

    fn push_json<A: Allocator + Copy>(&self, text: &mut Vec<u8, A>) -> Result<(), AllocError> {
        let finding = self.0;
        push_found(text, finding.kind, finding.places.as_slice())
    }
}

/// Findings, each as its JSON is added.
fn shown_findings<'f, A: Allocator + Copy>(
    alloc: A,
    findings: &'f [Finding<A>],
) -> Result<Vec<ShownFinding<'f, A>, A>, AllocError>
    ensures { IfOk result (λ shown. map (λ finding. found_json finding.0.now) shown.items
        ≡ map found_json findings.now) }
{
    let mut shown = Vec::new(alloc);
    for finding in findings {
        shown.push(ShownFinding(finding))?;
    }
    Ok(shown)
}

/// Adds the reply to `audit` without a kind, and the end of the object.
///
/// # Errors
///
/// Memory ran out. A part of the text may have been added.
pub fn push_findings<A: Allocator + Copy>(
    text: &mut Vec<u8, A>,
    audit: &Audit<A>,
) -> Result<(), AllocError>
    ensures pushed { OnOk result
        (text.new.items ≡ text.old.items ++ more_text (findings_reply audit.now)) }
    ensures numbers { OnOk result (HaveNumbers (findings_reply audit.now)) }
{
    let alloc = *text.allocator();
    let wrong = audit.wrong(alloc)?.len();
    let findings = shown_findings(alloc, audit.findings())?;
    push_next(text, "wrong", &wrong)?;
    push_next(text, "findings", &findings.as_slice())?;
    push_word(text, "}")
}
