//! Findings: a kind, and its places.

ghost use Rattle.std.specs.Prelude.{◌≡◌, ◌++◌, OnOk};
ghost use Rattle.network_names.specs.Names.{called};
ghost use Rattle.audit_report.specs.Expected.{kind_count};
ghost use Rattle.audit_report.specs.Meanings.{is_wrong};
ghost use Rattle.audit_report.specs.Texts.{counted_text, first_text, meant_text};

use crate::counts::KindCount;
use crate::meanings::{action, class_of, is_wrong, meaning};
use audit_places::Place;
use network_names::Names;
use std::alloc::{AllocError, Allocator, Global};
use std::marker::Model;
use study_text::{Line, Shown, push_after, push_word};
use study_words::AuditKind;

/// The findings of a kind. Contracts see them as the kind and the list of the places.
#[derive(Drop)]
pub struct Finding<A: Allocator = Global> {
    /// The kind.
    pub kind: AuditKind,
    /// Its places, in order.
    pub places: Vec<Place<A>, A>,
}

impl<A: Allocator> Model for Finding<A> {
    ghost use Rattle.audit_report.specs.Findings.{FindingValue};

    ghost Value = { FindingValue };

    ghost view = { λ f. record { kind = f.kind; places = f.places.items } };
}

/// Adds the first of some places, if there is one.
fn push_first<A: Allocator + Copy, B: Allocator + Copy>(
    text: &mut Vec<u8, A>,
    names: &Names<'_, A>,
    places: &[Place<B>],
) -> Result<(), AllocError>
    ensures { OnOk result
        (text.new.items ≡ text.old.items ++ first_text (called names.now) places.now) }
{
    push_after(text, names, " ", places.first())
}

impl<B: Allocator + Copy> Finding<B> {
    /// Whether its kind can make a table wrong.
    pub(crate) fn is_wrong(&self) -> bool
        ensures { result ≡ is_wrong self.now.kind }
    {
        is_wrong(self.kind)
    }

    /// The kind, and how many places it has.
    pub(crate) fn count(&self) -> KindCount
        ensures { result ≡ kind_count self.now }
    {
        KindCount {
            kind: self.kind,
            count: self.places.len(),
        }
    }

    /// Adds the class of its kind, the kind, and how many places it has.
    fn push_counted<A: Allocator + Copy>(
        &self,
        text: &mut Vec<u8, A>,
        names: &Names<'_, A>,
    ) -> Result<(), AllocError>
        ensures { OnOk result (text.new.items ≡ text.old.items ++ counted_text self.now) }
    {
        push_word(text, class_of(self.kind).text())?;
        push_word(text, " ")?;
        self.count().push_to(text, names)
    }

    /// Adds what its kind means, and what to do.
    fn push_meant<A: Allocator + Copy>(&self, text: &mut Vec<u8, A>) -> Result<(), AllocError>
        ensures { OnOk result (text.new.items ≡ text.old.items ++ meant_text self.now) }
    {
        push_word(text, ": ")?;
        push_word(text, meaning(self.kind))?;
        push_word(text, "; ")?;
        push_word(text, action(self.kind))
    }
}

impl<B: Allocator + Copy> Line for Finding<B> {
    ghost use Rattle.audit_report.specs.Texts.{finding_line};

    ghost line_as = { finding_line };

    fn push_line<A: Allocator + Copy>(
        &self,
        text: &mut Vec<u8, A>,
        names: &Names<'_, A>,
    ) -> Result<(), AllocError> {
        self.push_counted(text, names)?;
        push_first(text, names, &self.places)?;
        self.push_meant(text)?;
        push_word(text, "\n")
    }
}
