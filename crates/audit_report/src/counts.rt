//! Kinds, each with the number of its places.

use network_names::Names;
use std::alloc::{AllocError, Allocator};
use study_text::{Shown, push_number_after, push_word};
use study_words::{AuditKind, Word};

/// A kind, and how many places it has.
#[derive(Clone, Copy, Debug, PartialEq, Eq)]
pub struct KindCount {
    /// The kind.
    pub kind: AuditKind,
    /// How many places it has.
    pub count: usize,
}

impl Shown for KindCount {
    ghost use Rattle.audit_report.specs.Expected.{count_text};

    ghost shown_as = { λ called one. count_text one };

    fn push_to<A: Allocator + Copy>(
        &self,
        text: &mut Vec<u8, A>,
        _names: &Names<'_, A>,
    ) -> Result<(), AllocError> {
        push_word(text, self.kind.text())?;
        push_number_after(text, " ", self.count as u64)
    }
}
