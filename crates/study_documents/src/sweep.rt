//! The reply about what each single failure takes away.

ghost use Rattle.std.specs.Prelude.{◌≡◌, ◌++◌, OnOk};
ghost use Rattle.study_documents.specs.Replies.{sweep_reply};
ghost use Rattle.study_json.specs.Fields.{HaveNumbers, more_text};

use lsa_codec::AreaId;
use std::alloc::{AllocError, Allocator};
use study_json::push_next;
use study_text::push_word;
use study_words::{FailureKind, Word};
use sweep_report::FailureLine;

/// Adds the reply to `sweep`, by the kind and the area that the line names.
///
/// # Errors
///
/// Memory ran out. A part of the text may have been added.
pub fn push_sweep<A: Allocator + Copy>(
    text: &mut Vec<u8, A>,
    asked: (FailureKind, Option<AreaId>),
    lines: &[FailureLine],
) -> Result<(), AllocError>
    ensures pushed { OnOk result (text.new.items
        ≡ text.old.items ++ more_text (sweep_reply asked.0 asked.1 lines.now)) }
    ensures numbers { OnOk result (HaveNumbers (sweep_reply asked.0 asked.1 lines.now)) }
{
    let (kind, within) = asked;
    push_next(text, "kind", &kind.text())?;
    push_next(text, "within", &within)?;
    push_next(text, "failures", &lines)?;
    push_word(text, "}")
}
