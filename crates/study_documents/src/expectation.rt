//! What expectations are answered.

ghost use Rattle.std.specs.Prelude.{◌≡◌, ◌++◌, OnOk};
ghost use Rattle.study_documents.specs.Outcomes.{expectation_reply};
ghost use Rattle.study_json.specs.Fields.{HaveNumbers, more_text};

use std::alloc::{AllocError, Allocator};
use study_json::{Text, push_next};
use study_text::push_word;
use study_words::{ConditionWord, Word};

/// Adds the reply to an expectation: its condition, and what was found.
///
/// # Errors
///
/// Memory ran out. A part of the text may have been added.
pub fn push_expectation<A: Allocator + Copy>(
    text: &mut Vec<u8, A>,
    condition: ConditionWord,
    found: &[u8],
) -> Result<(), AllocError>
    ensures pushed { OnOk result (text.new.items
        ≡ text.old.items ++ more_text (expectation_reply condition found.now)) }
    ensures numbers { OnOk result
        (HaveNumbers (expectation_reply condition found.now)) }
{
    push_next(text, "expected", &condition.text())?;
    push_next(text, "found", &Text(found))?;
    push_word(text, "}")
}
