//! What lines are answered that are not carried out.

ghost use Rattle.std.specs.Prelude.{◌≡◌, ◌++◌, OnOk};
ghost use Rattle.study_documents.specs.Outcomes.{fault_text, hint_reply};
ghost use Rattle.study_json.specs.Fields.{HaveNumbers, more_text};

use std::alloc::{AllocError, Allocator};
use study_json::{Text, push_next};
use study_text::push_word;

/// Adds the code and the name of a fault. The word at fault and the hint have to follow.
///
/// # Errors
///
/// Memory ran out. A part of the text may have been added.
pub fn push_fault<A: Allocator + Copy>(
    text: &mut Vec<u8, A>,
    code: &str,
    name: &str,
) -> Result<(), AllocError>
    ensures { OnOk result
        (text.new.items ≡ text.old.items ++ fault_text (code.now, name.now)) }
{
    push_next(text, "code", &code)?;
    push_next(text, "name", &name)
}

/// Adds the word at fault, as it is shown, what would have been right, and the end of the object.
///
/// # Errors
///
/// Memory ran out. A part of the text may have been added.
pub fn push_hint<A: Allocator + Copy>(
    text: &mut Vec<u8, A>,
    at: &[u8],
    hint: &[u8],
) -> Result<(), AllocError>
    ensures pushed { OnOk result
        (text.new.items ≡ text.old.items ++ more_text (hint_reply at.now hint.now)) }
    ensures numbers { OnOk result (HaveNumbers (hint_reply at.now hint.now)) }
{
    push_next(text, "at", &Text(at))?;
    push_next(text, "hint", &Text(hint))?;
    push_word(text, "}")
}
