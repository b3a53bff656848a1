//! The last document of a run.

ghost use Rattle.std.specs.Prelude.{◌≡◌, ◌++◌, OnOk, codes, if◌then◌else◌};
ghost use Rattle.json.specs.Tree.{HasNumbers};
ghost use Rattle.study_documents.specs.Summary.{summary_json};
ghost use Rattle.study_json.specs.JsonText.{json_text};

use std::alloc::{AllocError, Allocator};
use study_json::{Document, push_first, push_next};
use study_text::push_word;

/// The word for the result of a run.
fn result_word(has_passed: bool) -> &'static str
    ensures { result.now ≡ (if has_passed then codes "ok" else codes "failed") }
{
    if has_passed { "ok" } else { "failed" }
}

/// What a run counts.
#[derive(Clone, Copy, Debug)]
pub struct Counted {
    /// Whether every line was accepted.
    pub has_passed: bool,
    /// The lines that were answered.
    pub lines: u64,
    /// Those that were refused.
    pub refused: u64,
    /// The expectations that were neither faulty nor refused.
    pub expectations: u64,
    /// Those of them that failed.
    pub failed: u64,
}

impl Document for Counted {
    ghost use Rattle.study_documents.specs.Summary.{counted_json};

    ghost json_as = { λ c.
        counted_json c.has_passed c.lines c.refused c.expectations c.failed };

    fn push_json<A: Allocator + Copy>(&self, text: &mut Vec<u8, A>) -> Result<(), AllocError> {
        push_first(text, "result", &result_word(self.has_passed))?;
        push_next(text, "lines", &self.lines)?;
        push_next(text, "refused", &self.refused)?;
        push_next(text, "expectations", &self.expectations)?;
        push_next(text, "failed", &self.failed)?;
        push_word(text, "}")
    }
}

/// Adds the last document of a run, which counts.
///
/// # Errors
///
/// Memory ran out. A part of the text may have been added.
pub fn push_summary<A: Allocator + Copy>(
    text: &mut Vec<u8, A>,
    counted: Counted,
) -> Result<(), AllocError>
    ensures pushed { OnOk result (text.new.items ≡ text.old.items
        ++ json_text (summary_json counted.has_passed counted.lines counted.refused
        counted.expectations counted.failed)) }
    ensures numbers { OnOk result (HasNumbers (summary_json counted.has_passed counted.lines
        counted.refused counted.expectations counted.failed)) }
{
    push_first(text, "summary", &counted)?;
    push_word(text, "}")
}
