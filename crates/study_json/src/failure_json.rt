//! Failures, and what each takes away.

ghost use Rattle.std.specs.Prelude.{◌≡◌, ◌++◌, OnOk};
ghost use Rattle.study_json.specs.Fields.{HaveNumbers, more_text};
ghost use Rattle.study_json.specs.Failures.{outcome_fields};

use crate::document::Document;
use crate::member::{push_first, push_next};
use edit_history::EditFault;
use edit_script::print;
use std::alloc::{AllocError, Allocator};
use study_text::push_word;
use sweep_report::{FailureCounts, FailureLine, Outcome};

impl Document for FailureCounts {
    ghost use Rattle.study_json.specs.Failures.{failure_counts_json};

    ghost json_as = { failure_counts_json };

    fn push_json<A: Allocator + Copy>(&self, text: &mut Vec<u8, A>) -> Result<(), AllocError> {
        push_first(text, "lost", &self.lost)?;
        push_next(text, "gone", &self.gone)?;
        push_next(text, "dearer", &self.dearer)?;
        push_next(text, "moved", &self.moved)?;
        push_next(text, "loops", &self.loops)?;
        push_word(text, "}")
    }
}

impl Document for EditFault {
    ghost use Rattle.study_json.specs.Failures.{fault_json};

    ghost json_as = { fault_json };

    fn push_json<A: Allocator + Copy>(&self, text: &mut Vec<u8, A>) -> Result<(), AllocError> {
        push_first(text, "code", &self.code())?;
        push_next(text, "name", &self.name())?;
        push_word(text, "}")
    }
}

/// Adds what comes of a failure, and the end of the object.
fn push_outcome<A: Allocator + Copy>(
    text: &mut Vec<u8, A>,
    outcome: Outcome,
) -> Result<(), AllocError>
    ensures pushed { OnOk result
        (text.new.items ≡ text.old.items ++ more_text (outcome_fields outcome)) }
    ensures numbers { OnOk result (HaveNumbers (outcome_fields outcome)) }
{
    let missing: Option<&str> = None;
    match outcome {
        Outcome::Counted(counts) => {
            push_next(text, "counts", &counts)?;
            push_next(text, "refused", &missing)?;
        }
        Outcome::Refused(fault) => {
            push_next(text, "counts", &missing)?;
            push_next(text, "refused", &fault)?;
        }
    }
    push_word(text, "}")
}

impl Document for FailureLine {
    ghost use Rattle.study_json.specs.Failures.{failure_json};

    ghost json_as = { failure_json };

    fn push_json<A: Allocator + Copy>(&self, text: &mut Vec<u8, A>) -> Result<(), AllocError> {
        let spelled = print(*text.allocator(), &self.edit)?;
        push_first(text, "edit", &spelled)?;
        push_outcome(text, self.outcome)
    }
}
