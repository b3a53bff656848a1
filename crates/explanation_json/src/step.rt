//! Steps on paths of least cost.

ghost use Rattle.std.specs.Prelude.{◌≡◌, ◌++◌, IfOk, OnOk, map};
ghost use Rattle.study_json.specs.Fields.{HaveNumbers, more_text};
ghost use Rattle.explanation_json.specs.Explanations.{end_text, leading_fields, step_json};

use explanation::WayStep;
use std::alloc::{AllocError, Allocator};
use study_json::{Document, push_first, push_next};
use study_text::push_word;

/// The word for what a step ends at.
fn end_text(is_network: bool) -> &'static str
    ensures { result.now ≡ end_text is_network }
{
    if is_network { "network" } else { "router" }
}

/// Adds the interface of a step, what it leads over, and what it costs.
fn push_leading<A: Allocator + Copy>(
    text: &mut Vec<u8, A>,
    step: &WayStep,
) -> Result<(), AllocError>
    ensures pushed { OnOk result
        (text.new.items ≡ text.old.items ++ more_text (leading_fields step.now)) }
    ensures numbers { OnOk result (HaveNumbers (leading_fields step.now)) }
{
    push_next(text, "out", &step.out)?;
    push_next(text, "over", &step.over)?;
    push_next(text, "cost", &step.cost)?;
    push_next(text, "sum", &step.sum)?;
    push_word(text, "}")
}

/// A step.
#[derive(Clone, Copy, Debug)]
pub(crate) struct ShownStep(WayStep);

impl Document for ShownStep {
    ghost use Rattle.explanation_json.specs.Explanations.{step_json};

    ghost json_as = { λ step. step_json step.0 };

    fn push_json<A: Allocator + Copy>(&self, text: &mut Vec<u8, A>) -> Result<(), AllocError> {
        let step = self.0;
        push_first(text, "area", &step.area)?;
        push_next(text, "router", &step.router)?;
        push_next(text, "kind", &end_text(step.is_network))?;
        push_next(text, "to", &step.end)?;
        push_leading(text, &step)
    }
}

/// Steps, each as its JSON is added.
pub(crate) fn shown_steps<A: Allocator + Copy>(
    alloc: A,
    steps: &[WayStep],
) -> Result<Vec<ShownStep, A>, AllocError>
    ensures { IfOk result (λ shown. map (λ step. step_json step.0) shown.items
        ≡ map step_json steps.now) }
{
    let mut shown = Vec::new(alloc);
    for step in steps {
        shown.push(ShownStep(*step))?;
    }
    Ok(shown)
}
