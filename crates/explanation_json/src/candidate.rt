//! Candidates.

ghost use Rattle.std.specs.Prelude.{◌≡◌, ◌++◌, IfOk, OnOk, map};
ghost use Rattle.study_json.specs.Fields.{HaveNumbers, more_text};
ghost use Rattle.explanation_json.specs.Explanations.{candidate_json, rule_fields, state_text};

use explanation::CandidateLine;
use finding_json::NamedLsa;
use route_candidates::Candidate;
use std::alloc::{AllocError, Allocator};
use study_json::{Document, push_first, push_next};
use study_text::push_word;

/// The word for whether a candidate is used.
fn state_text(is_used: bool) -> &'static str
    ensures { result.now ≡ state_text is_used }
{
    if is_used { "used" } else { "lost" }
}

/// Adds the distance, the metric and the rule of a candidate, and the end of the object.
fn push_rule<A: Allocator + Copy>(
    text: &mut Vec<u8, A>,
    candidate: &Candidate,
) -> Result<(), AllocError>
    ensures pushed { OnOk result
        (text.new.items ≡ text.old.items ++ more_text (rule_fields candidate.now)) }
    ensures numbers { OnOk result (HaveNumbers (rule_fields candidate.now)) }
{
    push_next(text, "distance", &candidate.distance)?;
    push_next(text, "metric", &candidate.metric)?;
    push_next(text, "rule", &candidate.rule.text())?;
    push_word(text, "}")
}

/// A candidate.
#[derive(Clone, Copy, Debug)]
pub(crate) struct ShownCandidate(CandidateLine);

impl Document for ShownCandidate {
    ghost use Rattle.explanation_json.specs.Explanations.{candidate_json};

    ghost json_as = { λ line. candidate_json line.0 };

    fn push_json<A: Allocator + Copy>(&self, text: &mut Vec<u8, A>) -> Result<(), AllocError> {
        let candidate = self.0.candidate;
        push_first(text, "state", &state_text(candidate.rule.is_used()))?;
        push_next(text, "lsa", &NamedLsa(candidate.lsa))?;
        push_next(text, "link", &candidate.link)?;
        push_rule(text, &candidate)
    }
}

/// Candidates, each as its JSON is added.
pub(crate) fn shown_candidates<A: Allocator + Copy>(
    alloc: A,
    lines: &[CandidateLine],
) -> Result<Vec<ShownCandidate, A>, AllocError>
    ensures { IfOk result (λ shown. map (λ line. candidate_json line.0) shown.items
        ≡ map candidate_json lines.now) }
{
    let mut shown = Vec::new(alloc);
    for line in lines {
        shown.push(ShownCandidate(*line))?;
    }
    Ok(shown)
}
