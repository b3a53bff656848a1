//! Replies to `explain`.

ghost use Rattle.std.specs.Prelude.{◌≡◌, ◌++◌, OnOk, codes};
ghost use Rattle.std.specs.Option.{option_copied};
ghost use Rattle.json.specs.Tree.{HasNumbers};
ghost use Rattle.study_json.specs.Fields.{HaveNumbers, more_text};
ghost use Rattle.study_json.specs.JsonText.{json_text, member_text};
ghost use Rattle.explanation_json.specs.Explanations.{explain_reply, list_fields, rule_json};

use crate::candidate::shown_candidates;
use crate::rest::shown_rests;
use crate::step::shown_steps;
use explanation::{Explanation, kind_rule};
use lsa_codec::{Prefix, RouterId};
use route_lines::RouteLine;
use std::alloc::{AllocError, Allocator};
use study_json::push_next;
use study_text::push_word;

/// Adds the rule of a route, if there is one.
fn push_rule<A: Allocator + Copy, B: Allocator>(
    text: &mut Vec<u8, A>,
    route: Option<&RouteLine<B>>,
) -> Result<(), AllocError>
    ensures pushed { OnOk result (text.new.items ≡ text.old.items ++ (codes ","
        ++ member_text (codes "rule") (json_text (rule_json (option_copied route.entry))))) }
    ensures numbers { OnOk result (HasNumbers (rule_json (option_copied route.entry))) }
{
    match route {
        Some(route) => push_next(text, "rule", &kind_rule(route.source.kind)),
        None => {
            let missing: Option<&str> = None;
            push_next(text, "rule", &missing)
        }
    }
}

/// Adds candidates, steps and LSAs, and the end of the object.
fn push_lists<A: Allocator + Copy>(
    text: &mut Vec<u8, A>,
    explanation: &Explanation<A>,
) -> Result<(), AllocError>
    ensures pushed { OnOk result
        (text.new.items ≡ text.old.items ++ more_text (list_fields explanation.now)) }
    ensures numbers { OnOk result (HaveNumbers (list_fields explanation.now)) }
{
    let alloc = *text.allocator();
    let candidates = shown_candidates(alloc, &explanation.candidates)?;
    let steps = shown_steps(alloc, &explanation.ways)?;
    let rests = shown_rests(alloc, &explanation.rests)?;
    push_next(text, "candidates", &candidates.as_slice())?;
    push_next(text, "steps", &steps.as_slice())?;
    push_next(text, "rests", &rests.as_slice())?;
    push_word(text, "}")
}

/// Adds the reply to `explain` for a router and a prefix, and the end of the object.
///
/// # Errors
///
/// Memory ran out. A part of the text may have been added.
pub fn push_explanation<A: Allocator + Copy>(
    text: &mut Vec<u8, A>,
    place: (RouterId, Prefix),
    explanation: &Explanation<A>,
) -> Result<(), AllocError>
    ensures pushed { OnOk result (text.new.items
        ≡ text.old.items ++ more_text (explain_reply place.0 place.1 explanation.now)) }
    ensures numbers { OnOk result
        (HaveNumbers (explain_reply place.0 place.1 explanation.now)) }
{
    let (router, net) = place;
    push_next(text, "router", &router)?;
    push_next(text, "prefix", &net)?;
    push_next(text, "route", &explanation.route)?;
    push_rule(text, explanation.route.as_ref())?;
    push_lists(text, explanation)
}
