//! The lines of a route and of its rule.

ghost use Rattle.std.specs.Prelude.{◌≡◌, ◌++◌, OnOk, codes};
ghost use Rattle.std.specs.Option.{option_copied};
ghost use Rattle.network_names.specs.Names.{called};
ghost use Rattle.explanation.specs.Texts.{head_text, kind_rule, route_line, rule_line};

use crate::candidate_line::CandidateLine;
use network_names::Names;
use route_lines::{RouteLine, push_route};
use std::alloc::{AllocError, Allocator};
use study_text::push_word;
use study_words::RouteKind;

/// The section of RFC 2328 by which a router has a route of this kind.
pub fn kind_rule(kind: RouteKind) -> &'static str
    ensures { result.now ≡ kind_rule kind }
{
    match kind {
        RouteKind::Intra => "16.1 intra-area",
        RouteKind::Inter => "16.2 inter-area",
        RouteKind::External1 => "16.4 type 1 external",
        RouteKind::External2 => "16.4 type 2 external",
        RouteKind::Own => "16.4 (2) its own",
    }
}

/// The rule of no route where there is no candidate either.
const NO_CANDIDATE: &str = "none: no LSA in its database has the prefix";

/// Adds the line of a route, or that there is none.
fn push_route_line<A: Allocator + Copy, B: Allocator + Copy>(
    text: &mut Vec<u8, A>,
    names: &Names<'_, A>,
    route: Option<&RouteLine<B>>,
) -> Result<(), AllocError>
    ensures { OnOk result (text.new.items ≡ text.old.items
        ++ (route_line (called names.now) (option_copied route.entry) ++ codes "\n")) }
{
    match route {
        Some(route) => {
            push_word(text, "route ")?;
            push_route(text, names, route)?;
        }
        None => push_word(text, "no route")?,
    }
    push_word(text, "\n")
}

/// Adds the line of a route's rule.
fn push_rule_line<A: Allocator + Copy, B: Allocator + Copy>(
    text: &mut Vec<u8, A>,
    route: Option<&RouteLine<B>>,
    candidates: &[CandidateLine],
) -> Result<(), AllocError>
    ensures { OnOk result (text.new.items ≡ text.old.items
        ++ (rule_line (option_copied route.entry) candidates.now ++ codes "\n")) }
{
    push_word(text, "rule ")?;
    match route {
        Some(route) => push_word(text, kind_rule(route.source.kind))?,
        None if candidates.is_empty() => push_word(text, NO_CANDIDATE)?,
        None => push_word(text, "none")?,
    }
    push_word(text, "\n")
}

/// Adds the lines of a route and of its rule.
pub(crate) fn push_head<A: Allocator + Copy, B: Allocator + Copy>(
    text: &mut Vec<u8, A>,
    names: &Names<'_, A>,
    route: Option<&RouteLine<B>>,
    candidates: &[CandidateLine],
) -> Result<(), AllocError>
    ensures { OnOk result (text.new.items ≡ text.old.items
        ++ head_text (called names.now) (option_copied route.entry) candidates.now) }
{
    push_route_line(text, names, route)?;
    push_rule_line(text, route, candidates)
}
