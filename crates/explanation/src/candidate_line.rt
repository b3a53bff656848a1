//! The line of a candidate, as `used area 0.0.0.0 router r4 #3 distance 20 metric 1: 16.1 least
//! cost`.

ghost use Rattle.std.specs.Prelude.{◌≡◌, ◌++◌, OnOk};
ghost use Rattle.network_names.specs.Names.{called};
ghost use Rattle.explanation.specs.Texts.{distance_text, judged_text, link_text, source_text, used_text};

use lsa_names::push_lsa_name;
use network_names::Names;
use route_candidates::Candidate;
use std::alloc::{AllocError, Allocator};
use study_text::{Line, push_number_after, push_word};

/// A candidate, which has a line.
#[derive(Clone, Copy, Debug, PartialEq, Eq)]
pub struct CandidateLine {
    /// The candidate.
    pub candidate: Candidate,
}

/// Adds whether a candidate is used.
fn push_used<A: Allocator + Copy>(text: &mut Vec<u8, A>, is_used: bool) -> Result<(), AllocError>
    ensures { OnOk result (text.new.items ≡ text.old.items ++ used_text is_used) }
{
    push_word(text, if is_used { "used " } else { "lost " })
}

/// Adds the number of a link, if there is one.
fn push_link<A: Allocator + Copy>(
    text: &mut Vec<u8, A>,
    link: Option<u16>,
) -> Result<(), AllocError>
    ensures { OnOk result (text.new.items ≡ text.old.items ++ link_text link) }
{
    match link {
        Some(link) => push_number_after(text, " #", u64::from(link)),
        None => Ok(()),
    }
}

/// Adds a distance, if it is known.
fn push_distance<A: Allocator + Copy>(
    text: &mut Vec<u8, A>,
    distance: Option<u64>,
) -> Result<(), AllocError>
    ensures { OnOk result (text.new.items ≡ text.old.items ++ distance_text distance) }
{
    match distance {
        Some(distance) => push_number_after(text, " distance ", distance),
        None => Ok(()),
    }
}

/// Adds whether a candidate is used, its LSA and its link.
fn push_source<A: Allocator + Copy>(
    text: &mut Vec<u8, A>,
    names: &Names<'_, A>,
    candidate: &Candidate,
) -> Result<(), AllocError>
    ensures { OnOk result (text.new.items
        ≡ text.old.items ++ source_text (called names.now) candidate.now) }
{
    push_used(text, candidate.rule.is_used())?;
    push_lsa_name(text, names, &candidate.lsa)?;
    push_link(text, candidate.link)
}

/// Adds the distance of a candidate, its metric, and its rule.
fn push_judged<A: Allocator + Copy>(
    text: &mut Vec<u8, A>,
    candidate: &Candidate,
) -> Result<(), AllocError>
    ensures { OnOk result (text.new.items ≡ text.old.items ++ judged_text candidate.now) }
{
    push_distance(text, candidate.distance)?;
    push_number_after(text, " metric ", u64::from(candidate.metric))?;
    push_word(text, ": ")?;
    push_word(text, candidate.rule.text())
}

impl Line for CandidateLine {
    ghost use Rattle.explanation.specs.Texts.{candidate_line};

    ghost line_as = { candidate_line };

    fn push_line<A: Allocator + Copy>(
        &self,
        text: &mut Vec<u8, A>,
        names: &Names<'_, A>,
    ) -> Result<(), AllocError> {
        push_source(text, names, &self.candidate)?;
        push_judged(text, &self.candidate)?;
        push_word(text, "\n")
    }
}
