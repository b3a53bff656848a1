//! Why a route is what it is.

ghost use Rattle.std.specs.Prelude.{◌≡◌, ◌++◌, IfOk, OnOk};
ghost use Rattle.network_names.specs.Names.{called};
ghost use Rattle.explanation.specs.Texts.{explanation_text, lines_in};
ghost use Rattle.explanation.specs.Whole.{ExplainsArea, ExplainsAreas, IsExplanation, lines_of_candidates};

use crate::candidate_line::CandidateLine;
use crate::rest::Rest;
use crate::rests::{insert_candidates, insert_paths, insert_targets};
use crate::rule_text::push_head;
use crate::steps::{edges_in, steps_in, targets_in};
use crate::way_step::WayStep;
use area_candidates::AreaView;
use lsa_codec::Prefix;
use network_names::Names;
use route_candidates::{Candidate, RouterView, Target, candidates, targets};
use route_lines::RouteLine;
use std::alloc::{AllocError, Allocator, Global};
use std::collections::BTreeSet;
use std::marker::Model;
use study_text::push_lines;

/// Why a router's route to a prefix is what it is. Contracts see it as the record of its fields.
#[derive(Drop)]
pub struct Explanation<A: Allocator = Global> {
    /// What the router uses for the prefix.
    pub route: Option<RouteLine<A>>,
    /// All candidates for its table's route.
    pub candidates: Vec<CandidateLine, A>,
    /// The steps on paths of least cost to where those lead that are used, area by area.
    pub ways: Vec<WayStep, A>,
    /// The LSAs on which the table's route rests, in order.
    pub rests: Vec<Rest, A>,
}

impl<A: Allocator> Model for Explanation<A> {
    ghost use Rattle.explanation.specs.Texts.{ExplanationValue};

    ghost Value = { ExplanationValue };

    ghost view = { λ e. record {
      route = e.route;
      candidates = e.candidates.items;
      ways = e.ways.items;
      rests = e.rests.items;
    } };
}

/// Candidates as lines.
fn candidate_lines<A: Allocator + Copy>(
    alloc: A,
    candidates: &[Candidate],
) -> Result<Vec<CandidateLine, A>, AllocError>
    ensures { IfOk result (λ lines. lines.items ≡ lines_of_candidates candidates.now) }
{
    candidates
        .iter()
        .map(|candidate| CandidateLine {
            candidate: *candidate,
        })
        .collect(alloc)
}

/// Adds the steps of an area, and the LSAs of the vertices on its paths.
fn explain_area<A: Allocator + Copy>(
    alloc: A,
    view: &AreaView<'_, A>,
    targets: &[Target],
    ways: &mut Vec<WayStep, A>,
    rests: &mut BTreeSet<Rest, A>,
) -> Result<(), AllocError>
    ensures { OnOk result (ExplainsArea view.now targets.now ways.old.items ways.new.items
        rests.old.keys rests.new.keys) }
{
    let vertices = targets_in(alloc, targets, view.area())?;
    let edges = edges_in(alloc, view, &vertices)?;
    ways.append(&mut steps_in(alloc, view, &vertices, &edges)?)?;
    insert_paths(alloc, rests, view, &vertices, &edges)
}

/// Adds the steps of areas, and the LSAs of the vertices on their paths.
fn explain_areas<A: Allocator + Copy>(
    alloc: A,
    views: &[AreaView<'_, A>],
    targets: &[Target],
    ways: &mut Vec<WayStep, A>,
    rests: &mut BTreeSet<Rest, A>,
) -> Result<(), AllocError>
    ensures { OnOk result (ExplainsAreas views.now targets.now ways.old.items ways.new.items
        rests.old.keys rests.new.keys) }
{
    for view in views {
        explain_area(alloc, view, targets, ways, rests)?;
    }
    Ok(())
}

impl<A: Allocator + Copy> Explanation<A> {
    /// Why a router has this route to a prefix, or none.
    ///
    /// # Errors
    ///
    /// Memory ran out.
    pub fn of(
        alloc: A,
        view: &RouterView<'_, A>,
        net: Prefix,
        route: Option<RouteLine<A>>,
    ) -> Result<Explanation<A>, AllocError>
        ensures { IfOk result (IsExplanation view.now net route) }
    {
        let candidates = candidates(alloc, view, net)?;
        let targets = targets(alloc, view, &candidates)?;
        let mut ways = Vec::new(alloc);
        let mut rests = BTreeSet::new(alloc);
        insert_candidates(&mut rests, &candidates)?;
        insert_targets(&mut rests, &targets)?;
        explain_areas(alloc, view.areas(), &targets, &mut ways, &mut rests)?;
        Ok(Explanation {
            route,
            candidates: candidate_lines(alloc, &candidates)?,
            ways,
            rests: rests.into_iter().collect(alloc)?,
        })
    }

    /// How many lines [`push_explanation`] adds.
    ///
    /// # Errors
    ///
    /// They are more than memory can hold.
    pub fn line_count(&self) -> Result<usize, AllocError>
        ensures { IfOk result (λ count. count ≡ lines_in self.now) }
    {
        let lines = self.candidates.len() + self.ways.len();
        let more = 2 + self.rests.len();
        lines.checked_add(more).ok_or(AllocError)
    }
}

/// Adds the lines of an explanation: the route, its rule, the candidates, the steps on paths of
/// least cost, and the LSAs on which the route rests.
///
/// # Errors
///
/// Memory ran out. A part of the text may have been added.
pub fn push_explanation<A: Allocator + Copy>(
    text: &mut Vec<u8, A>,
    names: &Names<'_, A>,
    explanation: &Explanation<A>,
) -> Result<(), AllocError>
    ensures { OnOk result (text.new.items
        ≡ text.old.items ++ explanation_text (called names.now) explanation.now) }
{
    push_head(
        text,
        names,
        explanation.route.as_ref(),
        &explanation.candidates,
    )?;
    push_lines(text, names, &explanation.candidates)?;
    push_lines(text, names, &explanation.ways)?;
    push_lines(text, names, &explanation.rests)
}
