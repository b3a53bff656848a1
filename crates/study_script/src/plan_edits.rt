//! Edits of `ospf-plan` where names may stand, of three arguments or more.
#![tactic(auto, unfolding(crate::specs::PlanLines::plan_line_of))]

ghost use Rattle.std.specs.Prelude.{◌≡◌};
ghost use Rattle.network_names.specs.Names.{stands_for};
ghost use Rattle.study_arguments.specs.Fault.{Is};
ghost use Rattle.study_arguments.specs.Positions.{words_at};
ghost use Rattle.study_words.specs.declared.plan_word.PlanWord.TheVariants as words;
ghost use Rattle.study_script.specs.PlanLines.{edited, plan_line_of};

use crate::named_command::NamedCommand;
use edit_script::{Command, Edit};
use network_names::Names;
use std::alloc::Allocator;
use study_arguments::{Dotted, Fault, Position, four, six, three};

/// An edit whose link, if it has one, is a number.
pub(crate) fn edited(edit: Edit) -> NamedCommand
    ensures { result ≡ edited edit }
{
    NamedCommand::Command(Command::Edit(edit))
}

/// `cost AREA ROUTER LINK METRIC`.
pub(crate) fn cost<'a, A: Allocator + Copy>(
    names: &Names<'_, A>,
    line: Position<'a>,
) -> Result<NamedCommand, Fault<'a>>
    ensures { Is result (plan_line_of (stands_for names.now) words.Cost (words_at line.entry)) }
{
    let (area, router, link, metric) = four(names, line)?;
    Ok(NamedCommand::Cost {
        area,
        router,
        link,
        metric,
    })
}

/// `fail-link AREA ROUTER NEIGHBOR`.
pub(crate) fn fail_link<'a, A: Allocator + Copy>(
    names: &Names<'_, A>,
    line: Position<'a>,
) -> Result<NamedCommand, Fault<'a>>
    ensures { Is result (plan_line_of (stands_for names.now) words.FailLink (words_at line.entry)) }
{
    let (area, router, neighbor) = three(names, line)?;
    Ok(edited(Edit::FailLink {
        area,
        router,
        neighbor,
    }))
}

/// `add-external ROUTER PREFIX TYPE METRIC FORWARD TAG`; no name stands for FORWARD.
pub(crate) fn add_external<'a, A: Allocator + Copy>(
    names: &Names<'_, A>,
    line: Position<'a>,
) -> Result<NamedCommand, Fault<'a>>
    ensures { Is result
        (plan_line_of (stands_for names.now) words.AddExternal (words_at line.entry)) }
{
    let (router, prefix, metric_type, metric, Dotted(forward), tag) = six(names, line)?;
    Ok(edited(Edit::AddExternal {
        router,
        prefix,
        metric_type,
        metric,
        forward,
        tag,
    }))
}
