//! Reading a command of `ospf-plan` where names may stand.

ghost use Rattle.std.specs.Prelude.{◌≡◌};
ghost use Rattle.network_names.specs.Names.{stands_for};
ghost use Rattle.study_arguments.specs.Fault.{Is};
ghost use Rattle.study_arguments.specs.Positions.{words_at};
ghost use Rattle.study_script.specs.PlanLines.{alone, plan_line_of};

use crate::named_command::NamedCommand;
use crate::plan_edits::{add_external, cost, edited, fail_link};
use edit_script::{Command, Edit};
use network_names::Names;
use std::alloc::Allocator;
use study_arguments::{Fault, Position, end, four, one, three, two};
use study_words::PlanWord;

/// The edit of this variant, which has an area, a router, a prefix and a metric.
macro_rules! prefix_edit {
    ($variant:ident, $names:expr, $line:expr) => {{
        let (area, router, prefix, metric) = four($names, $line)?;
        Ok(edited(Edit::$variant {
            area,
            router,
            prefix,
            metric,
        }))
    }};
}

/// What a command word means that stands alone.
pub(crate) fn alone<'a, T: Copy>(meaning: T, line: Position<'a>) -> Result<T, Fault<'a>>
    ensures { Is result (alone meaning (words_at line.entry)) }
{
    end(line)?;
    Ok(meaning)
}

/// What a command word of `ospf-plan` and the words after it mean.
#[tactic(auto, unfolding(crate::specs::PlanLines::plan_line_of))]
pub(crate) fn plan_line<'a, A: Allocator + Copy>(
    names: &Names<'_, A>,
    word: PlanWord,
    line: Position<'a>,
) -> Result<NamedCommand, Fault<'a>>
    ensures { Is result (plan_line_of (stands_for names.now) word (words_at line.entry)) }
{
    match word {
        PlanWord::Cost => cost(names, line),
        PlanWord::DropLink => {
            let (area, router, link) = three(names, line)?;
            Ok(NamedCommand::DropLink { area, router, link })
        }
        PlanWord::FailLink => fail_link(names, line),
        PlanWord::FailNet => {
            let (area, network) = two(names, line)?;
            Ok(edited(Edit::FailNet { area, network }))
        }
        PlanWord::FailRouter => {
            let router = one(names, line)?;
            Ok(edited(Edit::FailRouter { router }))
        }
        PlanWord::AddStub => prefix_edit!(AddStub, names, line),
        PlanWord::Summary => prefix_edit!(Summary, names, line),
        PlanWord::AddSummary => prefix_edit!(AddSummary, names, line),
        PlanWord::AddExternal => add_external(names, line),
        PlanWord::DropExternal => {
            let (router, prefix) = two(names, line)?;
            Ok(edited(Edit::DropExternal { router, prefix }))
        }
        PlanWord::Refresh => alone(edited(Edit::Refresh), line),
        PlanWord::Undo => Ok(NamedCommand::Command(Command::Undo(one(names, line)?))),
        PlanWord::Redo => Ok(NamedCommand::Command(Command::Redo(one(names, line)?))),
        PlanWord::Table => Ok(NamedCommand::Command(Command::Table(one(names, line)?))),
        PlanWord::Tables => alone(NamedCommand::Command(Command::Tables), line),
        PlanWord::Compare => Ok(NamedCommand::Command(Command::Compare(one(names, line)?))),
        PlanWord::Info => alone(NamedCommand::Command(Command::Info), line),
    }
}
