//! How commands are carried out.

ghost use Rattle.std.specs.Prelude.{◌≡◌, false, true};
ghost use Rattle.study_session.specs.Ways.{edit_way, way_of};

use crate::link_edit::LinkEdit;
use edit_script::{Command, Edit};
use lsa_codec::{AreaId, RouterId};
use study_arguments::LinkName;
use study_script::NamedCommand;

/// How a command is carried out.
#[derive(Clone, Copy, Debug)]
pub(crate) enum Way {
    /// As `ospf-plan` does.
    Plain(Command),
    /// As an edit of a link that is named, which says what it changed.
    Link(AreaId, RouterId, LinkName, LinkEdit),
    /// As an edit that says how the database differs from that before it.
    Differing(Edit),
}

/// How an edit that says what it changed is carried out.
#[tactic(auto, unfolding(crate::specs::Ways::edit_way))]
fn edit_way(edit: Edit) -> Way
    ensures { result ≡ edit_way edit }
{
    match edit {
        Edit::Cost {
            area,
            router,
            link,
            metric,
        } => Way::Link(area, router, LinkName::Number(link), LinkEdit::Cost(metric)),
        Edit::DropLink { area, router, link } => Way::Link(
            area,
            router,
            LinkName::Number(link),
            LinkEdit::Drop,
        ),
        other => Way::Differing(other),
    }
}

/// How a command is carried out, where each edit says what it changed, or only those whose lines
/// `ospf-plan` does not take.
#[tactic(auto, unfolding(crate::specs::Ways::way_of, crate::specs::Ways::plan_way))]
pub(crate) fn way_of(is_verbose: bool, command: &NamedCommand) -> Way
    ensures { result ≡ way_of is_verbose command.now }
{
    match *command {
        NamedCommand::Cost {
            area,
            router,
            link,
            metric,
        } => Way::Link(area, router, link, LinkEdit::Cost(metric)),
        NamedCommand::DropLink { area, router, link } => Way::Link(
            area,
            router,
            link,
            LinkEdit::Drop,
        ),
        NamedCommand::Command(Command::Edit(edit @ Edit::Event(_))) => Way::Differing(edit),
        NamedCommand::Command(Command::Edit(edit)) if is_verbose => edit_way(edit),
        NamedCommand::Command(command) => Way::Plain(command),
    }
}
