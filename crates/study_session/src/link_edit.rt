//! How a link that is named is edited.

ghost use Rattle.std.specs.Prelude.{◌≡◌, ◌++◌, [], IfOk, OnOk, option_map};
ghost use Rattle.std.specs.Option.{option_map_or};
ghost use Rattle.study_json.specs.Fields.{more_text};
ghost use Rattle.network_names.specs.Names.{called};
ghost use Rattle.study_session.specs.Contexts.{context_of};
ghost use Rattle.study_session.specs.NamedCommands.{change_text, edited_text, link_change, link_edit, link_fields};

use crate::context::Context;
use crate::format::Format;
use edit_script::{Command, Edit};
use link_report::{LinkLine, push_link, push_link_name};
use lsa_codec::{AreaId, RouterId};
use network_names::Names;
use std::alloc::{AllocError, Allocator};
use study_documents::{push_cost, push_single};
use study_text::{push_number, push_word};

/// How a link is edited.
#[derive(Clone, Copy, Debug)]
pub(crate) enum LinkEdit {
    /// It gets another metric.
    Cost(u16),
    /// It is removed.
    Drop,
}

impl LinkEdit {
    /// The edit of a link with this number.
    pub(crate) fn command(self, area: AreaId, router: RouterId, link: u16) -> Command
        ensures { result ≡ link_edit self area router link }
    {
        match self {
            LinkEdit::Cost(metric) => Command::Edit(Edit::Cost {
                area,
                router,
                link,
                metric,
            }),
            LinkEdit::Drop => Command::Edit(Edit::DropLink { area, router, link }),
        }
    }

    /// Adds what is said of the link.
    #[tactic(auto, unfolding(crate::specs::NamedCommands::edited_text))]
    fn push_to<A: Allocator + Copy>(
        self,
        text: &mut Vec<u8, A>,
        names: &Names<'_, A>,
        line: &LinkLine<A>,
    ) -> Result<(), AllocError>
        ensures { OnOk result (text.new.items
            ≡ text.old.items ++ edited_text self (called names.now) line.now) }
    {
        match self {
            LinkEdit::Cost(metric) => {
                push_word(text, " ")?;
                push_link_name(text, names, line)?;
                push_word(text, ": ")?;
                push_number(text, u64::from(line.link().metric))?;
                push_word(text, " -> ")?;
                push_number(text, u64::from(metric))
            }
            LinkEdit::Drop => {
                push_word(text, " gone ")?;
                push_link(text, names, line)
            }
        }
    }
}

/// What is said of the link that is edited, if there is one, and the end of the line.
#[tactic(auto, unfolding(crate::specs::NamedCommands::change_text))]
fn change_text<A: Allocator + Copy>(
    alloc: A,
    names: &Names<'_, A>,
    edit: LinkEdit,
    line: Option<&LinkLine<A>>,
) -> Result<Vec<u8, A>, AllocError>
    ensures { IfOk result (λ text. text.items
        ≡ change_text edit (called names.now) (option_map (λ v. v.now) line.entry)) }
{
    let mut text = Vec::new(alloc);
    if let Some(line) = line {
        edit.push_to(&mut text, names, line)?;
    }
    push_word(&mut text, "\n")?;
    Ok(text)
}

/// Adds the members about the link that is edited, if there is one, and the end of the object.
fn push_members<A: Allocator + Copy>(
    text: &mut Vec<u8, A>,
    edit: LinkEdit,
    line: Option<&LinkLine<A>>,
) -> Result<(), AllocError>
    ensures { OnOk result (text.new.items ≡ text.old.items ++ more_text
        (option_map_or (link_fields edit) (option_map (λ v. v.now) line.entry) [])) }
{
    match (edit, line) {
        (LinkEdit::Cost(metric), Some(line)) => push_cost(text, line, metric),
        (LinkEdit::Drop, Some(line)) => push_single(text, "link", line),
        (_, None) => push_word(text, "}"),
    }
}

/// What is said of the link that is edited, if there is one, in the form of the answers.
#[tactic(auto, unfolding(crate::specs::NamedCommands::link_change))]
pub(crate) fn link_change<A: Allocator + Copy>(
    context: &Context<'_, '_, A>,
    edit: LinkEdit,
    line: Option<&LinkLine<A>>,
) -> Result<Vec<u8, A>, AllocError>
    ensures { IfOk result (λ text. text.items
        ≡ link_change (context_of context.now) edit (option_map (λ v. v.now) line.entry)) }
{
    match context.format {
        Format::Text => change_text(context.alloc, context.names, edit, line),
        Format::Json => {
            let mut text = Vec::new(context.alloc);
            push_members(&mut text, edit, line)?;
            Ok(text)
        }
    }
}
