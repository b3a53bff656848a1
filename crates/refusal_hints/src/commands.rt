//! What would have been right in a command that is refused.

ghost use Rattle.std.specs.Prelude.{◌≡◌, ◌++◌, IfOk, codes, decimal};
ghost use Rattle.edit_script.specs.Words.{words};
ghost use Rattle.lsdb.specs.Slots.{lists_of};
ghost use Rattle.study_hints.specs.Hints.{command_at};
ghost use Rattle.refusal_hints.specs.CommandHints.{command_advice, command_hint, compare_hint, fault_advice, many_links_hint, named_links, numbers_text};

use crate::advice::{Advice, Hint, from_command};
use crate::edits::edit_advice;
use crate::routers::unattached_hint;
use crate::situation::Situation;
use edit_history::EditFault;
use edit_script::{Command, Edit};
use link_report::{link_numbers, router_lsa_of_any_age};
use lsa_codec::{AreaId, RouterId};
use lsdb::Database;
use network_names::Names;
use std::alloc::{AllocError, Allocator};
use study_arguments::LinkName;
use study_text::{push_joined, push_number, push_word};

/// A number of edits, and a word after it: `3 edits are done`.
pub(crate) fn counted<A: Allocator + Copy>(
    alloc: A,
    count: usize,
    after: &str,
) -> Result<Vec<u8, A>, AllocError>
    ensures { IfOk result (λ text. text.items ≡ decimal count ++ after.now) }
{
    let mut text = Vec::new(alloc);
    push_number(&mut text, count as u64)?;
    push_word(&mut text, after)?;
    Ok(text)
}

/// In place of a router that has no table to compare with.
fn compare_hint<A: Allocator + Copy>(
    alloc: A,
    situation: &Situation<'_, A>,
    router: RouterId,
) -> Result<Vec<u8, A>, AllocError>
    ensures { IfOk result (λ text. text.items ≡ compare_hint situation.now router) }
{
    if situation.is_attached(alloc, router)? {
        return Vec::from_slice(alloc, b"the loaded database lacks it");
    }
    unattached_hint(alloc, situation, router)
}

/// Of an edit, by the reason of its refusal.
fn fault_advice<A: Allocator + Copy>(
    alloc: A,
    database: &Database<A>,
    edit: &Edit,
    why: Option<EditFault>,
) -> Result<Advice<A>, AllocError>
    ensures { IfOk result (λ it. it ≡ fault_advice (lists_of database.now) edit.now why) }
{
    match why {
        Some(why) => edit_advice(alloc, database, edit, why),
        None => Advice::none(alloc),
    }
}

/// Which word of a command is at fault, and what would have been right.
fn command_advice<A: Allocator + Copy>(
    alloc: A,
    situation: &Situation<'_, A>,
    command: &Command,
    why: Option<EditFault>,
) -> Result<Advice<A>, AllocError>
    ensures { IfOk result (λ it. it ≡ command_advice situation.now command.now why) }
{
    match command {
        Command::Edit(edit) => fault_advice(alloc, situation.database, edit, why),
        Command::Undo(_) => Ok(Advice::at(1, counted(alloc, situation.done, " edits are done")?)),
        Command::Redo(_) => {
            Ok(Advice::at(1, counted(alloc, situation.undone, " edits are undone")?))
        }
        Command::Table(router) => Ok(Advice::at(1, unattached_hint(alloc, situation, *router)?)),
        Command::Compare(router) => Ok(Advice::at(1, compare_hint(alloc, situation, *router)?)),
        Command::Tables | Command::Info => Advice::none(alloc),
    }
}

/// What would have been right in the line of a command that is refused, with the word at fault. Of
/// an edit the reason of its refusal is handed in.
///
/// # Errors
///
/// Memory ran out.
pub fn command_hint<'l, A: Allocator + Copy>(
    alloc: A,
    situation: &Situation<'_, A>,
    line: &'l [u8],
    command: &Command,
    why: Option<EditFault>,
) -> Result<Hint<'l, A>, AllocError>
    ensures { IfOk result (λ hint. hint
        ≡ command_hint situation.now (command_at (words line.now)) command.now why) }
{
    let advice = command_advice(alloc, situation, command, why)?;
    Ok(advice.hint(from_command(line)))
}

/// The numbers of the links of a router that a word names.
fn named_links<A: Allocator + Copy>(
    alloc: A,
    situation: &Situation<'_, A>,
    area: AreaId,
    router: RouterId,
    name: LinkName,
) -> Result<Vec<u16, A>, AllocError>
    ensures { IfOk result
        (λ numbers. numbers.items ≡ named_links situation.now area router name) }
{
    match router_lsa_of_any_age(situation.database, area, router) {
        Some(lsa) => link_numbers(alloc, &lsa, &name),
        None => Ok(Vec::new(alloc)),
    }
}

/// Numbers of links, as `#1 #3`.
fn numbers_text<A: Allocator + Copy>(
    alloc: A,
    names: &Names<'_, A>,
    numbers: &[u16],
) -> Result<Vec<u8, A>, AllocError>
    ensures { IfOk result (λ text. text.items ≡ numbers_text numbers.now) }
{
    let mut text = Vec::new(alloc);
    push_word(&mut text, "#")?;
    push_joined(&mut text, names, " #", numbers)?;
    Ok(text)
}

/// What would have been right in the line of an edit whose link is named by a word that names
/// several of the router (E14): their numbers.
///
/// # Errors
///
/// Memory ran out.
pub fn many_links_hint<'l, A: Allocator + Copy>(
    alloc: A,
    situation: &Situation<'_, A>,
    names: &Names<'_, A>,
    line: &'l [u8],
    place: (AreaId, RouterId, LinkName),
) -> Result<Hint<'l, A>, AllocError>
    ensures { IfOk result (λ hint. hint ≡ many_links_hint situation.now
        (command_at (words line.now)) place.0 place.1 place.2) }
{
    let (area, router, name) = place;
    let numbers = named_links(alloc, situation, area, router, name)?;
    let text = numbers_text(alloc, names, &numbers)?;
    Ok(Advice { place: 3, text }.hint(from_command(line)))
}
