//! The document about the language.

ghost use Rattle.std.specs.Prelude.{◌≡◌, ◌++◌, IfOk, OnOk, map, option_map};
ghost use Rattle.study_hints.specs.Help.{commands as all_commands};
ghost use Rattle.document_answers.specs.Documented.{documented};
ghost use Rattle.document_answers.specs.OwnDocuments.{IsHelpDocument, all_conditions, command_help, condition_help, conditions_after, help_of};

use crate::documented::Documented;
use std::alloc::{AllocError, Allocator};
use std::marker::Model;
use study_documents::push_listing;
use study_hints::{command_meaning, command_text, commands, expectation_text};
use study_json::{Document, push_first, push_next};
use study_text::push_word;
use study_words::{ConditionWord, StudyWord, Word};

/// A line of `help`, and what it means, if it has a meaning of its own. Contracts see it as both
/// texts.
#[derive(Debug, Drop)]
struct HelpLine {
    /// The line.
    line: &'static str,
    /// What it means.
    meaning: Option<&'static str>,
}

impl Model for HelpLine {
    ghost use Rattle.std.specs.Prelude.{option_map};
    ghost use Rattle.document_answers.specs.OwnDocuments.{HelpValue};

    ghost Value = { HelpValue };

    ghost view = { λ h. record {
      line = h.line.now;
      meaning = option_map (λ text. text.now) h.meaning;
    } };
}

impl Document for HelpLine {
    ghost use Rattle.document_answers.specs.OwnDocuments.{help_json};

    ghost json_as = { help_json };

    fn push_json<A: Allocator + Copy>(&self, text: &mut Vec<u8, A>) -> Result<(), AllocError> {
        push_first(text, "line", &self.line)?;
        push_next(text, "meaning", &self.meaning)?;
        push_word(text, "}")
    }
}

/// The line of a command.
fn command_help(word: StudyWord) -> HelpLine
    ensures { result ≡ command_help word }
{
    HelpLine {
        line: command_text(word),
        meaning: Some(command_meaning(word)),
    }
}

/// The line of a condition.
fn condition_help(word: ConditionWord) -> HelpLine
    ensures { result ≡ condition_help word }
{
    HelpLine {
        line: expectation_text(word),
        meaning: None,
    }
}

/// Adds the lines of all commands.
fn push_commands<A: Allocator + Copy>(lines: &mut Vec<HelpLine, A>) -> Result<(), AllocError>
    ensures { OnOk result
        (lines.new.items ≡ lines.old.items ++ map command_help all_commands) }
{
    for word in commands() {
        lines.push(command_help(*word))?;
    }
    Ok(())
}

/// Adds the lines of all conditions.
fn push_conditions<A: Allocator + Copy>(lines: &mut Vec<HelpLine, A>) -> Result<(), AllocError>
    ensures { OnOk result (lines.new.items ≡ lines.old.items ++ all_conditions) }
{
    for word in ConditionWord::all() {
        lines.push(condition_help(*word))?;
    }
    Ok(())
}

/// Adds the lines that follow that of a word.
fn push_conditions_after<A: Allocator + Copy>(
    lines: &mut Vec<HelpLine, A>,
    word: StudyWord,
) -> Result<(), AllocError>
    ensures { OnOk result (lines.new.items ≡ lines.old.items ++ conditions_after word) }
{
    match word {
        StudyWord::Plan(_) | StudyWord::See(_) | StudyWord::Event(_) => Ok(()),
        StudyWord::Expect => push_conditions(lines),
    }
}

/// The lines of `help`, with a word or without one.
fn help_lines<A: Allocator + Copy>(
    alloc: A,
    word: Option<StudyWord>,
) -> Result<Vec<HelpLine, A>, AllocError>
    ensures { IfOk result (λ lines. lines.items ≡ help_of word) }
{
    let mut lines = Vec::new(alloc);
    match word {
        None => {
            push_commands(&mut lines)?;
            push_conditions(&mut lines)?;
        }
        Some(word) => {
            lines.push(command_help(word))?;
            push_conditions_after(&mut lines, word)?;
        }
    }
    Ok(lines)
}

/// The document of `help`.
#[tactic(auto, unfolding(crate::specs::OwnDocuments::IsHelpDocument))]
pub(crate) fn help_document<A: Allocator + Copy>(
    alloc: A,
    word: Option<StudyWord>,
) -> Result<Documented<A>, AllocError>
    ensures { IfOk result (λ given. IsHelpDocument word (documented given)) }
{
    let lines = help_lines(alloc, word)?;
    let mut text = Vec::new(alloc);
    push_listing(&mut text, "words", &lines)?;
    Ok(Documented::Members(text))
}
