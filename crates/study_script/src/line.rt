//! Reading a line: its branch, and what it asks for.

ghost use Rattle.std.specs.Prelude.{◌≡◌, ◌<◌, IfOk, IfSome, option_map};
ghost use Rattle.edit_script.specs.Words.{words};
ghost use Rattle.network_names.specs.Names.{stands_for};
ghost use Rattle.study_arguments.specs.Fault.{Is, Reads};
ghost use Rattle.study_arguments.specs.Positions.{words_at};
ghost use Rattle.study_script.specs.Line.{after_branch, asked, asked_of, branch_of, meaning, study_meaning};

use crate::command::StudyCommand;
use crate::event_lines::event_line;
use crate::expectations::expectation;
use crate::plan_lines::plan_line;
use crate::questions::question;
use edit_script::ScriptFault;
use network_names::Names;
use std::alloc::Allocator;
use study_arguments::{Fault, FaultKind, ParseError, Position, first_word, next};
use study_words::StudyWord;
use text_words::number_up_to;

/// What the command word that was read, and the words after it, ask for.
#[tactic(auto, unfolding(crate::specs::Line::asked_of))]
fn command<'a, A: Allocator + Copy>(
    alloc: A,
    names: &Names<'_, A>,
    line: Position<'a>,
) -> Result<StudyCommand<A>, ParseError<'a>>
    ensures { Reads asked result (asked_of (stands_for names.now) (words_at line.entry)) }
{
    match StudyWord::of(line.word) {
        Some(StudyWord::Plan(word)) => {
            let command = plan_line(names, word, line)?;
            Ok(StudyCommand::Named(command))
        }
        Some(StudyWord::See(word)) => {
            let question = question(names, word, line)?;
            Ok(StudyCommand::See(question))
        }
        Some(StudyWord::Event(word)) => {
            let command = event_line(names, word, line)?;
            Ok(StudyCommand::Named(command))
        }
        Some(StudyWord::Expect) => {
            let expectation = expectation(alloc, names, line)?;
            Ok(StudyCommand::Expect(expectation))
        }
        None => Err(ParseError::Fault(Fault::unknown_word(line.word))),
    }
}

/// The branch that a word names, a number 0 to 7 after its `@`; else S8.
fn branch<'a>(word: &'a [u8]) -> Result<u8, Fault<'a>>
    ensures value { Is result (branch_of word.now) }
    ensures small { IfOk result (λ branch. branch < 8) }
{
    let kind = FaultKind::Script(ScriptFault::BadBranch);
    let [_, digit @ ..] = word else {
        return Err(Fault { kind, word });
    };
    match number_up_to(7, digit) {
        Some(branch) => Ok(branch as u8),
        None => Err(Fault { kind, word }),
    }
}

/// What the words after that of the branch ask for.
#[tactic(auto, unfolding(crate::specs::Line::after_branch))]
fn after_branch<'a, A: Allocator + Copy>(
    alloc: A,
    names: &Names<'_, A>,
    line: Position<'a>,
) -> Result<Option<(u8, StudyCommand<A>)>, ParseError<'a>>
    ensures value { Reads (λ x. option_map (λ y. (y.0, asked y.1)) x) result
        (after_branch (stands_for names.now) (words_at line.entry)) }
    ensures small { IfOk result (λ x. IfSome x (λ y. y.0 < 8)) }
{
    let branch = branch(line.word)?;
    let first = next(line)?;
    let command = command(alloc, names, first)?;
    Ok(Some((branch, command)))
}

/// What a line means that `ospf-plan` does not take.
#[tactic(auto, unfolding(crate::specs::Line::study_meaning))]
fn study_line<'a, A: Allocator + Copy>(
    alloc: A,
    names: &Names<'_, A>,
    line: &'a [u8],
) -> Result<Option<(u8, StudyCommand<A>)>, ParseError<'a>>
    ensures value { Reads (λ x. option_map (λ y. (y.0, asked y.1)) x) result
        (study_meaning (stands_for names.now) (words line.now)) }
    ensures small { IfOk result (λ x. IfSome x (λ y. y.0 < 8)) }
{
    let Some(first) = first_word(line) else {
        return Ok(None);
    };
    if first.word[0] == b'#' {
        Ok(None)
    } else if first.word[0] == b'@' {
        after_branch(alloc, names, first)
    } else {
        let command = command(alloc, names, first)?;
        Ok(Some((0, command)))
    }
}

/// What a line of a study means: a branch and what is asked for, `None` where the line has no
/// reply, or its first fault.
///
/// The line is given without its end of line. Its words are its maximal runs of bytes other than
/// space, tab and carriage return. A line without words, and one whose first word begins with `#`,
/// has no reply. The branch is 0 to 7, and 0 where the line names none. A line that `ospf-plan`
/// takes means the same. Names stand for their addresses wherever a router, a neighbor or an
/// address is wanted.
///
/// # Errors
///
/// The first fault with the word at fault, in the order of
/// [`FaultKind`](study_arguments::FaultKind); or memory ran out, which only expectations take.
#[tactic(auto, unfolding(crate::specs::Line::meaning))]
pub fn parse<'a, A: Allocator + Copy>(
    alloc: A,
    names: &Names<'_, A>,
    line: &'a [u8],
) -> Result<Option<(u8, StudyCommand<A>)>, ParseError<'a>>
    ensures value { Reads (λ x. option_map (λ y. (y.0, asked y.1)) x) result
        (meaning (stands_for names.now) line.now) }
    ensures branch { IfOk result (λ x. IfSome x (λ y. y.0 < 8)) }
{
    match edit_script::parse(line) {
        Ok((branch, command)) => Ok(Some((branch, StudyCommand::Plan(command)))),
        Err(_) => study_line(alloc, names, line),
    }
}
