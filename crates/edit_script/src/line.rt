//! Reading a line: its branch, and the command after it.

ghost use Rattle.std.specs.Prelude.{◌≡◌, ◌<◌, IfOk};
ghost use Rattle.edit_script.specs.Words.{words};
ghost use Rattle.edit_script.specs.Line.{branch_of, after_branch, meaning};

use crate::command::Command;
use crate::commands::command;
use crate::fault::ScriptFault;
use crate::words::next_word;
use text_words::number_up_to;

/// The branch that a word names, a number 0 to 7 after its `@`; else S8.
fn branch(word: &[u8]) -> Result<u8, ScriptFault>
    ensures value { result ≡ branch_of word.now }
    ensures small { IfOk result (λ branch. branch < 8) }
{
    let [_, digit @ ..] = word else {
        return Err(ScriptFault::BadBranch);
    };
    match number_up_to(7, digit) {
        Some(branch) => Ok(branch as u8),
        None => Err(ScriptFault::BadBranch),
    }
}

/// The command after the branch.
#[tactic(auto, unfolding(crate::specs::Line::after_branch))]
fn after_branch(branch: u8, rest: &[u8]) -> Result<(u8, Command), ScriptFault>
    requires { branch < 8 }
    ensures value { result ≡ after_branch branch (words rest.now) }
    ensures small { IfOk result (λ x. x.0 < 8) }
{
    match next_word(rest) {
        Some((word, arguments)) => Ok((branch, command(word, arguments)?)),
        None => Err(ScriptFault::MissingWord),
    }
}

/// The branch and the command that a line of a script means, or its first fault.
///
/// The line is given without its end of line. Its words are its maximal runs of bytes other than
/// space, tab and carriage return. The branch is 0 to 7, and 0 where the line names none. It takes
/// no memory.
///
/// # Errors
///
/// S1 to S8, in the order that [`ScriptFault`] defines.
#[tactic(auto, unfolding(crate::specs::Line::meaning_of_words))]
pub fn parse(line: &[u8]) -> Result<(u8, Command), ScriptFault>
    ensures value { result ≡ meaning line.now }
    ensures branch { IfOk result (λ x. x.0 < 8) }
{
    let Some((first, rest)) = next_word(line) else {
        return Err(ScriptFault::Empty);
    };
    if first[0] == b'#' {
        Err(ScriptFault::Empty)
    } else if first[0] == b'@' {
        after_branch(branch(first)?, rest)
    } else {
        Ok((0, command(first, rest)?))
    }
}
