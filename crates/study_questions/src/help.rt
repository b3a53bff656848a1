//! The answer about the language.

ghost use Rattle.std.specs.Prelude.{◌≡◌, ◌++◌, IfOk, OnOk};
ghost use Rattle.study_questions.specs.OwnAnswers.{help_answer};
ghost use Rattle.study_questions.specs.Texts.{word_after};

use crate::text::{head, push_number_after};
use std::alloc::{AllocError, Allocator};
use study_answers::Answer;
use study_hints::{count_help, push_help};
use study_text::push_word;
use study_words::{SeeWord, StudyWord};

/// Adds the word that a line names, if it names one.
fn push_word_after<A: Allocator + Copy>(
    text: &mut Vec<u8, A>,
    word: Option<StudyWord>,
) -> Result<(), AllocError>
    ensures { OnOk result (text.new.items ≡ text.old.items ++ word_after word) }
{
    match word {
        Some(word) => {
            push_word(text, " ")?;
            push_word(text, word.text())
        }
        None => Ok(()),
    }
}

/// The answer to `help`.
#[tactic(auto, unfolding(crate::specs::OwnAnswers::help_answer))]
pub(crate) fn help_answer<A: Allocator + Copy>(
    alloc: A,
    branch: u8,
    word: Option<StudyWord>,
) -> Result<Answer<A>, AllocError>
    ensures { IfOk result (λ answer. answer ≡ help_answer branch word) }
{
    let mut text = head(alloc, branch, SeeWord::Help)?;
    push_word_after(&mut text, word)?;
    push_number_after(&mut text, count_help(word) as u64)?;
    push_word(&mut text, "\n")?;
    push_help(&mut text, word)?;
    Ok(Answer::accepted(alloc, text))
}
