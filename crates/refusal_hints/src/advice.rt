//! Which word of a line is at fault, and what would have been right.

ghost use Rattle.std.specs.Prelude.{◌≡◌, ◌++◌, IfOk, OnOk};
ghost use Rattle.edit_script.specs.Words.{words};
ghost use Rattle.study_hints.specs.Hints.{command_at};
ghost use Rattle.refusal_hints.specs.Advice.{advice, hint_in, hint_text, no_advice, word_at};

use std::alloc::{AllocError, Allocator, Global};
use std::marker::Model;
use study_arguments::first_word;
use study_hints::push_escaped;
use study_text::push_word;

/// The word of a line that is at fault, and what would have been right.
#[derive(Drop)]
pub struct Hint<'l, A: Allocator = Global> {
    /// The word, as it was written.
    pub word: &'l [u8],
    /// What would have been right: `the database has 0.0.0.1`.
    pub text: Vec<u8, A>,
}

impl<'l, A: Allocator> Model for Hint<'l, A> {
    ghost use Rattle.refusal_hints.specs.Advice.{HintValue};

    ghost Value = { HintValue };

    ghost view = { λ h. record { word = h.word.now; text = h.text.items } };
}

/// Which word is at fault, by its place, and what would have been right.
#[derive(Drop)]
pub(crate) struct Advice<A: Allocator> {
    /// The place of the word, counted from the command word, which has place 0.
    pub(crate) place: usize,
    /// What would have been right.
    pub(crate) text: Vec<u8, A>,
}

impl<A: Allocator> Model for Advice<A> {
    ghost use Rattle.refusal_hints.specs.Advice.{AdviceValue};

    ghost Value = { AdviceValue };

    ghost view = { λ a. record { place = a.place; text = a.text.items } };
}

impl<A: Allocator + Copy> Advice<A> {
    /// What would have been right in place of the word at a place, where it is always the same.
    pub(crate) fn of(alloc: A, place: usize, text: &str) -> Result<Advice<A>, AllocError>
        ensures { IfOk result (λ it. it ≡ advice place text.now) }
    {
        Ok(Advice {
            place,
            text: Vec::from_slice(alloc, text.as_bytes())?,
        })
    }

    /// What would have been right in place of the word at a place.
    pub(crate) fn at(place: usize, text: Vec<u8, A>) -> Advice<A>
        ensures { result ≡ advice place text.items }
    {
        Advice { place, text }
    }

    /// What is said of a line that is refused for no reason of these.
    pub(crate) fn none(alloc: A) -> Result<Advice<A>, AllocError>
        ensures { IfOk result (λ it. it ≡ no_advice) }
    {
        Advice::of(alloc, 0, "see help")
    }

    /// The word in a text, and what would have been right.
    pub(crate) fn hint<'l>(self, text: &'l [u8]) -> Hint<'l, A>
        ensures { result ≡ hint_in (words text.now) self }
    {
        Hint {
            word: word_at(text, self.place),
            text: self.text,
        }
    }
}

/// The word of a text at a place; an empty one where there are fewer.
fn word_at<'l>(text: &'l [u8], place: usize) -> &'l [u8]
    ensures { result.now ≡ word_at (words text.now) place }
{
    let mut rest = text;
    let mut left = place;
    while left > 0 {
        let Some(at) = first_word(rest) else {
            return &[];
        };
        rest = at.rest;
        left -= 1;
    }
    match first_word(rest) {
        Some(at) => at.word,
        None => &[],
    }
}

/// The text of a line from its command word on: the name of a branch may stand before it.
pub(crate) fn from_command<'l>(line: &'l [u8]) -> &'l [u8]
    ensures { words result.now ≡ command_at (words line.now) }
{
    let Some(at) = first_word(line) else {
        return line;
    };
    if at.word[0] == b'@' {
        return at.rest;
    }
    line
}

/// Adds the word at fault and what would have been right: ` 0.0.0.9 (the database has 0.0.0.1)`.
///
/// # Errors
///
/// Memory ran out.
pub fn push_hint<A: Allocator + Copy>(
    text: &mut Vec<u8, A>,
    hint: &Hint<'_, A>,
) -> Result<(), AllocError>
    ensures { OnOk result (text.new.items ≡ text.old.items ++ hint_text hint.now) }
{
    push_word(text, " ")?;
    push_escaped(text, hint.word)?;
    push_word(text, " (")?;
    text.extend_from_slice(&hint.text)?;
    push_word(text, ")")
}
