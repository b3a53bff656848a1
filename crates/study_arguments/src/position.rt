//! A place in a line: a word, and the text after it.

ghost use Rattle.std.specs.Prelude.{◌≡◌, ◌<◌, [], ◌∷◌, length, IfSome, MatchOption};
ghost use Rattle.edit_script.specs.Words.{words};
ghost use Rattle.study_arguments.specs.Fault.{Gives};
ghost use Rattle.study_arguments.specs.Positions.{end, next, words_at};

use crate::fault::{Fault, FaultKind};
use edit_script::ScriptFault;
use text_words::{Blanks, next_word};

/// The word of a line that was read last, and the text after it.
#[derive(Clone, Copy, Debug)]
pub struct Position<'a> {
    /// The word.
    pub word: &'a [u8],
    /// The text after it.
    pub rest: &'a [u8],
}

/// The place of the first word of a text; nothing where there is no word.
pub fn first_word<'a>(text: &'a [u8]) -> Option<Position<'a>>
    ensures value { MatchOption result (words text.now ≡ [])
        (λ x. (words text.now ≡ x.word.now ∷ words x.rest.now)
        × (length x.rest.now < length text.now)) }
    ensures some { IfSome result (λ x. 0 < length x.word.now) }
{
    match next_word(Blanks::InLine, text) {
        Some((word, rest)) => Some(Position { word, rest }),
        None => None,
    }
}

/// The place of the next word.
///
/// # Errors
///
/// S3 for the word that was read last, where the line ends.
pub fn next<'a>(at: Position<'a>) -> Result<Position<'a>, Fault<'a>>
    ensures { Gives words_at result (next (words_at at.entry)) }
{
    match first_word(at.rest) {
        Some(after) => Ok(after),
        None => Err(Fault {
            kind: FaultKind::Script(ScriptFault::MissingWord),
            word: at.word,
        }),
    }
}

/// The end of the line.
///
/// # Errors
///
/// S4 for the next word, where there is one.
pub fn end<'a>(at: Position<'a>) -> Result<(), Fault<'a>>
    ensures { Gives (λ x. tt) result (end (words_at at.entry)) }
{
    match first_word(at.rest) {
        None => Ok(()),
        Some(extra) => Err(Fault {
            kind: FaultKind::Script(ScriptFault::ExtraWord),
            word: extra.word,
        }),
    }
}
