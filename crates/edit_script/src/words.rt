//! The words of a line.

ghost use Rattle.std.specs.Prelude.{◌≡◌, ◌<◌, [], ◌∷◌, length, MatchOption, IfSome};
ghost use Rattle.edit_script.specs.Words.{words};

use text_words::Blanks;

/// The first word of a line, and the line after it.
pub(crate) fn next_word(line: &[u8]) -> Option<(&[u8], &[u8])>
    ensures value { MatchOption result (words line.now ≡ [])
        (λ x. (words line.now ≡ x.0.now ∷ words x.1.now)
        × (length x.1.now < length line.now)) }
    ensures some { IfSome result (λ x. 0 < length x.0.now) }
{
    text_words::next_word(Blanks::InLine, line)
}
