//! The words of a text.

ghost use Rattle.std.specs.Prelude.{◌≡◌, ◌<◌, [], ◌∷◌, length, MatchOption};
ghost use Rattle.frr_text.specs.Words.{words};

use text_words::Blanks;

/// The first word of a text, and the text after it.
#[tactic(auto, unfolding(crate::specs::Words::words))]
pub fn next_word(text: &[u8]) -> Option<(&[u8], &[u8])>
    ensures { MatchOption result (words text.now ≡ [])
        (λ x. (words text.now ≡ x.0.now ∷ words x.1.now) × (length x.1.now < length text.now)) }
{
    text_words::next_word(Blanks::InText, text)
}
