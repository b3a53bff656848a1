//! The words of a text.

ghost use Rattle.std.specs.Prelude.{◌≡◌, ◌<◌, ◌≤◌, [], ◌∷◌, length, position, MatchOption, IfSome, option_map};
ghost use Rattle.std.specs.List.{slice_split, position_or_len};
ghost use Rattle.text_words.specs.Words.{after_words, is_blank, words};

use crate::blanks::Blanks;

/// The index of the first blank.
fn first_blank(blanks: Blanks, text: &[u8]) -> Option<usize>
    ensures { result ≡ position (is_blank blanks) text.now }
{
    text.iter().position(|byte| blanks.contains(*byte))
}

/// The number of bytes before the first blank, or of all bytes where there is none.
#[tactic(auto, using(crate::proofs::Split::word_some, crate::proofs::Split::word_none))]
pub fn word_len(blanks: Blanks, text: &[u8]) -> usize
    ensures value { result ≡ position_or_len (is_blank blanks) text.now }
    ensures within { result ≤ length text.now }
{
    match first_blank(blanks, text) {
        Some(len) => len,
        None => text.len(),
    }
}

/// The bytes before the first blank, and those after it.
#[tactic(auto, using(crate::proofs::Split::cut_none, crate::proofs::Split::cut_some, crate::proofs::Split::drop_one))]
fn cut_at_blank(blanks: Blanks, text: &[u8]) -> Option<(&[u8], &[u8])>
    ensures { MatchOption result (slice_split (is_blank blanks) text.now ≡ text.now ∷ [])
        (λ x. (slice_split (is_blank blanks) text.now
        ≡ x.0.now ∷ slice_split (is_blank blanks) x.1.now)
        × (length x.1.now < length text.now)) }
{
    let Some(end) = first_blank(blanks, text) else {
        return None;
    };
    let (front, back) = text.split_at(end);
    Some((front, &back[1..]))
}

/// The first word of a text, and the text after it; nothing where there is no word.
pub fn next_word(blanks: Blanks, text: &[u8]) -> Option<(&[u8], &[u8])>
    ensures value { MatchOption result (words blanks text.now ≡ [])
        (λ x. (words blanks text.now ≡ x.0.now ∷ words blanks x.1.now)
        × (length x.1.now < length text.now)) }
    ensures some { IfSome result (λ x. 0 < length x.0.now) }
{
    let mut rest = text;
    while let Some((front, back)) = cut_at_blank(blanks, rest) {
        if !front.is_empty() {
            return Some((front, back));
        }
        rest = back;
    }
    if rest.is_empty() {
        None
    } else {
        Some((rest, &[]))
    }
}

/// The text after its first words, where these are the words of `front`; else nothing.
#[tactic(auto, unfolding(crate::specs::Words::after_words))]
pub fn after_words<'a>(blanks: Blanks, front: &[u8], text: &'a [u8]) -> Option<&'a [u8]>
    ensures { option_map (λ rest. words blanks rest.now) result
        ≡ after_words (words blanks front.now) (words blanks text.now) }
{
    let mut left = front;
    let mut rest = text;
    while let Some((wanted, more)) = next_word(blanks, left) {
        let Some((word, after)) = next_word(blanks, rest) else {
            return None;
        };
        if word != wanted {
            return None;
        }
        left = more;
        rest = after;
    }
    Some(rest)
}
