//! What one word says after a mark.

ghost use Rattle.std.specs.Prelude.{◌≡◌, ◌≤◌, IfSome};
ghost use Rattle.frr_text.specs.Numbers.{marked_up_to, mask_length};

use text_words::{hex_up_to, number_up_to};

/// The number that a word spells in hexadecimal after `0x`, where it is at most `max`.
#[tactic(auto, unfolding(crate::specs::Numbers::marked_up_to))]
pub(crate) fn marked_up_to(max: u32, word: &[u8]) -> Option<u32>
    ensures value { result ≡ marked_up_to max word.now }
    ensures bound { IfSome result (λ n. n ≤ max) }
{
    match word {
        [b'0', b'x', digits @ ..] => hex_up_to(max, digits),
        _ => None,
    }
}

/// The length of a mask, after a slash.
#[tactic(auto, unfolding(crate::specs::Numbers::mask_length))]
pub(crate) fn mask_length(word: &[u8]) -> Option<u32>
    ensures value { result ≡ mask_length word.now }
    ensures bound { IfSome result (λ n. n ≤ 32) }
{
    match word {
        [b'/', digits @ ..] => number_up_to(32, digits),
        _ => None,
    }
}
