//! Numbers that one word spells.

ghost use Rattle.std.specs.Prelude.{◌≡◌, ◌≤◌, IfSome};
ghost use Rattle.text_words.specs.Numbers.{decimal_up_to, hex_up_to, number_up_to};

use crate::digits::{Digits, digits_up_to};

/// The number that a word spells in decimal, perhaps with leading zeros, where it is at most `max`.
#[tactic(auto, unfolding(crate::specs::Numbers::decimal_up_to))]
pub fn decimal_up_to(max: u32, word: &[u8]) -> Option<u32>
    ensures value { result ≡ decimal_up_to max word.now }
    ensures bound { IfSome result (λ n. n ≤ max) }
{
    digits_up_to(Digits::Decimal, max, word)
}

/// The number that a word spells in decimal, without a leading zero, where it is at most `max`.
#[tactic(auto, unfolding(crate::specs::Numbers::number_up_to))]
pub fn number_up_to(max: u32, word: &[u8]) -> Option<u32>
    ensures value { result ≡ number_up_to max word.now }
    ensures bound { IfSome result (λ n. n ≤ max) }
{
    if word.len() > 1 && word[0] == b'0' {
        return None;
    }
    digits_up_to(Digits::Decimal, max, word)
}

/// The number that a word spells in hexadecimal digits of lower case, where it is at most `max`.
/// Zeros may lead.
#[tactic(auto, unfolding(crate::specs::Numbers::hex_up_to))]
pub fn hex_up_to(max: u32, word: &[u8]) -> Option<u32>
    ensures value { result ≡ hex_up_to max word.now }
    ensures bound { IfSome result (λ n. n ≤ max) }
{
    digits_up_to(Digits::Hexadecimal, max, word)
}
