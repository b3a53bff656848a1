//! The digits of numbers.

ghost use Rattle.std.specs.Prelude.{◌≡◌, ◌≤◌, IfSome};
ghost use Rattle.std.specs.List.{list_all};
ghost use Rattle.text_words.specs.Numbers.{digits_up_to, is_digit, radix};

/// The digits that a number is written in.
#[derive(Clone, Copy)]
pub(crate) enum Digits {
    /// The decimal digits.
    Decimal,
    /// The hexadecimal digits, in lower case.
    Hexadecimal,
}

impl Digits {
    /// Whether a byte is one of these digits.
    fn contains(self, byte: u8) -> bool
        ensures { result ≡ is_digit self byte }
    {
        match self {
            Digits::Decimal => byte.is_ascii_digit(),
            Digits::Hexadecimal => matches!(byte, b'0'..=b'9' | b'a'..=b'f'),
        }
    }

    /// How many digits there are.
    fn radix(self) -> u32
        ensures value { result ≡ radix self }
        ensures low { 2 ≤ result }
        ensures high { result ≤ 36 }
    {
        match self {
            Digits::Decimal => 10,
            Digits::Hexadecimal => 16,
        }
    }
}

/// Whether all bytes are digits.
fn are_digits(digits: Digits, word: &[u8]) -> bool
    ensures { result ≡ list_all (is_digit digits) word.now }
{
    word.iter().all(|byte| digits.contains(*byte))
}

/// The number that a word spells in these digits, where it is at most `max`. Zeros may lead.
pub(crate) fn digits_up_to(digits: Digits, max: u32, word: &[u8]) -> Option<u32>
    ensures value { result ≡ digits_up_to digits max word.now }
    ensures bound { IfSome result (λ n. n ≤ max) }
{
    if !are_digits(digits, word) {
        return None;
    }
    let Ok(text) = str::from_utf8(word) else {
        return None;
    };
    let Ok(number) = u32::from_str_radix(text, digits.radix()) else {
        return None;
    };
    if number > max {
        return None;
    }
    Some(number)
}
