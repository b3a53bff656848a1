//! Blanks, words and dots in text.

ghost use Rattle.std.specs.Prelude.{◌≡◌, ◌≤◌, position, length};
ghost use Rattle.std.specs.List.{position_or_len};
ghost use Rattle.snmp_walk.specs.Text.{is_blank, is_dot};

use text_words::Blanks;

/// Whether a byte is a space, a tab, a line feed or a carriage return.
pub(crate) fn is_blank(byte: u8) -> bool
    ensures { result ≡ is_blank byte }
{
    Blanks::InText.contains(byte)
}

/// The number of bytes before the first blank.
pub(crate) fn word_len(text: &[u8]) -> usize
    ensures value { result ≡ position_or_len is_blank text.now }
    ensures within { result ≤ length text.now }
{
    text_words::word_len(Blanks::InText, text)
}

/// The index of the first dot.
pub(crate) fn first_dot(text: &[u8]) -> Option<usize>
    ensures { result ≡ position is_dot text.now }
{
    text.iter().position(|byte| *byte == b'.')
}
