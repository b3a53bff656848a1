//! Whether a word may be a name.

ghost use Rattle.std.specs.Prelude.{◌≡◌};
ghost use Rattle.std.specs.List.{list_all};
ghost use Rattle.std.specs.Char.{is_ascii_digit};
ghost use Rattle.network_names.specs.Names.{are_digits, has_colon, has_name_length, is_name, is_name_byte, reads_otherwise};

use study_words::is_reserved;
use text_words::address_of;

/// The most bytes of a name.
const LONGEST_NAME: usize = 255;

/// Whether a byte may stand in a name: a letter, a digit, `.`, `-` or `_`.
fn is_name_byte(byte: u8) -> bool
    ensures { result ≡ is_name_byte byte }
{
    byte.is_ascii_alphanumeric() || matches!(byte, b'.' | b'-' | b'_')
}

/// Whether a word has 1 to 255 bytes.
fn has_name_length(word: &[u8]) -> bool
    ensures { result ≡ has_name_length word.now }
{
    0 < word.len() && word.len() <= LONGEST_NAME
}

/// Whether all bytes of a word may stand in a name.
fn are_name_bytes(word: &[u8]) -> bool
    ensures { result ≡ list_all is_name_byte word.now }
{
    word.iter().all(|byte| is_name_byte(*byte))
}

/// Whether a word is 1 to 255 letters, digits, `.`, `-` and `_`.
pub(crate) fn is_name(word: &[u8]) -> bool
    ensures { result ≡ is_name word.now }
{
    has_name_length(word) && are_name_bytes(word)
}

/// Whether a word is digits alone.
fn are_digits(word: &[u8]) -> bool
    ensures { result ≡ are_digits word.now }
{
    word.iter().all(|byte| byte.is_ascii_digit())
}

/// Whether a word means something else than a name in a line of a study: an address, digits alone,
/// or a word of the language.
pub(crate) fn reads_otherwise(word: &[u8]) -> bool
    ensures { result ≡ reads_otherwise word.now }
{
    address_of(word).is_some() || are_digits(word) || is_reserved(word)
}

/// Whether a word has a `:`, as addresses of IPv6 have.
pub(crate) fn has_colon(word: &[u8]) -> bool
    ensures { result ≡ has_colon word.now }
{
    word.contains(&b':')
}
