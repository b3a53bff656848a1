//! A word of a line as it is printed.

ghost use Rattle.std.specs.Prelude.{◌≡◌, ◌++◌, ◌<◌, OnOk, flat_map, take};
ghost use Rattle.study_hints.specs.Escaped.{escaped, escaped_byte, hex_digit, is_plain};

use std::alloc::{AllocError, Allocator};

/// The number of bytes that are shown of a word.
const SHOWN: usize = 64;

/// A digit to the base 16.
fn hex_digit(number: u8) -> u8
    requires { number < 16 }
    ensures { result ≡ hex_digit number }
{
    if number < 10 {
        b'0' + number
    } else {
        b'a' - 10 + number
    }
}

/// Whether a byte is printed as it is.
fn is_plain(byte: u8) -> bool
    ensures { result ≡ is_plain byte }
{
    0x21 <= byte && byte <= 0x7e && byte != b'\\'
}

/// Adds a byte as it is, or as `\xNN`.
fn push_byte<A: Allocator + Copy>(text: &mut Vec<u8, A>, byte: u8) -> Result<(), AllocError>
    ensures { OnOk result (text.new.items ≡ text.old.items ++ escaped_byte byte) }
{
    if is_plain(byte) {
        return text.extend_from_slice(&[byte]);
    }
    text.extend_from_slice(&[b'\\', b'x', hex_digit(byte / 16), hex_digit(byte % 16)])
}

/// Adds bytes as they are, or as `\xNN`.
fn push_bytes<A: Allocator + Copy>(text: &mut Vec<u8, A>, bytes: &[u8]) -> Result<(), AllocError>
    ensures { OnOk result
        (text.new.items ≡ text.old.items ++ flat_map escaped_byte bytes.now) }
{
    for byte in bytes {
        push_byte(text, *byte)?;
    }
    Ok(())
}

/// The first bytes of a word.
fn front(word: &[u8]) -> &[u8]
    ensures { result.now ≡ take 64 word.now }
{
    &word[..SHOWN.min(word.len())]
}

/// Adds a word of a line as it is printed: of its first 64 bytes those from 21 to 7e other than
/// `\` as they are, each other one as `\xNN`; `..` follows where there are more.
///
/// # Errors
///
/// Memory ran out.
pub fn push_escaped<A: Allocator + Copy>(
    text: &mut Vec<u8, A>,
    word: &[u8],
) -> Result<(), AllocError>
    ensures { OnOk result (text.new.items ≡ text.old.items ++ escaped word.now) }
{
    push_bytes(text, front(word))?;
    if word.len() <= SHOWN {
        return Ok(());
    }
    text.extend_from_slice(b"..")
}
