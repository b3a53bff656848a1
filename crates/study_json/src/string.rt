//! Strings.

ghost use Rattle.std.specs.Prelude.{◌≡◌, ◌<◌, ◌++◌, OnOk};
ghost use Rattle.std.specs.Char.{digit_char};
ghost use Rattle.json.specs.Print.{escape, escape_byte, escape_letter};
ghost use Rattle.study_json.specs.JsonText.{string_text};

use std::alloc::{AllocError, Allocator};
use study_text::push_word;

/// The letter that stands after a backslash for a byte that has such an escape, and 0 for others.
fn escape_letter(byte: u8) -> u8
    ensures { result ≡ escape_letter byte }
{
    match byte {
        b'"' | b'\\' => byte,
        8 => b'b',
        12 => b'f',
        b'\n' => b'n',
        b'\r' => b'r',
        b'\t' => b't',
        _ => 0,
    }
}

/// A digit of a number to base 16.
fn hex_digit(digit: u8) -> u8
    requires { digit < 16 }
    ensures { result ≡ digit_char digit }
{
    if digit < 10 {
        b'0' + digit
    } else {
        b'a' + (digit - 10)
    }
}

/// Adds a byte as it stands in a string: `"`, `\` and control characters are escaped.
#[tactic(auto, unfolding(json::specs::Print::escape_byte))]
fn push_escaped<A: Allocator + Copy>(text: &mut Vec<u8, A>, byte: u8) -> Result<(), AllocError>
    ensures { OnOk result (text.new.items ≡ text.old.items ++ escape_byte byte) }
{
    let letter = escape_letter(byte);
    if 0 < letter {
        return text.extend_from_slice(&[b'\\', letter]);
    }
    if byte < 32 {
        push_word(text, "\\u00")?;
        return text.extend_from_slice(&[hex_digit(byte / 16), hex_digit(byte % 16)]);
    }
    text.push(byte)?;
    Ok(())
}

/// Adds bytes as they stand in a string.
fn push_all_escaped<A: Allocator + Copy>(
    text: &mut Vec<u8, A>,
    bytes: &[u8],
) -> Result<(), AllocError>
    ensures { OnOk result (text.new.items ≡ text.old.items ++ escape bytes.now) }
{
    for byte in bytes {
        push_escaped(text, *byte)?;
    }
    Ok(())
}

/// Adds a string of these bytes: between quotes, `"`, `\` and control characters escaped.
///
/// # Errors
///
/// Memory ran out. A part of the text may have been added.
#[tactic(auto, unfolding(crate::specs::JsonText::string_text))]
pub fn push_string<A: Allocator + Copy>(
    text: &mut Vec<u8, A>,
    bytes: &[u8],
) -> Result<(), AllocError>
    ensures { OnOk result (text.new.items ≡ text.old.items ++ string_text bytes.now) }
{
    push_word(text, "\"")?;
    push_all_escaped(text, bytes)?;
    push_word(text, "\"")
}
