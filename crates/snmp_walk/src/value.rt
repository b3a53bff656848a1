//! The values of objects, as net-snmp prints them.

ghost use Rattle.std.specs.Prelude.{◌≡◌, IfOk, option_map, not, filter, false, []};
ghost use Rattle.std.specs.List.{list_all};
ghost use Rattle.snmp_walk.specs.Text.{is_blank, first_word};
ghost use Rattle.snmp_walk.specs.Values.{is_absent, is_end_of_view, pairs_of, quoted_after, string_in, bytes_in, kind_named, kind_in, count_in};

use crate::text::{is_blank, word_len};
use hex::FromHexError;
use lsa_instances::AreaKind;
use std::alloc::{AllocError, Allocator};
use text_words::decimal_up_to;

/// Whether the agent printed this in place of a value, since it has no more objects.
pub(crate) fn is_end_of_view(value: &[u8]) -> bool
    ensures { result ≡ is_end_of_view value.now }
{
    value
        .strip_prefix(b"No more variables left in this MIB View".as_slice())
        .is_some()
}

/// Whether the agent printed this in place of a value, since it does not have the object (RFC 3416,
/// 4.2.1).
pub(crate) fn is_absent(value: &[u8]) -> bool
    ensures { result ≡ is_absent value.now }
{
    value
        .strip_prefix(b"No Such Object available on this agent at this OID".as_slice())
        .is_some()
        || value
            .strip_prefix(b"No Such Instance currently exists at this OID".as_slice())
            .is_some()
}

/// The bytes that are not blank.
fn without_blanks<A: Allocator + Copy>(alloc: A, text: &[u8]) -> Result<Vec<u8, A>, AllocError>
    ensures { IfOk result (λ digits. digits.items
        ≡ filter (λ byte. not (is_blank byte)) text.now) }
{
    text.iter()
        .copied()
        .filter(|byte| !is_blank(*byte))
        .collect(alloc)
}

/// Bytes of two hexadecimal digits each; blanks do not count.
fn pairs_of<A: Allocator + Copy>(alloc: A, text: &[u8]) -> Result<Option<Vec<u8, A>>, AllocError>
    ensures { IfOk result (λ bytes. option_map (λ v. v.items) bytes ≡ pairs_of text.now) }
{
    let digits = without_blanks(alloc, text)?;
    match hex::decode(alloc, digits) {
        Ok(bytes) => Ok(Some(bytes)),
        Err(FromHexError::OutOfMemory) => Err(AllocError),
        Err(_) => Ok(None),
    }
}

/// Whether all bytes are blank.
fn are_blanks(text: &[u8]) -> bool
    ensures { result ≡ list_all is_blank text.now }
{
    text.iter().all(|byte| is_blank(*byte))
}

/// The bytes up to the closing quote, where only blanks follow it.
fn quoted<A: Allocator + Copy>(alloc: A, text: &[u8]) -> Result<Option<Vec<u8, A>>, AllocError>
    ensures { IfOk result (λ bytes. option_map (λ v. v.items) bytes
        ≡ quoted_after [] false text.now) }
{
    let mut bytes = Vec::new(alloc);
    let mut escaped = false;
    for (index, byte) in text.iter().enumerate() {
        if escaped {
            bytes.push(*byte)?;
            escaped = false;
        } else if *byte == b'"' {
            if are_blanks(&text[index + 1..]) {
                return Ok(Some(bytes));
            }
            return Ok(None);
        } else if *byte == b'\\' {
            escaped = true;
        } else {
            bytes.push(*byte)?;
        }
    }
    Ok(None)
}

/// Printable bytes between quotes. No bytes at all are printed as the quotes alone.
#[tactic(auto, unfolding(crate::specs::Values::string_in))]
fn string_in<A: Allocator + Copy>(alloc: A, value: &[u8]) -> Result<Option<Vec<u8, A>>, AllocError>
    ensures { IfOk result (λ bytes. option_map (λ v. v.items) bytes ≡ string_in value.now) }
{
    let text = value.strip_prefix(b"STRING: ".as_slice()).unwrap_or(value);
    match text.strip_prefix(b"\"".as_slice()) {
        Some(text) => quoted(alloc, text),
        None => Ok(None),
    }
}

/// The bytes of a value: in hexadecimal, or, where all are printable, perhaps as a string.
pub(crate) fn bytes_in<A: Allocator + Copy>(
    alloc: A,
    value: &[u8],
) -> Result<Option<Vec<u8, A>>, AllocError>
    ensures { IfOk result (λ bytes. option_map (λ v. v.items) bytes ≡ bytes_in value.now) }
{
    match value.strip_prefix(b"Hex-STRING:".as_slice()) {
        Some(text) => pairs_of(alloc, text),
        None => string_in(alloc, value),
    }
}

/// The kind of area that the value of `ospfImportAsExtern` names, with a MIB and without.
fn kind_named(word: &[u8]) -> Option<AreaKind>
    ensures { result ≡ kind_named word.now }
{
    if word == b"1".as_slice() {
        Some(AreaKind::Ordinary)
    } else if word == b"importExternal(1)".as_slice() {
        Some(AreaKind::Ordinary)
    } else if word == b"2".as_slice() {
        Some(AreaKind::Stub)
    } else if word == b"importNoExternal(2)".as_slice() {
        Some(AreaKind::Stub)
    } else if word == b"3".as_slice() {
        Some(AreaKind::Nssa)
    } else if word == b"importNssa(3)".as_slice() {
        Some(AreaKind::Nssa)
    } else {
        None
    }
}

/// The kind of area in a value.
#[tactic(auto, unfolding(crate::specs::Values::kind_in))]
pub(crate) fn kind_in(value: &[u8]) -> Option<AreaKind>
    ensures { result ≡ kind_in value.now }
{
    match value.strip_prefix(b"INTEGER: ".as_slice()) {
        Some(text) => kind_named(&text[..word_len(text)]),
        None => None,
    }
}

/// The number in a value of a count.
#[tactic(auto, unfolding(crate::specs::Values::count_in))]
pub(crate) fn count_in(value: &[u8]) -> Option<u32>
    ensures { result ≡ count_in value.now }
{
    match value.strip_prefix(b"Gauge32: ".as_slice()) {
        Some(text) => decimal_up_to(u32::MAX, &text[..word_len(text)]),
        None => None,
    }
}
