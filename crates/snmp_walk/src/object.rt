//! The objects of a walk.

ghost use Rattle.std.specs.Prelude.{◌≡◌, ◌≤◌, length, take, option_map, Some, None};
ghost use Rattle.snmp_walk.specs.Text.{after};
ghost use Rattle.snmp_walk.specs.Objects.{assigned, begins_object, ends_value, value_in, object_at};

use crate::text::word_len;

/// An object as it is printed.
#[derive(Clone, Copy)]
pub(crate) struct Object<'a> {
    /// Its name.
    pub(crate) name: &'a [u8],
    /// Its value, which may have several lines.
    pub(crate) value: &'a [u8],
}

/// What follows the first word and ` = `.
fn assigned(text: &[u8]) -> Option<&[u8]>
    ensures { option_map (λ value. value.now) result ≡ assigned text.now }
{
    text[word_len(text)..].strip_prefix(b" = ".as_slice())
}

/// Whether an object begins on this line.
fn begins_object(text: &[u8]) -> bool
    ensures { result ≡ begins_object text.now }
{
    match assigned(text) {
        Some(_) => true,
        None => false,
    }
}

/// Whether a line feed is here, and a line follows on which an object begins.
fn ends_value(text: &[u8]) -> bool
    ensures { result ≡ ends_value text.now }
{
    match text {
        [b'\n', line @ ..] => begins_object(line),
        _ => false,
    }
}

/// The length in bytes of the value at the front of the text: up to the line feed before the next
/// object.
#[tactic(auto, using(crate::proofs::Values::value_ends, crate::proofs::Values::value_next, crate::proofs::Values::value_whole))]
fn value_len(text: &[u8]) -> usize
    ensures within { result ≤ length text.now }
    ensures value { take result text.now ≡ value_in text.now }
{
    for len in 0..text.len() {
        if ends_value(&text[len..]) {
            return len;
        }
    }
    text.len()
}

/// The object that begins here, at the start of a line.
pub(crate) fn object_at(text: &[u8]) -> Option<Object<'_>>
    ensures { option_map
        (λ object. record { name = object.name.now; value = object.value.now })
        result ≡ object_at text.now }
{
    let Some(value) = assigned(text) else {
        return None;
    };
    Some(Object {
        name: &text[..word_len(text)],
        value: &value[..value_len(value)],
    })
}
