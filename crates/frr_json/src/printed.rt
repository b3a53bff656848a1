//! What a router prints in JSON.

ghost use Rattle.std.specs.Prelude.{◌≡◌, ◌≢◌, Some, None, Err, IfOk, option_map, false};
ghost use Rattle.std.specs.Str.{IsUtf8};
ghost use Rattle.findings.specs.Contents.{content_of, lists_in};
ghost use Rattle.json.specs.Json.{document};
ghost use Rattle.json.specs.Value.{value_view};
ghost use Rattle.frr_text.specs.Words.{words};
ghost use Rattle.frr_json.specs.declared.fault.JsonFault.TheVariants as faults;
ghost use Rattle.frr_json.specs.Contents.{HasContent};
ghost use Rattle.frr_json.specs.ParsedDocuments.{parsed_in, has_database, is_printed_json};

use crate::fault::JsonFault;
use crate::parsed_document::{has_database, parse_all};
use findings::{Content, sorted};
use frr_text::next_word;
use json::{Error, Scratch, Value};
use std::alloc::{AllocError, Allocator};

/// The JSON value that a text is.
fn value_of<'a, A: Allocator + Copy>(
    alloc: A,
    text: &'a [u8],
    scratch: &'a mut Scratch<A>,
) -> Result<Value<'a, A>, JsonFault>
    ensures ok { IfOk result (λ json. IsUtf8 text.now
        × (document text.now ≡ Some (value_view json))) }
    ensures not_json { result ≡ Err faults.NotJson → IsUtf8 text.now
        → document text.now ≡ None }
    ensures named { result ≢ Err faults.NoDatabase }
{
    match Value::from_slice(alloc, text, scratch) {
        Ok(json) => Ok(json),
        Err(Error::OutOfMemory) => Err(JsonFault::OutOfMemory),
        Err(Error::Invalid | Error::TooLong | Error::DuplicateKey) => Err(JsonFault::NotJson),
    }
}

/// What a document contains.
fn content_in<A: Allocator + Copy>(alloc: A, json: &Value<'_, A>) -> Result<Content<A>, AllocError>
    ensures { IfOk result
        (λ content. lists_in content ≡ content_of (parsed_in (value_view json.now))) }
{
    let parts = parse_all(alloc, json)?;
    sorted(alloc, parts)
}

/// Reads what a router prints (FRR) for `show ip ospf database` with `router json`, and with
/// `network`, `summary`, `asbr-summary` or `external`. The text is one JSON document; members with
/// other names are ignored. It does not have the kinds of areas.
///
/// # Errors
///
/// The text is not JSON, it has no database that is read, or memory ran out: see [`JsonFault`].
pub fn read_printed_json<A: Allocator + Copy>(
    alloc: A,
    text: &[u8],
) -> Result<Content<A>, JsonFault>
    // What `Ok` holds.
    ensures content { IfOk result (λ content. HasContent text.now (lists_in content)) }

    // When each error comes.
    ensures not_json { result ≡ Err faults.NotJson → IsUtf8 text.now
        → document text.now ≡ None }
    ensures no_database { result ≡ Err faults.NoDatabase → IsUtf8 text.now
        × (option_map has_database (document text.now) ≡ Some false) }
{
    let mut scratch = Scratch::new(alloc);
    let json = value_of(alloc, text, &mut scratch)?;
    if !has_database(&json) {
        return Err(JsonFault::NoDatabase);
    }
    Ok(content_in(alloc, &json)?)
}

/// Whether a text can only be an object in JSON: its first word begins with a brace. This holds of
/// what a router prints in JSON; [`read_printed_json`] decides whether it is a database.
pub fn is_printed_json(text: &[u8]) -> bool
    ensures { result ≡ is_printed_json (words text.now) }
{
    match next_word(text) {
        Some((word, _)) => matches!(word, [b'{', ..]),
        None => false,
    }
}
