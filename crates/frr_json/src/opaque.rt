//! Opaque LSAs (RFC 5250, A.2) in JSON. Their data are printed byte for byte, so that an LSA whose
//! fields are all there is rebuilt; of any other one only the number is reported.

ghost use Rattle.std.specs.Prelude.{◌≡◌, ◌++◌, IfOk, option_map};
ghost use Rattle.json.specs.Value.{value_view};
ghost use Rattle.lsa_codec.specs.Decoding.{decoded};
ghost use Rattle.frr_text.specs.ParsedParts.{parsed_decoded};
ghost use Rattle.frr_json.specs.Opaque.{data_in, data_of, data_of_size, header_in, pairs_in, parsed_opaque, parsed_with};

use crate::header::{age_and_options_in, checksum_and_length_in, origination_in};
use crate::member::{address_at, number_at, text_at};
use findings::{Feature, Part};
use frr_text::fields::bytes_with_key;
use frr_text::parsed_bytes;
use hex::FromHexError;
use json::Value;
use lsa_codec::{Addr, AreaId, Key, LONGEST_LSA};
use std::alloc::{AllocError, Allocator};

/// The key of the opaque LSA of this type in an object, and the bytes of its header.
#[tactic(auto, unfolding(crate::specs::Opaque::header_in))]
fn header_in<A: Allocator>(kind: u8, json: &Value<'_, A>) -> Option<(Key, [u8; 20])>
    ensures { result ≡ header_in kind (value_view json.now) }
{
    let age_and_options = age_and_options_in(json)?;
    let id = address_at("linkStateId", json)?;
    let origination = origination_in(json)?;
    let checksum_and_length = checksum_and_length_in(json)?;
    let key = Key {
        kind,
        id: Addr(id),
        adv: origination.adv,
    };
    let sequence = origination.sequence;
    let bytes = bytes_with_key(age_and_options, key, sequence, checksum_and_length);
    Some((key, bytes))
}

/// The bytes that a text spells, in two hexadecimal digits each.
fn pairs_in<A: Allocator + Copy>(alloc: A, text: &str) -> Result<Option<Vec<u8, A>>, AllocError>
    ensures { IfOk result (λ bytes. option_map (λ v. v.items) bytes ≡ pairs_in text.now) }
{
    match hex::decode(alloc, text.as_bytes()) {
        Ok(bytes) => Ok(Some(bytes)),
        Err(FromHexError::OutOfMemory) => Err(AllocError),
        Err(_) => Ok(None),
    }
}

/// The data of an LSA of this length, where the text spells that many bytes after the header.
fn data_of_size<A: Allocator + Copy>(
    alloc: A,
    size: u32,
    text: &str,
) -> Result<Option<Vec<u8, A>>, AllocError>
    ensures { IfOk result (λ found. option_map (λ bytes. bytes.items) found
        ≡ data_of_size size text.now) }
{
    if text.len() == 2 * size.saturating_sub(20) as usize {
        pairs_in(alloc, text)
    } else {
        Ok(None)
    }
}

/// The data that this text spells, where they are what the printed length leaves after the header.
#[tactic(auto, unfolding(crate::specs::Opaque::data_of))]
fn data_of<A: Allocator + Copy>(
    alloc: A,
    text: &str,
    json: &Value<'_, A>,
) -> Result<Option<Vec<u8, A>>, AllocError>
    ensures { IfOk result (λ found. option_map (λ bytes. bytes.items) found
        ≡ data_of text.now (value_view json.now)) }
{
    match number_at(LONGEST_LSA as u32, "length", json) {
        Some(size) => data_of_size(alloc, size, text),
        None => Ok(None),
    }
}

/// The opaque data, which follow the header.
#[tactic(auto, unfolding(crate::specs::Opaque::data_in))]
fn data_in<A: Allocator + Copy>(
    alloc: A,
    json: &Value<'_, A>,
) -> Result<Option<Vec<u8, A>>, AllocError>
    ensures { IfOk result (λ found. option_map (λ bytes. bytes.items) found
        ≡ data_in (value_view json.now)) }
{
    match text_at("opaqueData", json) {
        Some(text) => data_of(alloc, text, json),
        None => Ok(None),
    }
}

/// The LSA with this key, whose header and data these bytes are; or why it cannot be used.
fn joined<A: Allocator + Copy>(
    alloc: A,
    area: Option<AreaId>,
    key: Key,
    header: [u8; 20],
    information: &[u8],
) -> Result<Part<A>, AllocError>
    ensures { IfOk result (λ parsed. parsed
        ≡ parsed_decoded area key (decoded (header ++ information.now))) }
{
    let mut bytes = Vec::from_slice(alloc, &header)?;
    bytes.extend_from_slice(information)?;
    parsed_bytes(alloc, area, key, &bytes)
}

/// The LSA with this key and this header in an object, if its data are there.
fn parsed_with<A: Allocator + Copy>(
    alloc: A,
    area: Option<AreaId>,
    key: Key,
    header: [u8; 20],
    json: &Value<'_, A>,
) -> Result<Part<A>, AllocError>
    ensures { IfOk result (λ parsed. parsed
        ≡ parsed_with area key header (data_in (value_view json.now))) }
{
    match data_in(alloc, json)? {
        Some(information) => joined(alloc, area, key, header, &information),
        None => Ok(Part::NotRead(Feature::Opaque)),
    }
}

/// The opaque LSA of this type in an object, or why it cannot be used.
pub(crate) fn parsed_opaque<A: Allocator + Copy>(
    alloc: A,
    kind: u8,
    area: Option<AreaId>,
    json: &Value<'_, A>,
) -> Result<Part<A>, AllocError>
    ensures { IfOk result (λ parsed. parsed ≡ parsed_opaque kind area (value_view json.now)) }
{
    match header_in(kind, json) {
        Some(found) => {
            let header = found.1;
            parsed_with(alloc, area, found.0, header, json)
        }
        None => Ok(Part::NotRead(Feature::Opaque)),
    }
}
