//! The header of an LSA (RFC 2328, A.4.1) in JSON.

ghost use Rattle.std.specs.Prelude.{◌≡◌};
ghost use Rattle.json.specs.Value.{value_view};
ghost use Rattle.frr_json.specs.Header.{age_and_options_in, flags_in, origination_in, checksum_and_length_in, header_in};

use crate::member::{address_at, hex_at, number_at, text_at};
use crate::options::options_of;
use frr_text::fields::{AgeAndOptions, ChecksumAndLength, Header, LsType, Name, Origination};
use json::Value;
use lsa_codec::{Addr, LONGEST_LSA, RouterId};
use std::alloc::Allocator;

/// LS age and options.
#[tactic(auto, unfolding(crate::specs::Header::age_and_options_in))]
pub(crate) fn age_and_options_in<A: Allocator>(json: &Value<'_, A>) -> Option<AgeAndOptions>
    ensures { result ≡ age_and_options_in (value_view json.now) }
{
    let age = number_at(0xffff, "lsaAge", json)?;
    let letters = text_at("options", json)?;
    let options = options_of(letters.as_bytes())?;
    Some(AgeAndOptions {
        age: age as u16,
        options,
    })
}

/// The byte of the bits V, E and B, which is printed only for router-LSAs.
#[tactic(auto, unfolding(crate::specs::Header::flags_in))]
fn flags_in<A: Allocator>(json: &Value<'_, A>) -> Option<u8>
    ensures { result ≡ flags_in (value_view json.now) }
{
    let flags = number_at(0xff, "flags", json)?;
    Some(flags as u8)
}

/// Advertising Router and LS sequence number.
#[tactic(auto, unfolding(crate::specs::Header::origination_in))]
pub(crate) fn origination_in<A: Allocator>(json: &Value<'_, A>) -> Option<Origination>
    ensures { result ≡ origination_in (value_view json.now) }
{
    let adv = address_at("advertisingRouter", json)?;
    let sequence = hex_at(0xffff_ffff, "lsaSeqNumber", json)?;
    Some(Origination {
        adv: RouterId(adv),
        sequence,
    })
}

/// LS checksum and length.
#[tactic(auto, unfolding(crate::specs::Header::checksum_and_length_in))]
pub(crate) fn checksum_and_length_in<A: Allocator>(json: &Value<'_, A>) -> Option<ChecksumAndLength>
    ensures { result ≡ checksum_and_length_in (value_view json.now) }
{
    let checksum = hex_at(0xffff, "checksum", json)?;
    let size = number_at(LONGEST_LSA as u32, "length", json)?;
    Some(ChecksumAndLength {
        checksum: checksum as u16,
        size: size as u16,
    })
}

/// The header of the LSA of this type in an object.
#[tactic(auto, unfolding(crate::specs::Header::header_in))]
pub(crate) fn header_in<A: Allocator>(ls_type: LsType, json: &Value<'_, A>) -> Option<Header>
    ensures { result ≡ header_in ls_type (value_view json.now) }
{
    let age_and_options = age_and_options_in(json)?;
    let id = address_at("linkStateId", json)?;
    let origination = origination_in(json)?;
    let checksum_and_length = checksum_and_length_in(json)?;
    Some(Header {
        age_and_options,
        flags: flags_in(json),
        name: Name {
            ls_type,
            id: Addr(id),
        },
        origination,
        checksum_and_length,
    })
}
