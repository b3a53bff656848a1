//! The header of an LSA (RFC 2328, A.4.1) as it is printed, and its bytes.

ghost use Rattle.std.specs.Prelude.{◌≡◌, option_map};
ghost use Rattle.frr_text.specs.Words.{words};
ghost use Rattle.frr_text.specs.Fields.{age_and_options_in, past_names, flags_in, ls_types, name_as, name_in, origination_in, checksum_and_length_in, header_in, is_opaque, feature_named, feature_in};
ghost use Rattle.frr_text.specs.Making.{bytes_with_key, header_bytes, key_of};

use crate::label::{
    Label, address_after, after_label, hex_after, marked_after, number_after, past, word_after,
};
use crate::ls_type::LsType;
use findings::Feature;
use lsa_codec::{Addr, Key, LONGEST_LSA, RouterId};

/// The age of the LSA, and what its originator can do.
#[derive(Clone, Copy)]
pub struct AgeAndOptions {
    /// LS age, in seconds.
    pub age: u16,
    /// Options.
    pub options: u8,
}

/// What identifies the LSA among those of its Advertising Router.
#[derive(Clone, Copy)]
pub struct Name {
    /// LS type.
    pub ls_type: LsType,
    /// Link State ID.
    pub id: Addr,
}

/// Which router originated the LSA, and which instance of it that is (RFC 2328, 12.1).
#[derive(Clone, Copy)]
pub struct Origination {
    /// Advertising Router.
    pub adv: RouterId,
    /// LS sequence number.
    pub sequence: u32,
}

/// What the bytes of the LSA are tested against.
#[derive(Clone, Copy)]
pub struct ChecksumAndLength {
    /// LS checksum.
    pub checksum: u16,
    /// Length, in bytes.
    pub size: u16,
}

/// What is printed of each LSA before its body.
#[derive(Clone, Copy)]
pub struct Header {
    /// LS age and options.
    pub age_and_options: AgeAndOptions,
    /// The byte of the bits V, E and B, which is printed only for router-LSAs, among the fields of
    /// the header.
    pub flags: Option<u8>,
    /// LS type and Link State ID.
    pub name: Name,
    /// Advertising Router and LS sequence number.
    pub origination: Origination,
    /// LS checksum and length.
    pub checksum_and_length: ChecksumAndLength,
}

/// The LS types, in rising order.
const LS_TYPES: &[LsType] = &[
    LsType::Router,
    LsType::Network,
    LsType::Summary,
    LsType::AsbrSummary,
    LsType::External,
];

/// LS age and options, and what follows the LS flags.
#[tactic(auto, unfolding(crate::specs::Fields::age_and_options_in))]
fn age_and_options_in(text: &[u8]) -> Option<(AgeAndOptions, &[u8])>
    ensures { option_map (λ found. (found.0, words found.1.now)) result
        ≡ age_and_options_in (words text.now) }
{
    let (age, rest) = number_after(0xffff, Label::Age, text)?;
    let (options, rest) = marked_after(0xff, Label::Options, rest)?;
    let (_letters, rest) = word_after(Label::Letters, rest)?;
    let (_ls_flags, rest) = word_after(Label::LsFlags, rest)?;
    let age_and_options = AgeAndOptions {
        age: age as u16,
        options: options as u8,
    };
    Some((age_and_options, rest))
}

/// What follows the names of the bits V, E and B.
#[tactic(auto, unfolding(crate::specs::Fields::past_names))]
fn past_names(text: &[u8]) -> &[u8]
    ensures { words result.now ≡ past_names (words text.now) }
{
    let rest = past(Label::Letters, text);
    let rest = past(Label::BoundaryBit, rest);
    let rest = past(Label::ExternalBit, rest);
    let rest = past(Label::VirtualBit, rest);
    past(Label::ShortcutBit, rest)
}

/// The byte of the bits V, E and B, where it is printed, and what follows it.
#[tactic(auto, unfolding(crate::specs::Fields::flags_in))]
fn flags_in(text: &[u8]) -> (Option<u8>, &[u8])
    ensures { (result.0, words result.1.now) ≡ flags_in (words text.now) }
{
    match marked_after(0xff, Label::Flags, text) {
        Some((flags, rest)) => (Some(flags as u8), past_names(rest)),
        None => (None, text),
    }
}

/// LS type, of this kind, and Link State ID, and what follows them.
#[tactic(auto, unfolding(crate::specs::Fields::name_as))]
fn name_as(ls_type: LsType, text: &[u8]) -> Option<(Name, &[u8])>
    ensures { option_map (λ found. (found.0, words found.1.now)) result
        ≡ name_as ls_type (words text.now) }
{
    let rest = after_label(ls_type.label(), text)?;
    let (id, rest) = address_after(Label::Id, rest)?;
    let rest = after_label(ls_type.id_label(), rest)?;
    let name = Name {
        ls_type,
        id: Addr(id),
    };
    Some((name, rest))
}

/// LS type and Link State ID, and what follows them.
fn name_in(text: &[u8]) -> Option<(Name, &[u8])>
    ensures { option_map (λ found. (found.0, words found.1.now)) result
        ≡ name_in (words text.now) }
{
    for ls_type in LS_TYPES {
        if let Some((name, rest)) = name_as(*ls_type, text) {
            return Some((name, rest));
        }
    }
    None
}

/// Advertising Router and LS sequence number, and what follows them.
#[tactic(auto, unfolding(crate::specs::Fields::origination_in))]
fn origination_in(text: &[u8]) -> Option<(Origination, &[u8])>
    ensures { option_map (λ found. (found.0, words found.1.now)) result
        ≡ origination_in (words text.now) }
{
    let (adv, rest) = address_after(Label::AdvertisingRouter, text)?;
    let (sequence, rest) = hex_after(0xffff_ffff, Label::Sequence, rest)?;
    let origination = Origination {
        adv: RouterId(adv),
        sequence,
    };
    Some((origination, rest))
}

/// LS checksum and length, and what follows them.
#[tactic(auto, unfolding(crate::specs::Fields::checksum_and_length_in))]
fn checksum_and_length_in(text: &[u8]) -> Option<(ChecksumAndLength, &[u8])>
    ensures { option_map (λ found. (found.0, words found.1.now)) result
        ≡ checksum_and_length_in (words text.now) }
{
    let (checksum, rest) = marked_after(0xffff, Label::Checksum, text)?;
    let (size, rest) = number_after(LONGEST_LSA as u32, Label::Length, rest)?;
    let checksum_and_length = ChecksumAndLength {
        checksum: checksum as u16,
        size: size as u16,
    };
    Some((checksum_and_length, rest))
}

/// The header of the LSA whose words stand here, and what follows it.
#[tactic(auto, unfolding(crate::specs::Fields::header_in))]
pub(crate) fn header_in(text: &[u8]) -> Option<(Header, &[u8])>
    ensures { option_map (λ found. (found.0, words found.1.now)) result
        ≡ header_in (words text.now) }
{
    let (age_and_options, rest) = age_and_options_in(text)?;
    let (flags, rest) = flags_in(past(Label::Translated, rest));
    let (name, rest) = name_in(rest)?;
    let (origination, rest) = origination_in(rest)?;
    let (checksum_and_length, rest) = checksum_and_length_in(rest)?;
    let header = Header {
        age_and_options,
        flags,
        name,
        origination,
        checksum_and_length,
    };
    Some((header, rest))
}

/// Whether an opaque LSA is printed here (RFC 5250), from its LS type on.
fn is_opaque(text: &[u8]) -> bool
    ensures { result ≡ is_opaque (words text.now) }
{
    after_label(Label::LinkOpaqueLsa, text).is_some()
        || after_label(Label::AreaOpaqueLsa, text).is_some()
        || after_label(Label::AsOpaqueLsa, text).is_some()
}

/// What the LSA shows that is printed here, from its LS type on, where the planner leaves it out.
fn feature_named(text: &[u8]) -> Option<Feature>
    ensures { result ≡ feature_named (words text.now) }
{
    if after_label(Label::NssaLsa, text).is_some() {
        Some(Feature::Nssa)
    } else if is_opaque(text) {
        Some(Feature::Opaque)
    } else {
        None
    }
}

/// What the LSA shows whose words stand here, where the planner leaves it out by its LS type.
#[tactic(auto, unfolding(crate::specs::Fields::feature_in))]
pub(crate) fn feature_in(text: &[u8]) -> Option<Feature>
    ensures { result ≡ feature_in (words text.now) }
{
    let (_age_and_options, rest) = age_and_options_in(text)?;
    feature_named(past(Label::Translated, rest))
}

/// The bytes of the header of the LSA with this key, with its checksum and its length as they were
/// printed.
pub fn bytes_with_key(
    age_and_options: AgeAndOptions,
    key: Key,
    sequence: u32,
    checksum_and_length: ChecksumAndLength,
) -> [u8; 20]
    ensures { result ≡ bytes_with_key age_and_options key sequence checksum_and_length }
{
    let [a0, a1] = age_and_options.age.to_be_bytes();
    let [i0, i1, i2, i3] = key.id.0.to_be_bytes();
    let [r0, r1, r2, r3] = key.adv.0.to_be_bytes();
    let [s0, s1, s2, s3] = sequence.to_be_bytes();
    let [c0, c1] = checksum_and_length.checksum.to_be_bytes();
    let [l0, l1] = checksum_and_length.size.to_be_bytes();
    let options = age_and_options.options;
    let kind = key.kind;
    [
        a0, a1, options, kind, i0, i1, i2, i3, r0, r1, r2, r3, s0, s1, s2, s3, c0, c1, l0, l1,
    ]
}

/// The key of the LSA.
pub(crate) fn key_of(header: Header) -> Key
    ensures { result ≡ key_of header }
{
    Key {
        kind: header.name.ls_type.code(),
        id: header.name.id,
        adv: header.origination.adv,
    }
}

/// The bytes of a header, with its checksum and its length as they were printed.
pub fn header_bytes(header: Header) -> [u8; 20]
    ensures { result ≡ header_bytes header }
{
    bytes_with_key(
        header.age_and_options,
        key_of(header),
        header.origination.sequence,
        header.checksum_and_length,
    )
}
