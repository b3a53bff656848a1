//! Fields of LSAs that differ.

ghost use Rattle.std.specs.Prelude.{◌≡◌, ◌++◌, OnOk, codes};
ghost use Rattle.lsa_changes.specs.Fields.{bits_text, field_name, field_text, letter_of, type_number, value_text};

use lsa_codec::Addr;
use std::alloc::{AllocError, Allocator};
use study_text::{push_address, push_number, push_number_after, push_word};

/// A field of an LSA (RFC 2328, A.4.2 to A.4.5).
#[derive(Clone, Copy, Debug, PartialEq, Eq)]
pub enum Field {
    /// The bits V (4), E (2) and B (1) of a router-LSA.
    Bits,
    /// The length of the mask of a network-LSA, summary-LSA of type 3 or AS-external-LSA.
    Mask,
    /// The type of the metric of an AS-external-LSA, 1 or 2.
    MetricType,
    /// The metric of a summary-LSA or AS-external-LSA.
    Metric,
    /// The forwarding address of an AS-external-LSA.
    Forward,
    /// The external route tag of an AS-external-LSA.
    Tag,
}

/// A field that differs.
#[derive(Clone, Copy, Debug, PartialEq, Eq)]
pub struct FieldChange {
    /// The field.
    pub field: Field,
    /// Its value before.
    pub before: u32,
    /// Its value now.
    pub now: u32,
}

/// The bit V of a router-LSA: it is an endpoint of a virtual link (RFC 2328, A.4.2).
const BIT_V: u32 = 4;

/// The bit E: it is an AS boundary router.
const BIT_E: u32 = 2;

/// The bit B: it is an area border router.
const BIT_B: u32 = 1;

/// The type of an external metric.
pub(crate) fn type_number(is_type2: bool) -> u32
    ensures { result ≡ type_number is_type2 }
{
    if is_type2 { 2 } else { 1 }
}

/// Adds a letter, if a bit is set.
fn push_letter<A: Allocator + Copy>(
    text: &mut Vec<u8, A>,
    bits: u32,
    bit: u32,
    letter: &str,
) -> Result<(), AllocError>
    ensures { OnOk result (text.new.items ≡ text.old.items ++ letter_of bits bit letter.now) }
{
    if bits & bit == 0 {
        return Ok(());
    }
    push_word(text, letter)
}

/// Adds the letters of the bits that are set, or a dash.
fn push_bits<A: Allocator + Copy>(text: &mut Vec<u8, A>, bits: u32) -> Result<(), AllocError>
    ensures { OnOk result (text.new.items ≡ text.old.items ++ bits_text bits) }
{
    if bits == 0 {
        return push_word(text, "-");
    }
    push_letter(text, bits, BIT_V, "V")?;
    push_letter(text, bits, BIT_E, "E")?;
    push_letter(text, bits, BIT_B, "B")
}

/// Adds the value of a field.
fn push_value<A: Allocator + Copy>(
    text: &mut Vec<u8, A>,
    field: Field,
    value: u32,
) -> Result<(), AllocError>
    ensures { OnOk result (text.new.items ≡ text.old.items ++ value_text field value) }
{
    match field {
        Field::Bits => push_bits(text, value),
        Field::Mask => push_number_after(text, "/", u64::from(value)),
        Field::Forward => push_address(text, Addr(value)),
        Field::MetricType | Field::Metric | Field::Tag => push_number(text, u64::from(value)),
    }
}

/// Adds the name of a field.
fn push_name<A: Allocator + Copy>(text: &mut Vec<u8, A>, field: Field) -> Result<(), AllocError>
    ensures { OnOk result (text.new.items ≡ text.old.items ++ field_name field) }
{
    match field {
        Field::Bits => push_word(text, "bits"),
        Field::Mask => push_word(text, "mask"),
        Field::MetricType => push_word(text, "type"),
        Field::Metric => push_word(text, "metric"),
        Field::Forward => push_word(text, "forward"),
        Field::Tag => push_word(text, "tag"),
    }
}

/// Adds a field with its value before and now, as `metric 5 -> 6`.
pub(crate) fn push_field_change<A: Allocator + Copy>(
    text: &mut Vec<u8, A>,
    change: FieldChange,
) -> Result<(), AllocError>
    ensures { OnOk result (text.new.items ≡ text.old.items ++ field_text change) }
{
    push_name(text, change.field)?;
    push_word(text, " ")?;
    push_value(text, change.field, change.before)?;
    push_word(text, " -> ")?;
    push_value(text, change.field, change.now)
}
