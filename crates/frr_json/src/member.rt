//! Members of a JSON object, by their names.

ghost use Rattle.std.specs.Prelude.{◌≡◌, ◌≤◌, IfSome, option_map};
ghost use Rattle.json.specs.Find.{as_array, as_object};
ghost use Rattle.json.specs.Value.{value_view, items_view, members_view};
ghost use Rattle.frr_json.specs.Members.{text_at, number_at, hex_at, address_at, members_at};

use json::Value;
use std::alloc::Allocator;
use text_words::{address_of, hex_up_to, number_up_to};

/// The items of an array.
pub(crate) fn items_of<'v, 'a, A: Allocator>(json: &'v Value<'a, A>) -> Option<&'v [Value<'a, A>]>
    ensures { option_map (λ items. items_view items.now) result ≡ as_array (value_view json.now) }
{
    match json {
        Value::Array(items) => Some(items),
        _ => None,
    }
}

/// The members of an object, in the order of the text.
pub(crate) fn members_of<'v, 'a, A: Allocator>(
    json: &'v Value<'a, A>,
) -> Option<&'v [(&'a str, Value<'a, A>)]>
    ensures { option_map (λ members. members_view members.now) result
        ≡ as_object (value_view json.now) }
{
    match json {
        Value::Object(members) => Some(members),
        _ => None,
    }
}

/// The text of this member.
#[tactic(auto, unfolding(crate::specs::Members::text_at))]
pub(crate) fn text_at<'a, A: Allocator>(name: &str, json: &Value<'a, A>) -> Option<&'a str>
    ensures { option_map (λ text. text.now) result ≡ text_at name.now (value_view json.now) }
{
    let found = json.get(name)?;
    found.as_str()
}

/// The number of this member, where it is at most `max`.
#[tactic(auto, unfolding(crate::specs::Members::number_at))]
pub(crate) fn number_at<A: Allocator>(max: u32, name: &str, json: &Value<'_, A>) -> Option<u32>
    ensures value { result ≡ number_at max name.now (value_view json.now) }
    ensures bound { IfSome result (λ n. n ≤ max) }
{
    let found = json.get(name)?;
    let digits = found.as_number()?;
    number_up_to(max, digits.as_bytes())
}

/// The number that the text of this member spells in hexadecimal, where it is at most `max`.
#[tactic(auto, unfolding(crate::specs::Members::hex_at))]
pub(crate) fn hex_at<A: Allocator>(max: u32, name: &str, json: &Value<'_, A>) -> Option<u32>
    ensures value { result ≡ hex_at max name.now (value_view json.now) }
    ensures bound { IfSome result (λ n. n ≤ max) }
{
    let text = text_at(name, json)?;
    hex_up_to(max, text.as_bytes())
}

/// The address that the text of this member spells.
#[tactic(auto, unfolding(crate::specs::Members::address_at))]
pub(crate) fn address_at<A: Allocator>(name: &str, json: &Value<'_, A>) -> Option<u32>
    ensures { result ≡ address_at name.now (value_view json.now) }
{
    let text = text_at(name, json)?;
    address_of(text.as_bytes())
}

/// The members of the object that this member is.
#[tactic(auto, unfolding(crate::specs::Members::members_at))]
pub(crate) fn members_at<'v, 'a, A: Allocator>(
    name: &str,
    json: &'v Value<'a, A>,
) -> Option<&'v [(&'a str, Value<'a, A>)]>
    ensures { option_map (λ members. members_view members.now) result
        ≡ members_at name.now (value_view json.now) }
{
    let found = json.get(name)?;
    members_of(found)
}
