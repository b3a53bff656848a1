//! The body of an AS-external-LSA (RFC 2328, A.4.5) in JSON.

ghost use Rattle.std.specs.Prelude.{◌≡◌, ◌≤◌, IfSome};
ghost use Rattle.json.specs.Value.{value_view};
ghost use Rattle.frr_json.specs.Bodies.{is_type2_named, external_in};

use crate::member::{address_at, number_at, text_at};
use frr_text::fields::External;
use json::Value;
use lsa_codec::LS_INFINITY;
use std::alloc::Allocator;

/// Whether the metric is of type 2.
fn is_type2_named(name: &str) -> Option<bool>
    ensures { result ≡ is_type2_named name.now }
{
    if name == "E2 (Larger than any link state path)" {
        return Some(true);
    }
    if name == "E1" {
        return Some(false);
    }
    None
}

/// The fields after the header.
#[tactic(auto, unfolding(crate::specs::Bodies::external_in))]
pub(crate) fn external_in<A: Allocator>(json: &Value<'_, A>) -> Option<External>
    ensures value { result ≡ external_in (value_view json.now) }
    ensures mask { IfSome result (λ external. external.len ≤ 32) }
{
    let len = number_at(32, "networkMask", json)?;
    let name = text_at("metricType", json)?;
    let is_type2 = is_type2_named(name)?;
    let metric = number_at(LS_INFINITY, "metric", json)?;
    let forward = address_at("forwardAddress", json)?;
    let tag = number_at(0xffff_ffff, "externalRouteTag", json)?;
    Some(External {
        len: len as u8,
        is_type2,
        metric,
        forward,
        tag,
    })
}
