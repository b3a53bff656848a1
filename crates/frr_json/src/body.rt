//! What follows the header of an LSA, of whatever type.

ghost use Rattle.std.specs.Prelude.{◌≡◌, IfOk, option_map};
ghost use Rattle.json.specs.Value.{value_view};
ghost use Rattle.frr_text.specs.Bodies.{summary_bytes, external_bytes};
ghost use Rattle.frr_json.specs.Bodies.{summary_in, external_in, body_in};

use crate::external::external_in;
use crate::network::network_in;
use crate::router::router_in;
use crate::summary::summary_in;
use frr_text::fields::{Header, LsType, external_bytes, summary_bytes};
use json::Value;
use std::alloc::{AllocError, Allocator};

/// The bytes after the header of a summary-LSA.
fn summary_body<A: Allocator + Copy>(
    alloc: A,
    json: &Value<'_, A>,
) -> Result<Option<Vec<u8, A>>, AllocError>
    ensures { IfOk result (λ body. option_map (λ bytes. bytes.items) body
        ≡ option_map summary_bytes (summary_in (value_view json.now))) }
{
    match summary_in(json) {
        None => Ok(None),
        Some(summary) => Ok(Some(Vec::from_slice(alloc, &summary_bytes(summary))?)),
    }
}

/// The bytes after the header of an AS-external-LSA.
fn external_body<A: Allocator + Copy>(
    alloc: A,
    json: &Value<'_, A>,
) -> Result<Option<Vec<u8, A>>, AllocError>
    ensures { IfOk result (λ body. option_map (λ bytes. bytes.items) body
        ≡ option_map external_bytes (external_in (value_view json.now))) }
{
    match external_in(json) {
        None => Ok(None),
        Some(external) => Ok(Some(Vec::from_slice(alloc, &external_bytes(external))?)),
    }
}

/// The bytes after this header, from the object of the LSA.
pub(crate) fn body_in<A: Allocator + Copy>(
    alloc: A,
    header: Header,
    json: &Value<'_, A>,
) -> Result<Option<Vec<u8, A>>, AllocError>
    ensures { IfOk result (λ body. option_map (λ bytes. bytes.items) body
        ≡ body_in header (value_view json.now)) }
{
    match header.name.ls_type {
        LsType::Router => router_in(alloc, header.flags, json),
        LsType::Network => network_in(alloc, json),
        LsType::Summary | LsType::AsbrSummary => summary_body(alloc, json),
        LsType::External => external_body(alloc, json),
    }
}
