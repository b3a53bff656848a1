//! What follows the header of an LSA, of whatever type.

ghost use Rattle.std.specs.Prelude.{◌≡◌, IfOk, option_map};
ghost use Rattle.frr_text.specs.Words.{words};
ghost use Rattle.frr_text.specs.Bodies.{summary_in, summary_bytes, external_in, external_bytes, body_in};

use crate::external::{external_bytes, external_in};
use crate::header::Header;
use crate::ls_type::LsType;
use crate::network::network_in;
use crate::router::router_in;
use crate::summary::{summary_bytes, summary_in};
use std::alloc::{AllocError, Allocator};

/// The bytes after the header of a summary-LSA.
fn summary_body<A: Allocator + Copy>(
    alloc: A,
    text: &[u8],
) -> Result<Option<Vec<u8, A>>, AllocError>
    ensures { IfOk result (λ body. option_map (λ bytes. bytes.items) body
        ≡ option_map summary_bytes (summary_in (words text.now))) }
{
    match summary_in(text) {
        None => Ok(None),
        Some(summary) => Ok(Some(Vec::from_slice(alloc, &summary_bytes(summary))?)),
    }
}

/// The bytes after the header of an AS-external-LSA.
fn external_body<A: Allocator + Copy>(
    alloc: A,
    text: &[u8],
) -> Result<Option<Vec<u8, A>>, AllocError>
    ensures { IfOk result (λ body. option_map (λ bytes. bytes.items) body
        ≡ option_map external_bytes (external_in (words text.now))) }
{
    match external_in(text) {
        None => Ok(None),
        Some(external) => Ok(Some(Vec::from_slice(alloc, &external_bytes(external))?)),
    }
}

/// The bytes after this header, whose words stand here.
pub(crate) fn body_in<A: Allocator + Copy>(
    alloc: A,
    header: Header,
    text: &[u8],
) -> Result<Option<Vec<u8, A>>, AllocError>
    ensures { IfOk result (λ body. option_map (λ bytes. bytes.items) body
        ≡ body_in header (words text.now)) }
{
    match header.name.ls_type {
        LsType::Router => router_in(alloc, header.flags, text),
        LsType::Network => network_in(alloc, header.checksum_and_length.size, text),
        LsType::Summary | LsType::AsbrSummary => summary_body(alloc, text),
        LsType::External => external_body(alloc, text),
    }
}
