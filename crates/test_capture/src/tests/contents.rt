//! What printed texts and walks contain, beside what is expected of them.

use super::observed::{Expected, are_of};
use findings::{Content, Finding};
use frr_text::read_printed;
use lsa_instances::AreaReport;
use snmp_walk::read_walk;
use std::alloc::{Allocator, Global};
use std::test::*;

/// What a text is: printed by a router, or a walk.
#[derive(Clone, Copy)]
pub(super) enum Format {
    Printed,
    Walk,
}

/// A text that is read: a name, the text, and what it contains: LSAs, kinds of areas, and findings.
pub(super) type Row = (
    &'static str,
    &'static [u8],
    &'static [Expected],
    &'static [AreaReport],
    &'static [Finding],
);

/// Whether a content has these LSAs and kinds of areas, and these findings.
pub(super) fn has<A: Allocator + Copy>(
    content: &Content<A>,
    lsas: &[Expected],
    kinds: &[AreaReport],
    findings: &[Finding],
) -> bool {
    let is_parsed = are_of(&content.observations, lsas) && content.kinds.as_slice() == kinds;
    is_parsed && content.findings.as_slice() == findings
}

/// What a text contains.
fn read(alloc: Global, format: Format, text: &[u8]) -> Result<Content, Fail> {
    match format {
        Format::Printed => Ok(read_printed(alloc, text)?),
        Format::Walk => Ok(read_walk(alloc, text)?),
    }
}

/// The name of the first text that contains something else.
pub(super) fn first_other(
    alloc: Global,
    format: Format,
    rows: &[Row],
) -> Result<Option<&'static str>, Fail> {
    for (name, text, lsas, kinds, findings) in rows {
        if !has(&read(alloc, format, text)?, lsas, kinds, findings) {
            return Ok(Some(*name));
        }
    }
    Ok(None)
}
