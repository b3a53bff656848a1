//! What the lines of a list contain.

ghost use Rattle.std.specs.Prelude.{◌≡◌, ◌++◌, IfOk, OnOk, None};
ghost use Rattle.lsa_instances.specs.Order.{scope_of_report};
ghost use Rattle.frr_text.specs.Words.{words};
ghost use Rattle.lsdb_listing.specs.Lines.{lines};
ghost use Rattle.lsdb_listing.specs.ParsedLines.{in_scope, parsed_row, parsed_by, parsed_in};

use crate::heading::Heading;
use crate::line_kind::{LineKind, line_kind_of};
use crate::row::{Row, row_under};
use findings::{Part, UnusedReason, is_opaque_type};
use lsa_codec::AreaId;
use lsa_instances::{Header, Place, Scope};
use std::alloc::{AllocError, Allocator};
use text_words::cut_at;

/// The header of a row whose LSA has this scope, or a finding where it has none.
fn in_scope<A: Allocator + Copy>(row: Row, scope: Option<Scope>) -> Part<A>
    ensures { result ≡ in_scope row scope }
{
    match scope {
        None => Part::unused(row.key, UnusedReason::NoArea),
        Some(scope) => Part::Header(Header {
            place: Place {
                scope,
                key: row.key,
            },
            instance: row.instance,
            age: row.age,
        }),
    }
}

/// What a row contains under the heading of an area, or of none. A row of an opaque LSA is ignored.
fn parsed_row<A: Allocator + Copy>(area: Option<AreaId>, row: Option<Row>) -> Option<Part<A>>
    ensures { result ≡ parsed_row area row }
{
    let Some(row) = row else {
        return Some(Part::Unreadable);
    };
    if is_opaque_type(row.key.kind) {
        return None;
    }
    Some(in_scope(row, Scope::of(row.key.kind, area)))
}

/// Adds what a line contains.
fn parse_line<A: Allocator + Copy>(
    parsed: &mut Vec<Part<A>, A>,
    heading: Option<Heading>,
    line: &[u8],
    line_kind: LineKind,
) -> Result<(), AllocError>
    ensures { OnOk result (parsed.new.items
        ≡ parsed.old.items ++ parsed_by heading (words line.now) line_kind) }
{
    match (line_kind, heading) {
        (LineKind::Foreign, _) => {
            parsed.push(Part::Unreadable)?;
            Ok(())
        }
        (LineKind::Row, Some(heading)) => {
            if let Some(one) = parsed_row(heading.area(), row_under(heading, line)) {
                parsed.push(one)?;
            }
            Ok(())
        }
        _ => Ok(()),
    }
}

/// What the lines of a text contain, from the first line to the last.
pub(crate) fn parse_all<A: Allocator + Copy>(
    alloc: A,
    text: &[u8],
) -> Result<Vec<Part<A>, A>, AllocError>
    ensures { IfOk result (λ parsed. parsed.items ≡ parsed_in None (lines text.now)) }
{
    let mut parsed = Vec::new(alloc);
    let mut heading = None;
    let mut rest = text;
    while let Some((line, after)) = cut_at(rest, b'\n') {
        let line_kind = line_kind_of(line);
        parse_line(&mut parsed, heading, line, line_kind)?;
        heading = line_kind.heading_after(heading);
        rest = after;
    }
    parse_line(&mut parsed, heading, rest, line_kind_of(rest))?;
    Ok(parsed)
}
