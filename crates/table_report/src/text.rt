//! The text of a routing table.

ghost use Rattle.std.specs.Prelude.{◌≡◌, ◌++◌, IfOk, IfSome, OnOk, codes, map, true};
ghost use Rattle.std.specs.String.{string_bytes};
ghost use Rattle.table_report.specs.Texts.{line_of, lines_text, table_text};
ghost use Rattle.table_report.specs.steps.Parts.{ways_text};

use crate::compare::{are_same_areas, are_same_hops};
use crate::line::{push_line_with, push_ways};
use crate::piece::ROOM;
use area_routes::Route;
use routing_table::Table;
use std::alloc::{AllocError, Allocator};

/// Whether two routes have the same areas and hops.
fn have_same_ways<A: Allocator + Copy>(before: &Route<A>, now: &Route<A>) -> bool
    ensures { result ≡ true → ways_text before.now ≡ ways_text now.now }
{
    are_same_areas(before.areas.as_slice(), now.areas.as_slice())
        && are_same_hops(before.hops.as_slice(), now.hops.as_slice())
}

/// Makes a text the area and the hops of a route, and the end of its line. The text was that of the
/// route before, and stays where the ways are the same.
fn write_ways<A: Allocator + Copy>(
    ways: &mut String<A>,
    before: Option<&Route<A>>,
    route: &Route<A>,
    buffer: &mut [u8; ROOM],
) -> Result<(), AllocError>
    requires { IfSome before
        (λ before. string_bytes ways.old ≡ ways_text before.now ++ codes "\n") }
    ensures { OnOk result (string_bytes ways.new ≡ ways_text route.now ++ codes "\n") }
{
    if let Some(before) = before
        && have_same_ways(before, route)
    {
        return Ok(());
    }
    ways.clear();
    push_ways(ways, route, buffer)?;
    ways.push('\n')
}

/// Adds the lines of routes, each with its end.
fn push_lines<A: Allocator + Copy>(
    text: &mut String<A>,
    routes: &[Route<A>],
) -> Result<(), AllocError>
    ensures { OnOk result
        (string_bytes text.new ≡ string_bytes text.old ++ lines_text (map line_of routes.now)) }
{
    let mut ways = String::new(*text.allocator());
    let mut buffer = [0; ROOM];
    let mut before = None;
    for route in routes {
        write_ways(&mut ways, before, route, &mut buffer)?;
        push_line_with(text, route, &ways, &mut buffer)?;
        before = Some(route);
    }
    Ok(())
}

/// Adds the text of a routing table: `table 1.1.1.1 2`, and a line for each route, in order of
/// prefix, as `10.2.0.0/16 intra 15 0 0.0.0.0 link:10.0.0.1`. A line has the prefix, the type of
/// the paths, their cost, their type 2 metric, the lowest of their areas, which is `-` for an
/// external route, and the next hops, joined by commas.
///
/// # Errors
///
/// Memory ran out. A part of the text may have been added.
pub fn push_table<A: Allocator + Copy>(
    text: &mut String<A>,
    table: &Table<A>,
) -> Result<(), AllocError>
    ensures { OnOk result
        (string_bytes text.new ≡ string_bytes text.old ++ table_text table.now) }
{
    let router = table.router();
    let routes = table.routes().as_slice();
    let count = routes.len();
    write!(text, "table {router} {count}\n")?;
    push_lines(text, routes)
}

/// The text of a routing table alone, as [`push_table`] adds it. An error is want of memory.
pub fn table_text<A: Allocator + Copy>(alloc: A, table: &Table<A>) -> Result<Vec<u8, A>, AllocError>
    ensures { IfOk result (λ text. text.items ≡ table_text table.now) }
{
    let mut text = String::new(alloc);
    push_table(&mut text, table)?;
    Ok(text.into_bytes())
}
