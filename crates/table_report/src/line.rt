//! The line of a route.
//!
//! Its pieces are written into a buffer, which functions hand on so that it is made once.

ghost use Rattle.std.specs.Prelude.{◌≡◌, ◌≤◌, ◌++◌, IsAscii, OnOk, codes, drop, flat_map};
ghost use Rattle.std.specs.String.{string_bytes};
ghost use Rattle.lsa_codec.specs.Spelling.{prefix_text};
ghost use Rattle.next_hops.specs.Hop.{hop_text};
ghost use Rattle.table_report.specs.Texts.{area_text, hops_text, line_of, rest_of};
ghost use Rattle.table_report.specs.steps.Parts.{hop_after, paths_text, ways_text};

use crate::piece::{
    ROOM, end_of, push_written, write_area, write_character, write_costs, write_hop, write_kind,
    write_prefix,
};
use area_routes::Route;
use lsa_codec::AreaId;
use next_hops::Hop;
use std::alloc::{AllocError, Allocator};

/// Writes the type of the paths of a route and their costs, and a space.
fn write_paths<A: Allocator + Copy>(route: &Route<A>, buffer: &mut [u8; ROOM]) -> usize
    ensures start { (21 ≤ result) × (result ≤ 128) }
    ensures written { drop result buffer.new ≡ paths_text route.now }
    ensures ascii { IsAscii (drop result buffer.new) }
{
    let end = end_of(buffer);
    let start = write_costs(route.cost, route.cost2, buffer, end);
    write_kind(route.kind, buffer, start)
}

/// Writes the prefix of a route, the type of its paths and their costs, and a space.
fn write_front<A: Allocator + Copy>(route: &Route<A>, buffer: &mut [u8; ROOM]) -> usize
    ensures start { result ≤ 128 }
    ensures written { drop result buffer.new
        ≡ prefix_text route.now.net ++ codes " " ++ paths_text route.now }
    ensures ascii { IsAscii (drop result buffer.new) }
{
    let start = write_paths(route, buffer);
    write_prefix(route.net, buffer, start)
}

/// Adds the prefix of a route, the type of its paths and their costs, and a space.
fn push_front<A: Allocator + Copy>(
    text: &mut String<A>,
    route: &Route<A>,
    buffer: &mut [u8; ROOM],
) -> Result<(), AllocError>
    ensures { OnOk result
        (string_bytes text.new
        ≡ string_bytes text.old
        ++ (prefix_text route.now.net ++ codes " " ++ paths_text route.now)) }
{
    let start = write_front(route, buffer);
    push_written(text, buffer, start)
}

/// Adds a comma and a hop.
fn push_next_hop<A: Allocator + Copy>(
    text: &mut String<A>,
    hop: Hop,
    buffer: &mut [u8; ROOM],
) -> Result<(), AllocError>
    ensures { OnOk result (string_bytes text.new ≡ string_bytes text.old ++ hop_after hop) }
{
    let end = end_of(buffer);
    let start = write_hop(hop, buffer, end);
    let start = write_character(b',', buffer, start);
    push_written(text, buffer, start)
}

/// Adds hops, each after a comma.
fn push_more_hops<A: Allocator + Copy>(
    text: &mut String<A>,
    hops: &[Hop],
    buffer: &mut [u8; ROOM],
) -> Result<(), AllocError>
    ensures { OnOk result
        (string_bytes text.new ≡ string_bytes text.old ++ flat_map hop_after hops.now) }
{
    for hop in hops {
        push_next_hop(text, *hop, buffer)?;
    }
    Ok(())
}

/// Adds the lowest of areas and a space.
fn push_area<A: Allocator + Copy>(
    text: &mut String<A>,
    areas: &[AreaId],
    buffer: &mut [u8; ROOM],
) -> Result<(), AllocError>
    ensures { OnOk result
        (string_bytes text.new ≡ string_bytes text.old ++ (area_text areas.now ++ codes " ")) }
{
    let end = end_of(buffer);
    let start = write_area(areas, buffer, end);
    push_written(text, buffer, start)
}

/// Adds the lowest of areas, a space and a hop.
fn push_area_and_hop<A: Allocator + Copy>(
    text: &mut String<A>,
    areas: &[AreaId],
    hop: Hop,
    buffer: &mut [u8; ROOM],
) -> Result<(), AllocError>
    ensures { OnOk result
        (string_bytes text.new
        ≡ string_bytes text.old ++ (area_text areas.now ++ codes " " ++ hop_text hop)) }
{
    let end = end_of(buffer);
    let start = write_hop(hop, buffer, end);
    let start = write_area(areas, buffer, start);
    push_written(text, buffer, start)
}

/// Adds the lowest of areas, a space and hops, joined by commas.
fn push_area_and_hops<A: Allocator + Copy>(
    text: &mut String<A>,
    areas: &[AreaId],
    hops: &[Hop],
    buffer: &mut [u8; ROOM],
) -> Result<(), AllocError>
    ensures { OnOk result
        (string_bytes text.new
        ≡ string_bytes text.old ++ (area_text areas.now ++ codes " " ++ hops_text hops.now)) }
{
    let Some((first, more)) = hops.split_first() else {
        return push_area(text, areas, buffer);
    };
    push_area_and_hop(text, areas, *first, buffer)?;
    push_more_hops(text, more, buffer)
}

/// Adds the area and the hops of a route.
pub(crate) fn push_ways<A: Allocator + Copy>(
    text: &mut String<A>,
    route: &Route<A>,
    buffer: &mut [u8; ROOM],
) -> Result<(), AllocError>
    ensures { OnOk result (string_bytes text.new ≡ string_bytes text.old ++ ways_text route.now) }
{
    push_area_and_hops(text, route.areas.as_slice(), route.hops.as_slice(), buffer)
}

/// Adds what is said of a route but its prefix.
pub(crate) fn push_rest<A: Allocator + Copy>(
    text: &mut String<A>,
    route: &Route<A>,
) -> Result<(), AllocError>
    ensures { OnOk result (string_bytes text.new ≡ string_bytes text.old ++ rest_of route.now) }
{
    let mut buffer = [0; ROOM];
    let start = write_paths(route, &mut buffer);
    push_written(text, &buffer, start)?;
    push_ways(text, route, &mut buffer)
}

/// Adds the line of a route, without its end.
pub(crate) fn push_line<A: Allocator + Copy>(
    text: &mut String<A>,
    route: &Route<A>,
) -> Result<(), AllocError>
    ensures { OnOk result (string_bytes text.new ≡ string_bytes text.old ++ line_of route.now) }
{
    let mut buffer = [0; ROOM];
    push_front(text, route, &mut buffer)?;
    push_ways(text, route, &mut buffer)
}

/// Adds the line of a route with its end, of which its area and hops are written already.
pub(crate) fn push_line_with<A: Allocator + Copy>(
    text: &mut String<A>,
    route: &Route<A>,
    ways: &str,
    buffer: &mut [u8; ROOM],
) -> Result<(), AllocError>
    requires { ways.now ≡ ways_text route.now ++ codes "\n" }
    ensures { OnOk result
        (string_bytes text.new ≡ string_bytes text.old ++ (line_of route.now ++ codes "\n")) }
{
    push_front(text, route, buffer)?;
    text.push_str(ways)
}
