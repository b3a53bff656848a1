//! The text of the differences of two routing tables.

ghost use Rattle.std.specs.Prelude.{◌≡◌, ◌++◌, IfOk, IfSome, OnOk, Some, codes, true};
ghost use Rattle.std.specs.Option.{option_copied};
ghost use Rattle.std.specs.String.{string_bytes};
ghost use Rattle.area_graph.specs.Rising.{rising};
ghost use Rattle.lsa_codec.specs.Order.{prefix_cmp};
ghost use Rattle.best_ways.specs.Routes.{AreSortedRoutes, nets, route_to};
ghost use Rattle.routing_table.specs.Tables.{TableValue};
ghost use Rattle.table_report.specs.Comparing.{change, changes, compare_text};
ghost use Rattle.table_report.specs.Texts.{line_of};
ghost use Rattle.table_report.specs.steps.Lines.{AddsLine, AreChangedLines};

use crate::line::{push_line, push_rest};
use area_routes::{Route, Routes};
use lsa_codec::{AreaId, Prefix, RouterId};
use next_hops::{Hop, hop_equality};
use routing_table::Table;
use std::alloc::{AllocError, Allocator};

/// The prefixes of both lists of routes, in order, each once.
fn all_nets<A: Allocator + Copy>(
    alloc: A,
    before: &Routes<A>,
    now: &Routes<A>,
) -> Result<Vec<Prefix, A>, AllocError>
    ensures { IfOk result
        (λ found. found.items ≡ rising prefix_cmp (nets (before.now ++ now.now))) }
{
    let mut nets = before.nets(alloc)?;
    let mut more = now.nets(alloc)?;
    nets.append(&mut more)?;
    // Two lists in order: a stable sort merges them in one go.
    nets.sort()?;
    nets.dedup();
    Ok(nets)
}

/// Adds a mark, a space and the line of a route with its end.
fn push_marked<A: Allocator + Copy>(
    lines: &mut String<A>,
    mark: &str,
    route: &Route<A>,
) -> Result<(), AllocError>
    ensures { OnOk result (string_bytes lines.new
        ≡ string_bytes lines.old ++ (mark.now ++ codes " " ++ line_of route.now ++ codes "\n")) }
{
    lines.push_str(mark)?;
    lines.push(' ')?;
    push_line(lines, route)?;
    lines.push('\n')
}

/// Makes a text the line of a route, without its end.
fn write_line<A: Allocator + Copy>(line: &mut String<A>, route: &Route<A>) -> Result<(), AllocError>
    ensures { OnOk result (string_bytes line.new ≡ line_of route.now) }
{
    line.clear();
    push_line(line, route)
}

/// Whether hops are the same.
pub(crate) fn are_same_hops(before: &[Hop], now: &[Hop]) -> bool
    ensures { result ≡ true → before.now ≡ now.now }
{
    // The law says that hops that `==` finds equal are the same.
    hop_equality();
    before == now
}

/// Whether areas are the same.
pub(crate) fn are_same_areas(before: &[AreaId], now: &[AreaId]) -> bool
    ensures { result ≡ true → before.now ≡ now.now }
{
    before == now
}

/// Whether two routes are the same. It spares the lines of most of them.
fn are_same<A: Allocator + Copy>(before: &Route<A>, now: &Route<A>) -> bool
    ensures { result ≡ true → before.now ≡ now.now }
{
    before.cost == now.cost
        && before.cost2 == now.cost2
        && before.kind == now.kind
        && before.net == now.net
        && are_same_areas(before.areas.as_slice(), now.areas.as_slice())
        && are_same_hops(before.hops.as_slice(), now.hops.as_slice())
}

/// The lines of two routes that are compared. Their memory serves for all prefixes.
#[derive(Drop)]
struct ComparedLines<A: Allocator> {
    /// The line of the earlier route.
    before: String<A>,
    /// The line of the present route.
    now: String<A>,
}

/// Adds the line for a prefix that both tables have, unless their lines are equal, and says whether
/// it did.
fn push_changed<A: Allocator + Copy>(
    lines: &mut String<A>,
    compared: &mut ComparedLines<A>,
    before: &Route<A>,
    now: &Route<A>,
) -> Result<bool, AllocError>
    ensures { IfOk result (λ added. AddsLine (change (Some before.now) (Some now.now))
        (string_bytes lines.old) added (string_bytes lines.new)) }
{
    if are_same(before, now) {
        return Ok(false);
    }
    write_line(&mut compared.before, before)?;
    write_line(&mut compared.now, now)?;
    if compared.before == compared.now {
        return Ok(false);
    }
    lines.push_str("~ ")?;
    lines.push_str(&compared.now)?;
    lines.push_str(" was ")?;
    push_rest(lines, before)?;
    lines.push('\n')?;
    Ok(true)
}

/// Adds the line for a prefix by its routes, if there is one, and says whether there is.
fn push_change<A: Allocator + Copy>(
    lines: &mut String<A>,
    compared: &mut ComparedLines<A>,
    before: Option<&Route<A>>,
    now: Option<&Route<A>>,
) -> Result<bool, AllocError>
    ensures { IfOk result (λ added.
        AddsLine (change (option_copied before.entry) (option_copied now.entry))
        (string_bytes lines.old) added (string_bytes lines.new)) }
{
    match (before, now) {
        (None, None) => return Ok(false),
        (None, Some(now)) => push_marked(lines, "+", now)?,
        (Some(before), None) => push_marked(lines, "-", before)?,
        (Some(before), Some(now)) => return push_changed(lines, compared, before, now),
    }
    Ok(true)
}

/// The route to a prefix, which is looked for at a place first.
fn route_near<A: Allocator + Copy>(
    routes: &Routes<A>,
    place: usize,
    net: Prefix,
) -> Option<&Route<A>>
    ensures { option_copied result ≡ route_to routes.now net }
{
    match routes.as_slice().get(place) {
        Some(route) if route.net == net => Some(route),
        _ => routes.route_to(net),
    }
}

/// Whether two routes are to the same prefix.
fn are_to_same_net<A: Allocator + Copy>(before: &Route<A>, now: &Route<A>) -> bool
    ensures { result ≡ true → before.now.net ≡ now.now.net }
{
    before.net == now.net
}

/// The lines for the prefixes at which two lists of routes differ, in order of prefix, each with
/// its end.
#[derive(Drop)]
struct ChangedLines<A: Allocator> {
    /// The lines.
    lines: String<A>,
    /// How many they are.
    count: usize,
}

/// The lines for the prefixes at which two lists of routes differ; `None` where they are not to the
/// same prefixes.
fn changes_in_place<A: Allocator + Copy>(
    alloc: A,
    compared: &mut ComparedLines<A>,
    before: &[Route<A>],
    now: &[Route<A>],
) -> Result<Option<ChangedLines<A>>, AllocError>
    requires before { AreSortedRoutes before.now }
    requires now { AreSortedRoutes now.now }
    ensures { IfOk result (λ found. IfSome found (AreChangedLines (changes before.now now.now))) }
{
    if before.len() != now.len() {
        return Ok(None);
    }
    let mut lines = String::new(alloc);
    let mut count = 0;
    for index in 0..before.len() {
        let route_before = &before[index];
        let route_now = &now[index];
        if !are_to_same_net(route_before, route_now) {
            return Ok(None);
        }
        if push_changed(&mut lines, compared, route_before, route_now)? {
            count += 1;
        }
    }
    Ok(Some(ChangedLines { lines, count }))
}

/// The lines for the prefixes at which two lists of routes differ. Most often both have the same
/// prefixes.
fn changes<A: Allocator + Copy>(
    alloc: A,
    before: &Routes<A>,
    now: &Routes<A>,
) -> Result<ChangedLines<A>, AllocError>
    ensures { IfOk result (AreChangedLines (changes before.now now.now)) }
{
    let mut compared = ComparedLines {
        before: String::new(alloc),
        now: String::new(alloc),
    };
    match changes_in_place(alloc, &mut compared, before.as_slice(), now.as_slice())? {
        Some(changes) => Ok(changes),
        None => changes_by_prefix(alloc, &mut compared, before, now),
    }
}

/// The same, prefix by prefix.
fn changes_by_prefix<A: Allocator + Copy>(
    alloc: A,
    compared: &mut ComparedLines<A>,
    before: &Routes<A>,
    now: &Routes<A>,
) -> Result<ChangedLines<A>, AllocError>
    ensures { IfOk result (AreChangedLines (changes before.now now.now)) }
{
    let nets = all_nets(alloc, before, now)?;
    let mut lines = String::new(alloc);
    let mut count = 0;
    // Where the next routes are likely to stand: a wrong place costs a search.
    let (mut place_before, mut place_now) = (0, 0);
    for net in nets.as_slice() {
        let route_before = route_near(before, place_before, *net);
        let route_now = route_near(now, place_now, *net);
        place_before = place_before.wrapping_add(usize::from(route_before.is_some()));
        place_now = place_now.wrapping_add(usize::from(route_now.is_some()));
        if push_change(&mut lines, compared, route_before, route_now)? {
            count += 1;
        }
    }
    Ok(ChangedLines { lines, count })
}

/// Adds the text of what a routing table of a router has otherwise than an earlier one:
/// `compare 1.1.1.1 1`, and a line for each prefix whose lines differ, in order of prefix. Such a
/// line is `+ LINE` where only the present table has the prefix, `- LINE` where only the earlier
/// one has it, and else `~ LINE was REST`, where REST is the earlier line without its prefix.
///
/// # Errors
///
/// Memory ran out. A part of the text may have been added.
pub fn push_compare<A: Allocator + Copy>(
    alloc: A,
    text: &mut String<A>,
    router: RouterId,
    before: &Table<A>,
    now: &Table<A>,
) -> Result<(), AllocError>
    ensures { OnOk result (string_bytes text.new
        ≡ string_bytes text.old ++ compare_text router before.now now.now) }
{
    let changes = changes(alloc, before.routes(), now.routes())?;
    let count = changes.count;
    write!(text, "compare {router} {count}\n")?;
    text.push_str(&changes.lines)
}

/// The text of what a routing table has otherwise than an earlier one alone, as [`push_compare`]
/// adds it. An error is want of memory.
pub fn compare_text<A: Allocator + Copy>(
    alloc: A,
    router: RouterId,
    before: &Table<A>,
    now: &Table<A>,
) -> Result<Vec<u8, A>, AllocError>
    ensures { IfOk result (λ text. text.items ≡ compare_text router before.now now.now) }
{
    let mut text = String::new(alloc);
    push_compare(alloc, &mut text, router, before, now)?;
    Ok(text.into_bytes())
}

/// Adds the text of a comparison of a router's table with itself: `compare 1.1.1.1 0`.
///
/// # Errors
///
/// Memory ran out. A part of the text may have been added.
pub fn push_no_change<A: Allocator + Copy>(
    text: &mut String<A>,
    router: RouterId,
) -> Result<(), AllocError>
    ensures { OnOk result ((table : TableValue) → string_bytes text.new
        ≡ string_bytes text.old ++ compare_text router table table) }
{
    let count: usize = 0;
    write!(text, "compare {router} {count}\n")
}
