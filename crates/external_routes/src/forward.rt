//! The match of a forwarding address among routes in order of prefix.

ghost use Rattle.std.specs.Prelude.{◌≡◌, ◌≤◌, length};
ghost use Rattle.std.specs.Option.{option_copied};
ghost use Rattle.lsa_codec.specs.Prefix.{masked};
ghost use Rattle.best_ways.specs.Routes.{route_to};
ghost use Rattle.external_routes.specs.Choose.{forward_match};
ghost use Rattle.external_routes.specs.steps.Lookup.{MarksLengths};

use area_routes::{Route, Routes};
use lsa_codec::{Addr, Prefix};
use std::alloc::Allocator;

/// The number of lengths that a prefix may have: 0 to 32.
const LENGTHS: usize = 33;

/// Marks the lengths of the routes' prefixes.
pub(crate) fn lengths<A: Allocator + Copy>(routes: &[Route<A>]) -> [bool; 33]
    ensures { MarksLengths routes.now result }
{
    let mut marks = [false; LENGTHS];
    for route in routes {
        marks[usize::from(route.net.len())] = true;
    }
    marks
}

/// The route to the prefix of this length that covers an address, where `marks` has the lengths of
/// the routes' prefixes.
fn covering<'a, A: Allocator + Copy>(
    routes: &'a Routes<A>,
    marks: &[bool; 33],
    addr: Addr,
    len: u8,
) -> Option<&'a Route<A>>
    requires len { len ≤ 32 }
    requires marked { MarksLengths routes.now marks.now }
    ensures { option_copied result ≡ route_to routes.now (masked addr len) }
{
    if !marks[usize::from(len)] {
        return None;
    }
    routes.route_to(Prefix::masked(addr, len))
}

/// The route of the longest prefix that covers an address, where `marks` has the lengths of the
/// routes' prefixes.
pub(crate) fn forward_match<'a, A: Allocator + Copy>(
    routes: &'a Routes<A>,
    marks: &[bool; 33],
    addr: Addr,
) -> Option<&'a Route<A>>
    requires { MarksLengths routes.now marks.now }
    ensures { option_copied result ≡ forward_match routes.now addr }
{
    for shorter in 0..33 {
        if let Some(route) = covering(routes, marks, addr, 32 - shorter) {
            return Some(route);
        }
    }
    None
}
