//! Prefixes in rising order, and how they are looked up.

ghost use Rattle.std.specs.Prelude.{◌≡◌, ◌<◌, ◌≤◌, ◌+◌, ℕ, None, IfErr, IfOk, MatchOption, length};
ghost use Rattle.std.specs.Bool.{OnTrue};
ghost use Rattle.std.specs.List.{HoldsAt, find};
ghost use Rattle.std.specs.List.Sorted.{IsStrictlySortedBy};
ghost use Rattle.std.specs.Ordering.{eq_by_cmp};
ghost use Rattle.std.specs.declared.cmp.Ordering.TheVariants.{Less};
ghost use Rattle.lsa_codec.specs.Order.{prefix_cmp};

use lsa_codec::Prefix;
use std::alloc::Allocator;
use std::cell::Cell;
use std::cmp::Ordering;
use std::marker::Model;

/// Prefixes in rising order, each once. Contracts see them as this list.
///
/// LSAs of one originator are mostly in the order of their prefixes, so a prefix is looked up first
/// where the last one was found, and right after that. The result does not depend on where it was
/// looked up, so contracts do not mention it.
#[derive(Drop)]
pub(crate) struct Nets<A: Allocator> {
    nets: Vec<Prefix, A>,
    last: Cell<usize>,
}

impl<A: Allocator> Model for Nets<A> {
    ghost use Rattle.std.specs.Prelude.{List};
    ghost use Rattle.std.specs.List.Sorted.{IsStrictlySortedBy};
    ghost use Rattle.lsa_codec.specs.Order.{prefix_cmp};
    ghost use Rattle.lsa_codec.specs.Prefix.{Net};

    ghost Value = { List Net };

    ghost view = { λ n. n.nets.items };

    ghost invariant = { λ n. IsStrictlySortedBy prefix_cmp n.nets.items };
}

/// Whether a prefix is at a place.
fn is_at(nets: &[Prefix], net: Prefix, place: usize) -> bool
    ensures { OnTrue result
        ((place < length nets.now) × HoldsAt (λ other. other ≡ net) nets.now place) }
{
    place < nets.len() && nets[place] == net
}

/// Whether a prefix is greater than the one before a place, if there is one.
fn is_after(nets: &[Prefix], net: Prefix, place: usize) -> bool
    ensures { OnTrue result ((place ≤ length nets.now) × ((last : ℕ) → last + 1 ≡ place
        → HoldsAt (λ other. prefix_cmp other net ≡ Less) nets.now last)) }
{
    match place.checked_sub(1) {
        Some(last) => last < nets.len() && nets[last].cmp(&net) == Ordering::Less,
        None => true,
    }
}

/// Whether a prefix is less than the one at a place, if there is one.
fn is_before(nets: &[Prefix], net: Prefix, place: usize) -> bool
    ensures { OnTrue result (place < length nets.now
        → HoldsAt (λ other. prefix_cmp net other ≡ Less) nets.now place) }
{
    place >= nets.len() || net.cmp(&nets[place]) == Ordering::Less
}

/// Whether a prefix is missing and would be at a place.
fn is_gap(nets: &[Prefix], net: Prefix, place: usize) -> bool
    requires { IsStrictlySortedBy prefix_cmp nets.now }
    ensures { OnTrue result (find (eq_by_cmp prefix_cmp net) nets.now ≡ None) }
{
    is_after(nets, net, place) && is_before(nets, net, place)
}

/// The place of a prefix, or the place where it would be, by a binary search.
fn search(nets: &[Prefix], net: Prefix) -> Result<usize, usize>
    requires { IsStrictlySortedBy prefix_cmp nets.now }
    ensures at { IfOk result
        (λ place. (place < length nets.now) × HoldsAt (λ other. other ≡ net) nets.now place) }
    ensures missing { IfErr result (λ _. find (eq_by_cmp prefix_cmp net) nets.now ≡ None) }
{
    nets.binary_search(&net)
}

/// The place of a prefix, or the place where it would be. A place and the one right after it are
/// tried first.
fn place_near(nets: &[Prefix], net: Prefix, place: usize) -> Result<usize, usize>
    requires { IsStrictlySortedBy prefix_cmp nets.now }
    ensures at { IfOk result
        (λ place. (place < length nets.now) × HoldsAt (λ other. other ≡ net) nets.now place) }
    ensures missing { IfErr result (λ _. find (eq_by_cmp prefix_cmp net) nets.now ≡ None) }
{
    let next = place.saturating_add(1);
    if is_at(nets, net, place) {
        return Ok(place);
    }
    if is_at(nets, net, next) {
        return Ok(next);
    }
    if is_gap(nets, net, place) {
        return Err(place);
    }
    if is_gap(nets, net, next) {
        return Err(next);
    }
    search(nets, net)
}

impl<A: Allocator + Copy> Nets<A> {
    /// Prefixes in rising order. It takes no memory.
    pub(crate) fn from_sorted(nets: Vec<Prefix, A>) -> Nets<A>
        requires { IsStrictlySortedBy prefix_cmp nets.items }
        ensures { result ≡ nets.items }
    {
        Nets {
            nets,
            last: Cell::new(0),
        }
    }

    /// The place of a prefix, if it is there.
    pub(crate) fn place_of(&self, net: Prefix) -> Option<usize>
        ensures at { MatchOption result (find (eq_by_cmp prefix_cmp net) self.now ≡ None) (λ place.
            (place < length self.now) × HoldsAt (λ other. other ≡ net) self.now place) }
        ensures sorted { IsStrictlySortedBy prefix_cmp self.now }
    {
        match place_near(self.nets.as_slice(), net, self.last.get()) {
            Ok(place) => {
                self.last.set(place);
                Some(place)
            }
            Err(place) => {
                self.last.set(place);
                None
            }
        }
    }
}
