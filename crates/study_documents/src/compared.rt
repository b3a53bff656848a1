//! How two routing tables of a router differ, route by route.

ghost use Rattle.std.specs.Prelude.{◌≡◌, ◌∷◌, [], ◌++◌, IfOk, OnOk, filter};
ghost use Rattle.std.specs.Option.{option_copied};
ghost use Rattle.area_graph.specs.Rising.{rising};
ghost use Rattle.lsa_codec.specs.Order.{prefix_cmp};
ghost use Rattle.best_ways.specs.Routes.{nets};
ghost use Rattle.study_documents.specs.Compared.{any_route_text, changes_among, compare_reply, is_change, route_changes, routes_at, sign_of};
ghost use Rattle.study_json.specs.Fields.{HaveNumbers, more_text};

use area_routes::Routes;
use best_ways::Route;
use link_report::rising;
use lsa_codec::{Prefix, RouterId};
use routing_table::Table;
use std::alloc::{AllocError, Allocator, Global};
use std::marker::Model;
use study_json::{Document, push_first, push_next};
use study_text::push_word;

/// The routes to a prefix in two routing tables. Contracts see it as both routes.
#[derive(Drop)]
pub struct RouteChange<'t, A: Allocator = Global> {
    /// The route in the earlier table, if it has one.
    pub was: Option<&'t Route<A>>,
    /// The route in the present table, if it has one.
    pub now: Option<&'t Route<A>>,
}

impl<'t, A: Allocator> Model for RouteChange<'t, A> {
    ghost use Rattle.std.specs.Option.{option_copied};
    ghost use Rattle.study_documents.specs.Compared.{RouteChangeValue};

    ghost Value = { RouteChangeValue };

    ghost view = { λ c. record { was = option_copied c.was; now = option_copied c.now } };
}

/// A route that may be missing.
#[derive(Clone, Copy)]
struct AnyRoute<'t, A: Allocator>(Option<&'t Route<A>>);

impl<B: Allocator + Copy> Document for AnyRoute<'_, B> {
    ghost use Rattle.std.specs.Option.{option_copied};
    ghost use Rattle.study_documents.specs.Compared.{any_route_json};

    ghost json_as = { λ route. any_route_json (option_copied route.0) };

    fn push_json<A: Allocator + Copy>(&self, text: &mut Vec<u8, A>) -> Result<(), AllocError> {
        match self.0 {
            Some(route) => route.push_json(text),
            None => push_word(text, "null"),
        }
    }
}

/// The sign of a change.
fn sign_of<B: Allocator>(change: &RouteChange<'_, B>) -> &'static str
    ensures { result.now ≡ sign_of change.entry.now.was change.entry.now.now }
{
    match (change.was, change.now) {
        (None, _) => "+",
        (Some(_), None) => "-",
        (Some(_), Some(_)) => "~",
    }
}

impl<B: Allocator + Copy> Document for RouteChange<'_, B> {
    ghost use Rattle.study_documents.specs.Compared.{route_change_json};

    ghost json_as = { route_change_json };

    fn push_json<A: Allocator + Copy>(&self, text: &mut Vec<u8, A>) -> Result<(), AllocError> {
        push_first(text, "sign", &sign_of(self))?;
        push_next(text, "now", &AnyRoute(self.now))?;
        push_next(text, "was", &AnyRoute(self.was))?;
        push_word(text, "}")
    }
}

/// The text of a route, if there is one.
fn route_text<A: Allocator + Copy>(
    alloc: A,
    route: Option<&Route<A>>,
) -> Result<Vec<u8, A>, AllocError>
    ensures { IfOk result (λ text. text.items ≡ any_route_text (option_copied route.entry)) }
{
    let mut text = Vec::new(alloc);
    AnyRoute(route).push_json(&mut text)?;
    Ok(text)
}

/// Adds the routes to a prefix, where what is answered of them differs.
fn push_if_changed<'t, A: Allocator + Copy>(
    alloc: A,
    changes: &mut Vec<RouteChange<'t, A>, A>,
    was: Option<&'t Route<A>>,
    now: Option<&'t Route<A>>,
) -> Result<(), AllocError>
    ensures { OnOk result (changes.new.items ≡ changes.old.items ++ filter is_change
        (record { was = option_copied was.entry; now = option_copied now.entry } ∷ [])) }
{
    let (before, present) = (route_text(alloc, was)?, route_text(alloc, now)?);
    if before.as_slice() != present.as_slice() {
        changes.push(RouteChange { was, now })?;
    }
    Ok(())
}

/// The prefixes of two lists of routes, in order, each once.
fn prefixes_of<A: Allocator + Copy>(
    alloc: A,
    before: &Routes<A>,
    now: &Routes<A>,
) -> Result<Vec<Prefix, A>, AllocError>
    ensures { IfOk result
        (λ prefixes. prefixes.items ≡ rising prefix_cmp (nets before.now ++ nets now.now)) }
{
    let mut prefixes = before.nets(alloc)?;
    let mut more = now.nets(alloc)?;
    prefixes.append(&mut more)?;
    rising(alloc, &prefixes)
}

/// The routes to those of some prefixes at which two lists of routes differ.
fn changes_among<'t, A: Allocator + Copy>(
    alloc: A,
    before: &'t Routes<A>,
    now: &'t Routes<A>,
    prefixes: &[Prefix],
) -> Result<Vec<RouteChange<'t, A>, A>, AllocError>
    ensures { IfOk result (λ changes. changes.items
        ≡ changes_among before.now now.now prefixes.now) }
{
    let mut changes = Vec::new(alloc);
    for prefix in prefixes {
        let (was, is) = (before.route_to(*prefix), now.route_to(*prefix));
        push_if_changed(alloc, &mut changes, was, is)?;
    }
    Ok(changes)
}

/// The routes that differ between two routing tables, in order of prefix.
///
/// # Errors
///
/// Memory ran out.
pub fn route_changes<'t, A: Allocator + Copy>(
    alloc: A,
    before: &'t Table<A>,
    now: &'t Table<A>,
) -> Result<Vec<RouteChange<'t, A>, A>, AllocError>
    ensures { IfOk result (λ changes. changes.items
        ≡ route_changes before.now.routes now.now.routes) }
{
    let prefixes = prefixes_of(alloc, before.routes(), now.routes())?;
    changes_among(alloc, before.routes(), now.routes(), &prefixes)
}

/// Adds the reply to `compare`, by the routes that differ.
///
/// # Errors
///
/// Memory ran out. A part of the text may have been added.
pub fn push_compare<A: Allocator + Copy, B: Allocator + Copy>(
    text: &mut Vec<u8, A>,
    router: RouterId,
    changes: &[RouteChange<'_, B>],
) -> Result<(), AllocError>
    ensures pushed { OnOk result (text.new.items
        ≡ text.old.items ++ more_text (compare_reply router changes.now)) }
    ensures numbers { OnOk result (HaveNumbers (compare_reply router changes.now)) }
{
    push_next(text, "router", &router)?;
    push_next(text, "changes", &changes)?;
    push_word(text, "}")
}
