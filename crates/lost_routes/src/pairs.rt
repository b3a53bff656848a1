//! What all routers have lost.

ghost use Rattle.std.specs.Prelude.{◌≡◌, ◌++◌, IfOk, OnOk};
ghost use Rattle.std.specs.Option.{option_copied};
ghost use Rattle.lost_routes.specs.LostPairs.{lost_since, pairs_by, pairs_of};

use crate::announced::Announced;
use crate::lost::LostRoutes;
use forwarding::{Forwarding, RouterRoutes};
use lsa_codec::{Prefix, RouterId};
use router_entries::Entries;
use std::alloc::{AllocError, Allocator, Global};
use std::marker::Model;

/// A router, and a prefix that it has lost, or that it announces.
#[derive(Clone, Copy, Debug, PartialEq, Eq)]
pub struct RouterPrefix {
    /// The router.
    pub router: RouterId,
    /// The prefix.
    pub net: Prefix,
}

/// What the routers have lost that are attached in a baseline and now, by router and then by
/// prefix.
#[derive(Drop)]
pub struct LostPairs<A: Allocator = Global> {
    lost: Vec<RouterPrefix, A>,
    gone: Vec<RouterPrefix, A>,
}

impl<A: Allocator> Model for LostPairs<A> {
    ghost use Rattle.lost_routes.specs.LostPairs.{LostPairsValue};

    ghost Value = { LostPairsValue };

    ghost view = { λ p. record { lost = p.lost.items; gone = p.gone.items } };
}

/// Adds pairs of a router and each of these prefixes.
pub(crate) fn push_pairs<A: Allocator + Copy>(
    pairs: &mut Vec<RouterPrefix, A>,
    router: RouterId,
    nets: &[Prefix],
) -> Result<(), AllocError>
    ensures { OnOk result (pairs.new.items ≡ pairs.old.items ++ pairs_of router nets.now) }
{
    for net in nets {
        pairs.push(RouterPrefix { router, net: *net })?;
    }
    Ok(())
}

/// What a router has lost, and nothing where it was attached to no area in the baseline.
fn lost_since<A: Allocator + Copy>(
    alloc: A,
    baseline: &Announced<A>,
    now: &Announced<A>,
    was: Option<&RouterRoutes<A>>,
    is: &RouterRoutes<A>,
) -> Result<LostRoutes<A>, AllocError>
    ensures { IfOk result (λ found. found
        ≡ lost_since baseline.now now.now (option_copied was.entry) is.now) }
{
    match was {
        Some(was) => LostRoutes::of(alloc, baseline, now, &Entries::of(was), &Entries::of(is)),
        None => Ok(LostRoutes::none(alloc)),
    }
}

/// What some routers have lost, by router and then by prefix.
fn pairs_by<A: Allocator + Copy>(
    alloc: A,
    baseline: &Announced<A>,
    now: &Announced<A>,
    were: &Forwarding<'_, A>,
    routers: &[RouterRoutes<A>],
) -> Result<LostPairs<A>, AllocError>
    ensures { IfOk result (λ found. found
        ≡ pairs_by baseline.now now.now were.now.routers routers.now) }
{
    let mut lost = Vec::new(alloc);
    let mut gone = Vec::new(alloc);
    for routes in routers {
        let router = routes.router();
        let found = lost_since(alloc, baseline, now, were.routes_of(router), routes)?;
        push_pairs(&mut lost, router, found.lost())?;
        push_pairs(&mut gone, router, found.gone())?;
    }
    Ok(LostPairs { lost, gone })
}

impl<A: Allocator + Copy> LostPairs<A> {
    /// What all routers have lost that are attached in both databases, by router and then by
    /// prefix: from the announced prefixes, and the routers, in the baseline and now.
    ///
    /// # Errors
    ///
    /// Memory ran out.
    pub fn of(
        alloc: A,
        baseline: &Announced<A>,
        now: &Announced<A>,
        were: &Forwarding<'_, A>,
        are: &Forwarding<'_, A>,
    ) -> Result<LostPairs<A>, AllocError>
        ensures { IfOk result (λ found. found
            ≡ pairs_by baseline.now now.now were.now.routers are.now.routers) }
    {
        pairs_by(alloc, baseline, now, were, are.routers())
    }

    /// The routers with prefixes that somebody still announces.
    pub fn lost(&self) -> &[RouterPrefix]
        ensures { result.now ≡ self.now.lost }
    {
        self.lost.as_slice()
    }

    /// The routers with prefixes that nobody announces any more.
    pub fn gone(&self) -> &[RouterPrefix]
        ensures { result.now ≡ self.now.gone }
    {
        self.gone.as_slice()
    }
}
