//! The prefixes of the entries of all routers.

ghost use Rattle.std.specs.Prelude.{◌≡◌, ◌++◌, List, IfOk, OnOk, true};
ghost use Rattle.std.specs.Bool.{OnTrue};
ghost use Rattle.lsa_codec.specs.Prefix.{Net};
ghost use Rattle.loop_report.specs.Atoms.{nets_of, nets_of_all};
ghost use Rattle.lost_routes.specs.Gathering.{Gathers};

use forwarding::{Forwarding, RouterRoutes};
use lsa_codec::Prefix;
use std::alloc::{AllocError, Allocator};
use std::collections::BTreeSet;

/// The prefixes of a set, in order.
///
/// # Errors
///
/// Memory ran out.
pub(crate) fn members<A: Allocator + Copy>(
    alloc: A,
    nets: &BTreeSet<Prefix, A>,
) -> Result<Vec<Prefix, A>, AllocError>
    ensures { IfOk result (λ found. found.items ≡ nets.now.keys) }
{
    nets.iter().copied().collect(alloc)
}

/// The prefixes of a router's entries.
fn nets_of<A: Allocator + Copy>(
    alloc: A,
    routes: &RouterRoutes<A>,
) -> Result<Vec<Prefix, A>, AllocError>
    ensures { IfOk result (λ nets. nets.items ≡ nets_of routes.now) }
{
    let mut nets = routes.routes().nets(alloc)?;
    let mut own = members(alloc, routes.own())?;
    nets.append(&mut own)?;
    Ok(nets)
}

/// Adds prefixes to a set.
fn insert_all<A: Allocator + Copy>(
    found: &mut BTreeSet<Prefix, A>,
    nets: &[Prefix],
) -> Result<(), AllocError>
    ensures { OnOk result (Gathers nets.now found.old.keys found.new.keys) }
{
    for net in nets {
        found.insert(*net)?;
    }
    Ok(())
}

/// Prefixes that `==` finds equal are the same. It does nothing, and its contract is a law.
fn prefix_equality()
    ensures { (net other : Net) → ⟦<Prefix as PartialEq>⟧.eq net other ≡ true → net ≡ other }
{}

/// Whether two lists of prefixes are one.
fn are_equal(nets: &[Prefix], others: &[Prefix]) -> bool
    ensures { OnTrue result (nets.now ≡ others.now) }
{
    // The law says that prefixes that `==` finds equal are the same.
    prefix_equality();
    nets == others
}

/// Adds prefixes to a set that has others already, unless they are the same.
fn insert_unless_there<A: Allocator + Copy>(
    found: &mut BTreeSet<Prefix, A>,
    there: &[Prefix],
    nets: &[Prefix],
) -> Result<(), AllocError>
    ensures { OnOk result ((more old : List Net) → Gathers more old found.old.keys
        → Gathers (more ++ there.now) old found.old.keys
        → Gathers (more ++ nets.now) old found.new.keys) }
{
    if are_equal(nets, there) {
        return Ok(());
    }
    insert_all(found, nets)
}

/// Adds the prefixes of the entries of all attached routers to a set. Most routers have those of
/// the one before.
///
/// # Errors
///
/// Memory ran out.
pub(crate) fn insert_nets<A: Allocator + Copy>(
    alloc: A,
    found: &mut BTreeSet<Prefix, A>,
    forwarding: &Forwarding<'_, A>,
) -> Result<(), AllocError>
    ensures { OnOk result
        (Gathers (nets_of_all forwarding.now.routers) found.old.keys found.new.keys) }
{
    let mut last = Vec::new(alloc);
    for routes in forwarding.routers() {
        let nets = nets_of(alloc, routes)?;
        insert_unless_there(found, &last, &nets)?;
        last = nets;
    }
    Ok(())
}
