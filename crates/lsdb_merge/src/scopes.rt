//! The scopes of a database.

ghost use Rattle.std.specs.Prelude.{◌≡◌, ◌++◌, All, IfOk, OnOk, IsPermutation, map};
ghost use Rattle.std.specs.List.Sorted.{IsSorted};
ghost use Rattle.lsa_instances.specs.Order.{scope_cmp};
ghost use Rattle.lsa_instances.specs.declared.place.Scope.TheVariants.{Area};
ghost use Rattle.lsdb_merge.specs.Joining.{AreScopes};
ghost use Rattle.lsdb_merge.specs.steps.Scopes.{reported_scopes, AreOnce, IsWide, is_after_last};

use lsa_instances::{AreaReport, Observation, Scope};
use std::alloc::{AllocError, Allocator};
use std::cmp::Ordering;

/// Compares two scopes: areas by their IDs, and after them the whole AS.
pub(crate) fn compare_scopes(a: Scope, b: Scope) -> Ordering
    ensures { result ≡ scope_cmp a b }
{
    a.cmp(&b)
}

fn put_areas<A: Allocator + Copy>(
    reported: &mut Vec<Scope, A>,
    areas: &[AreaReport],
) -> Result<(), AllocError>
    ensures { OnOk result
        (reported.new.items ≡ reported.old.items ++ map (λ area. Area area.id) areas.now) }
{
    for area in areas {
        reported.push(Scope::Area(area.id))?;
    }
    Ok(())
}

fn put_scopes<A: Allocator + Copy>(
    reported: &mut Vec<Scope, A>,
    newest: &[Observation<A>],
) -> Result<(), AllocError>
    ensures { OnOk result (reported.new.items
        ≡ reported.old.items ++ map (λ x. x.scope) newest.now) }
{
    for observation in newest {
        reported.push(observation.scope)?;
    }
    Ok(())
}

/// The scopes of the areas and the observations, in any order, some of them repeated; and the AS.
fn reported_scopes<A: Allocator + Copy>(
    alloc: A,
    areas: &[AreaReport],
    newest: &[Observation<A>],
) -> Result<Vec<Scope, A>, AllocError>
    ensures { IfOk result (λ reported. reported.items ≡ reported_scopes areas.now newest.now) }
{
    let mut reported = Vec::new(alloc);
    put_areas(&mut reported, areas)?;
    put_scopes(&mut reported, newest)?;
    reported.push(Scope::AsWide)?;
    Ok(reported)
}

fn sorted<A: Allocator + Copy>(scopes: Vec<Scope, A>) -> Result<Vec<Scope, A>, AllocError>
    ensures same { IfOk result (λ sorted. IsPermutation scopes.items sorted.items) }
    ensures order { IfOk result (λ sorted. IsSorted scope_cmp sorted.items) }
{
    let mut scopes = scopes;
    scopes.sort_by(|a, b| compare_scopes(*a, *b))?;
    Ok(scopes)
}

/// Sorted scopes, each once.
fn each_once<A: Allocator + Copy>(alloc: A, sorted: &[Scope]) -> Result<Vec<Scope, A>, AllocError>
    requires { IsSorted scope_cmp sorted.now }
    ensures { IfOk result (λ once. AreOnce sorted.now once.items) }
{
    let mut once: Vec<Scope, A> = Vec::new(alloc);
    for scope in sorted {
        if is_after_last(&once, *scope) {
            once.push(*scope)?;
        }
    }
    Ok(once)
}

/// Whether the scope stands after the last of these.
fn is_after_last(scopes: &[Scope], scope: Scope) -> bool
    ensures after { result ≡ is_after_last scopes.now scope }
    ensures wide { IsWide scope }
{
    match scopes.last() {
        Some(last) => compare_scopes(*last, scope).is_lt(),
        None => true,
    }
}

/// The scopes of the database, each once: areas rise, and the AS stands last.
pub(crate) fn scopes<A: Allocator + Copy>(
    alloc: A,
    areas: &[AreaReport],
    newest: &[Observation<A>],
) -> Result<Vec<Scope, A>, AllocError>
    ensures all { IfOk result (λ scopes. AreScopes areas.now newest.now scopes.items) }
    ensures wide { IfOk result (λ scopes. All IsWide scopes.items) }
{
    each_once(alloc, &sorted(reported_scopes(alloc, areas, newest)?)?)
}
