//! The LSAs of a database that pass a test.

ghost use Rattle.std.specs.Prelude.{◌≡◌, [], ◌∷◌, ◌++◌, IfOk, OnOk};
ghost use Rattle.std.specs.List.{flat_map};
ghost use Rattle.lsdb.specs.Slots.{lists_of};
ghost use Rattle.audit_lsas.specs.Found.{lsa_places, names_in, names_of, scopes};

use crate::lsa_test::LsaTest;
use crate::scope::{AreaScope, area_in, scopes, section_in};
use audit_places::{Form, Place};
use link_report::rising;
use lsa_codec::Lsa;
use lsa_names::LsaName;
use lsdb::{Database, Lsas};
use std::alloc::{AllocError, Allocator};

/// Adds the name of an LSA, if it passes a test.
fn push_passing<T: LsaTest, A: Allocator + Copy>(
    names: &mut Vec<LsaName, A>,
    test: &T,
    scope: Option<AreaScope>,
    lsa: &Lsa<A>,
) -> Result<(), AllocError>
    ensures { OnOk result (names.new.items
        ≡ names.old.items ++ names_of (T.passes_as test.now) scope (lsa.now ∷ [])) }
{
    if test.passes(scope, lsa) {
        names.push(LsaName::of(area_in(scope), lsa))?;
    }
    Ok(())
}

/// The names of those of some LSAs that pass a test, in the order of the LSAs.
fn names_of<T: LsaTest, A: Allocator + Copy>(
    alloc: A,
    test: &T,
    scope: Option<AreaScope>,
    lsas: Lsas<'_, A>,
) -> Result<Vec<LsaName, A>, AllocError>
    ensures { IfOk result
        (λ names. names.items ≡ names_of (T.passes_as test.now) scope lsas.entry) }
{
    let mut names = Vec::new(alloc);
    for lsa in lsas {
        push_passing(&mut names, test, scope, lsa)?;
    }
    Ok(names)
}

/// The names of the LSAs of an area, or of AS scope, that pass a test, in order of LS type, Link
/// State ID and Advertising Router.
fn names_in<T: LsaTest, A: Allocator + Copy>(
    alloc: A,
    test: &T,
    database: &Database<A>,
    scope: Option<AreaScope>,
) -> Result<Vec<LsaName, A>, AllocError>
    ensures { IfOk result (λ names. names.items
        ≡ names_in (T.passes_as test.now) (lists_of database.now) scope) }
{
    let names = names_of(alloc, test, scope, database.lsas(section_in(scope)))?;
    rising(alloc, &names)
}

/// The names of all LSAs that pass a test, by area, those of AS scope last.
fn names_of_all<T: LsaTest, A: Allocator + Copy>(
    alloc: A,
    test: &T,
    database: &Database<A>,
) -> Result<Vec<LsaName, A>, AllocError>
    ensures { IfOk result (λ names. names.items
        ≡ flat_map (names_in (T.passes_as test.now) (lists_of database.now))
        (scopes (lists_of database.now))) }
{
    let all = scopes(alloc, database)?;
    let mut names = Vec::new(alloc);
    for scope in &all {
        let mut more = names_in(alloc, test, database, *scope)?;
        names.append(&mut more)?;
    }
    Ok(names)
}

/// The places of all LSAs that pass a test: by area, those of AS scope last; by LS type, Link State
/// ID and Advertising Router.
///
/// # Errors
///
/// Memory ran out.
pub fn lsa_places<T: LsaTest, A: Allocator + Copy>(
    alloc: A,
    test: &T,
    database: &Database<A>,
) -> Result<Vec<Place<A>, A>, AllocError>
    ensures { IfOk result (λ places. places.items
        ≡ lsa_places (T.passes_as test.now) (lists_of database.now)) }
{
    let names = names_of_all(alloc, test, database)?;
    names
        .iter()
        .map(|name| Place::of(Form::Lsa(*name)))
        .collect(alloc)
}
