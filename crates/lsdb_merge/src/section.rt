//! The sections of a database, as its dump has them.

ghost use Rattle.std.specs.Prelude.{◌≡◌, ◌≤◌, ◌<◌, ◌++◌, ◌+◌, ◌⊎◌, [], All, IfOk, IfErr, OnOk, false, true, length, map};
ghost use Rattle.std.specs.List.{concat, flat_map, list_any};
ghost use Rattle.lsa_codec.specs.Accepted.{IsAccepted};
ghost use Rattle.lsa_instances.specs.Newest.{is_of_scope, lsas_of_scope};
ghost use Rattle.lsdb.specs.Lists.{limit_of};
ghost use Rattle.lsdb.specs.Limits.{most_areas};
ghost use Rattle.lsdb.specs.Text.{text, head_text, section_text};
ghost use Rattle.lsdb_merge.specs.Joining.{head, section};
ghost use Rattle.lsdb_merge.specs.Limits.{is_misplaced, is_overfull};
ghost use Rattle.lsdb_merge.specs.declared.fault.JoinFault.TheVariants.{OutOfMemory, TooManyLsas};

use crate::area::is_stub;
use crate::fault::JoinFault;
use crate::scopes::compare_scopes;
use lsa_instances::{AreaReport, Observation, Scope, has_as_scope};
use lsdb::{MOST_LSAS_OF_AREA, MOST_LSAS_OF_AS};
use std::alloc::{AllocError, Allocator};

/// The first bytes of a dump: `OSWP`, and the version.
const START: &[u8] = b"OSWP\x01";

/// Whether the LSA is reported in a scope that is not that of its type.
fn is_misplaced<A: Allocator + Copy>(observation: &Observation<A>) -> bool
    ensures { result ≡ is_misplaced observation.now }
{
    let has_as_scope = has_as_scope(observation.lsa.key().kind);
    match observation.scope {
        Scope::Area(_) => has_as_scope,
        Scope::AsWide => !has_as_scope,
    }
}

/// Whether one of the LSAs is reported in a scope that is not that of its type.
pub(crate) fn any_misplaced<A: Allocator + Copy>(newest: &[Observation<A>]) -> bool
    ensures any { result ≡ list_any is_misplaced newest.now }
    ensures accepted { result ≡ false → All (λ x. IsAccepted x.lsa) newest.now }
{
    for observation in newest {
        let _bytes = observation.lsa.bytes();
        if is_misplaced(observation) {
            return true;
        }
    }
    false
}

/// The number of LSAs that the section of this scope may have.
fn limit_of(scope: Scope) -> usize
    ensures { result ≡ limit_of (head [] scope) }
{
    match scope {
        Scope::Area(_) => usize::from(MOST_LSAS_OF_AREA),
        Scope::AsWide => usize::from(MOST_LSAS_OF_AS),
    }
}

fn is_of_scope<A: Allocator + Copy>(scope: Scope, observation: &Observation<A>) -> bool
    ensures { result ≡ is_of_scope scope observation.now }
{
    compare_scopes(observation.scope, scope).is_eq()
}

/// The number of LSAs of the scope, and their bytes.
fn lsas_of_scope<A: Allocator + Copy>(
    alloc: A,
    newest: &[Observation<A>],
    scope: Scope,
) -> Result<(usize, Vec<u8, A>), AllocError>
    ensures count { IfOk result (λ found. found.0 ≡ length (lsas_of_scope scope newest.now)) }
    ensures lsa_bytes { IfOk result
        (λ found. found.1.items ≡ concat (lsas_of_scope scope newest.now)) }
{
    let mut count = 0;
    let mut lsa_bytes = Vec::new(alloc);
    for observation in newest {
        if is_of_scope(scope, observation) {
            lsa_bytes.extend_from_slice(observation.lsa.bytes())?;
            count += 1;
        }
    }
    Ok((count, lsa_bytes))
}

/// Writes the ID of an area and its kind, and nothing for the LSAs of AS scope.
fn put_head<A: Allocator + Copy>(
    out: &mut Vec<u8, A>,
    areas: &[AreaReport],
    scope: Scope,
) -> Result<(), AllocError>
    ensures { OnOk result (out.new.items ≡ out.old.items ++ head_text (head areas.now scope)) }
{
    let Scope::Area(id) = scope else {
        return Ok(());
    };
    out.extend_from_slice(&id.0.to_be_bytes())?;
    out.push(if is_stub(areas, id) { 1 } else { 0 })?;
    Ok(())
}

fn put_section<A: Allocator + Copy>(
    alloc: A,
    out: &mut Vec<u8, A>,
    areas: &[AreaReport],
    newest: &[Observation<A>],
    scope: Scope,
) -> Result<(), JoinFault>
    ensures written { OnOk result
        (out.new.items ≡ out.old.items ++ section_text (section areas.now newest.now scope)) }
    ensures few { OnOk result (is_overfull (section areas.now newest.now scope) ≡ false) }
    ensures fault { IfErr result (λ fault. (fault ≡ OutOfMemory)
        ⊎ ((fault ≡ TooManyLsas) × (is_overfull (section areas.now newest.now scope) ≡ true))) }
{
    let (count, lsas) = lsas_of_scope(alloc, newest, scope)?;
    if limit_of(scope) < count {
        return Err(JoinFault::TooManyLsas);
    }
    put_head(out, areas, scope)?;
    out.extend_from_slice(&(count as u16).to_be_bytes())?;
    out.extend_from_slice(&lsas)?;
    Ok(())
}

fn put_sections<A: Allocator + Copy>(
    alloc: A,
    out: &mut Vec<u8, A>,
    areas: &[AreaReport],
    newest: &[Observation<A>],
    scopes: &[Scope],
) -> Result<(), JoinFault>
    ensures written { OnOk result (out.new.items ≡ out.old.items
        ++ flat_map section_text (map (section areas.now newest.now) scopes.now)) }
    ensures few { OnOk result
        (list_any is_overfull (map (section areas.now newest.now) scopes.now) ≡ false) }
    ensures fault { IfErr result (λ fault. (fault ≡ OutOfMemory) ⊎ ((fault ≡ TooManyLsas)
        × (list_any is_overfull (map (section areas.now newest.now) scopes.now) ≡ true))) }
{
    for scope in scopes {
        put_section(alloc, out, areas, newest, *scope)?;
    }
    Ok(())
}

/// The dump of the database with these sections.
#[tactic(auto, unfolding(lsdb::specs::Text::text))]
pub(crate) fn text_of<A: Allocator + Copy>(
    alloc: A,
    areas: &[AreaReport],
    newest: &[Observation<A>],
    scopes: &[Scope],
) -> Result<Vec<u8, A>, JoinFault>
    requires few { length scopes.now ≤ most_areas + 1 }
    requires some { 0 < length scopes.now }
    ensures text { IfOk result
        (λ out. out.items ≡ text (map (section areas.now newest.now) scopes.now)) }
    ensures few { IfOk result (λ _. list_any is_overfull
        (map (section areas.now newest.now) scopes.now) ≡ false) }
    ensures fault { IfErr result (λ fault. (fault ≡ OutOfMemory) ⊎ ((fault ≡ TooManyLsas)
        × (list_any is_overfull (map (section areas.now newest.now) scopes.now) ≡ true))) }
{
    let mut out = Vec::new(alloc);
    out.extend_from_slice(START)?;
    out.push((scopes.len() - 1) as u8)?;
    put_sections(alloc, &mut out, areas, newest, scopes)?;
    Ok(out)
}
