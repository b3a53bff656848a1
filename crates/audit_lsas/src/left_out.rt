//! LSAs that are left out: of types from which nothing is calculated, and those at MaxAge.

ghost use Rattle.std.specs.Prelude.{◌≡◌, IfOk};
ghost use Rattle.lsdb.specs.Slots.{lists_of};
ghost use Rattle.audit_lsas.specs.Kinds.{is_nssa, is_opaque, max_age_places, nssa_places, opaque_places};

use crate::found::lsa_places;
use crate::lsa_test::LsaTest;
use crate::scope::AreaScope;
use audit_places::Place;
use lsa_codec::Lsa;
use lsdb::Database;
use std::alloc::{AllocError, Allocator};

/// The LS type of the external prefixes of an NSSA (RFC 3101).
const NSSA_LSA: u8 = 7;

/// The LS type of multicast groups (RFC 1584).
const GROUP_MEMBERSHIP_LSA: u8 = 6;

/// The LS type of external attributes, the first of those from which nothing is calculated.
const EXTERNAL_ATTRIBUTES_LSA: u8 = 8;

/// The LS type of opaque LSAs of AS scope, the last of these (RFC 5250).
const LAST_OPAQUE_LSA: u8 = 11;

/// Why LSAs are left out.
#[derive(Clone, Copy)]
enum LeftOut {
    /// They are of type 7.
    Nssa,
    /// They are of another type from which nothing is calculated.
    Opaque,
    /// They are at MaxAge.
    Flushed,
}

/// Whether an LSA is a live one of type 7.
fn is_nssa<A: Allocator + Copy>(lsa: &Lsa<A>) -> bool
    ensures { result ≡ is_nssa lsa.now }
{
    !lsa.at_max_age() && lsa.key().kind == NSSA_LSA
}

/// Whether an LSA is a live one of types 6 and 8 to 11.
fn is_opaque<A: Allocator + Copy>(lsa: &Lsa<A>) -> bool
    ensures { result ≡ is_opaque lsa.now }
{
    let kind = lsa.key().kind;
    let is_left_out = EXTERNAL_ATTRIBUTES_LSA <= kind && kind <= LAST_OPAQUE_LSA;
    !lsa.at_max_age() && (kind == GROUP_MEMBERSHIP_LSA || is_left_out)
}

impl LsaTest for LeftOut {
    ghost use Rattle.audit_lsas.specs.Kinds.{is_left_out};

    ghost passes_as = { λ test scope. is_left_out test };

    fn passes<A: Allocator + Copy>(&self, _scope: Option<AreaScope>, lsa: &Lsa<A>) -> bool {
        match self {
            LeftOut::Nssa => is_nssa(lsa),
            LeftOut::Opaque => is_opaque(lsa),
            LeftOut::Flushed => lsa.at_max_age(),
        }
    }
}

/// The live LSAs of type 7, with the external prefixes of an NSSA (RFC 3101).
///
/// # Errors
///
/// Memory ran out.
pub fn nssa_places<A: Allocator + Copy>(
    alloc: A,
    database: &Database<A>,
) -> Result<Vec<Place<A>, A>, AllocError>
    ensures { IfOk result (λ places. places.items ≡ nssa_places (lists_of database.now)) }
{
    lsa_places(alloc, &LeftOut::Nssa, database)
}

/// The live LSAs of types 6 and 8 to 11, from which nothing is calculated (RFC 5250).
///
/// # Errors
///
/// Memory ran out.
pub fn opaque_places<A: Allocator + Copy>(
    alloc: A,
    database: &Database<A>,
) -> Result<Vec<Place<A>, A>, AllocError>
    ensures { IfOk result (λ places. places.items ≡ opaque_places (lists_of database.now)) }
{
    lsa_places(alloc, &LeftOut::Opaque, database)
}

/// The LSAs at MaxAge, which are being flushed (RFC 2328, 14).
///
/// # Errors
///
/// Memory ran out.
pub fn max_age_places<A: Allocator + Copy>(
    alloc: A,
    database: &Database<A>,
) -> Result<Vec<Place<A>, A>, AllocError>
    ensures { IfOk result (λ places. places.items ≡ max_age_places (lists_of database.now)) }
{
    lsa_places(alloc, &LeftOut::Flushed, database)
}
