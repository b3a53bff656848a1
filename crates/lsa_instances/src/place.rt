//! Where an LSA is flooded, and which LSA it is there.

ghost use Rattle.std.specs.Prelude.{◌≡◌, Some};
ghost use Rattle.lsa_instances.specs.Order.{has_as_scope, scope_in, scope_of_report};
ghost use Rattle.lsa_instances.specs.Texts.{place_text};

use lsa_codec::{AS_OPAQUE_LSA, AreaId, EXTERNAL_LSA, Key};
use std::fmt;

/// The flooding scope of an LSA: one area, or the whole AS (RFC 2328, 13; RFC 5250, 2). Areas are
/// ordered by their IDs, and the AS stands after them.
#[derive(Clone, Copy, Debug, PartialEq, Eq, PartialOrd, Ord)]
pub enum Scope {
    /// The area with this ID.
    Area(AreaId),
    /// The whole AS: LSAs of the types 5 and 11.
    AsWide,
}

/// Whether LSAs of this LS type have AS scope: AS-external-LSAs, and opaque LSAs of type 11
/// (RFC 2328, 3.6; RFC 5250, 2).
pub fn has_as_scope(kind: u8) -> bool
    ensures { result ≡ has_as_scope kind }
{
    kind == EXTERNAL_LSA || kind == AS_OPAQUE_LSA
}

impl Scope {
    /// The scope of an LSA of this LS type that is flooded in an area: the whole AS, where its type
    /// has AS scope, else the area.
    pub fn in_area(area: AreaId, kind: u8) -> Scope
        ensures { result ≡ scope_in area kind }
    {
        if has_as_scope(kind) {
            Scope::AsWide
        } else {
            Scope::Area(area)
        }
    }

    /// The scope of an LSA of this LS type that a file reports in an area, or outside of all areas:
    /// the whole AS, where its type has AS scope, else the area. `None` where it needs an area and
    /// has none.
    pub fn of(kind: u8, area: Option<AreaId>) -> Option<Scope>
        ensures { result ≡ scope_of_report kind area }
    {
        if has_as_scope(kind) {
            return Some(Scope::AsWide);
        }
        area.map(Scope::Area)
    }
}

/// The place of an LSA in a link state database: two observations of one place are instances of one
/// LSA. Places are ordered by scope, then by key.
///
/// Its `Display` is a few words on one line, as `area 0.0.0.0 type 1 id 1.1.1.1 adv 1.1.1.1`,
/// without an area for an LSA of AS scope.
#[derive(Clone, Copy, Debug, PartialEq, Eq, PartialOrd, Ord)]
pub struct Place {
    /// Where the LSA is flooded.
    pub scope: Scope,
    /// What identifies it there.
    pub key: Key,
}

impl fmt::Display for Place {
    ghost output = { λ place. Some (place_text place) };

    fn fmt<W: fmt::Write>(&self, f: &mut fmt::Formatter<W>) -> fmt::Result {
        let Key { kind, id, adv } = self.key;
        match self.scope {
            Scope::Area(area) => write!(f, "area {area} type {kind} id {id} adv {adv}"),
            Scope::AsWide => write!(f, "type {kind} id {id} adv {adv}"),
        }
    }
}
