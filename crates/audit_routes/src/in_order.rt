//! LSAs in order of their keys.

ghost use Rattle.std.specs.Prelude.{◌≡◌, map, option_map, IfOk};
ghost use Rattle.std.specs.List.{find};
ghost use Rattle.lsa_codec.specs.Key.{key_of};
ghost use Rattle.lsdb.specs.Lists.{has_key, lsas_of};
ghost use Rattle.lsdb.specs.Slots.{lists_of};
ghost use Rattle.audit_routes.specs.InOrder.{keys_in_order};

use link_report::rising;
use lsa_codec::{Key, Lsa};
use lsdb::{Database, Lsas, Section};
use std::alloc::{AllocError, Allocator};

/// The keys of some LSAs.
fn keys_of<A: Allocator + Copy>(alloc: A, lsas: Lsas<'_, A>) -> Result<Vec<Key, A>, AllocError>
    ensures { IfOk result (λ keys. keys.items ≡ map key_of lsas.entry) }
{
    lsas.map(|lsa| lsa.key()).collect(alloc)
}

/// The keys of some LSAs in order: by LS type, Link State ID and Advertising Router.
pub(crate) fn keys_in_order<A: Allocator + Copy>(
    alloc: A,
    lsas: Lsas<'_, A>,
) -> Result<Vec<Key, A>, AllocError>
    ensures { IfOk result (λ keys. keys.items ≡ keys_in_order lsas.entry) }
{
    let keys = keys_of(alloc, lsas)?;
    rising(alloc, &keys)
}

/// The LSA with a key in a section, if there is one.
///
/// It takes no memory, and time logarithmic in the number of LSAs of the section.
pub(crate) fn lsa_with_key<A: Allocator + Copy>(
    database: &Database<A>,
    section: Section,
    key: Key,
) -> Option<&Lsa<A>>
    ensures { option_map (λ lsa. lsa.now) result
        ≡ find (has_key key) (lsas_of section (lists_of database.now)) }
{
    let slot = database.find(section, key)?;
    database.get(slot)
}
