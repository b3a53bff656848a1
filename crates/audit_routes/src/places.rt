//! Places of routers and prefixes.

ghost use Rattle.std.specs.Prelude.{◌≡◌, ◌++◌, OnOk};
ghost use Rattle.audit_routes.specs.OwnExternals.{route_places};

use audit_places::{Form, Place};
use lsa_codec::{Prefix, RouterId};
use std::alloc::{AllocError, Allocator};

/// Adds a router with each of some prefixes.
pub(crate) fn push_routes<A: Allocator + Copy>(
    places: &mut Vec<Place<A>, A>,
    router: RouterId,
    nets: &[Prefix],
) -> Result<(), AllocError>
    ensures { OnOk result
        (places.new.items ≡ places.old.items ++ route_places router nets.now) }
{
    for net in nets {
        let prefix = *net;
        places.push(Place::of(Form::Route { router, prefix }))?;
    }
    Ok(())
}
