//! Routers by their names.

ghost use Rattle.std.specs.Prelude.{◌≡◌, ◌++◌, OnOk};
ghost use Rattle.network_names.specs.Names.{called};
ghost use Rattle.study_text.specs.Shown.{shown};

use crate::number::push_address;
use lsa_codec::{Addr, RouterId};
use network_names::Names;
use std::alloc::{AllocError, Allocator};

/// Adds the name of a router; where it has none, its Router ID in dotted form.
///
/// # Errors
///
/// Memory ran out.
pub fn push_router<A: Allocator + Copy>(
    text: &mut Vec<u8, A>,
    names: &Names<'_, A>,
    router: RouterId,
) -> Result<(), AllocError>
    ensures { OnOk result (text.new.items ≡ text.old.items ++ shown (called names.now) router) }
{
    match names.name_of(router) {
        Some(name) => text.extend_from_slice(name),
        None => push_address(text, Addr(router.0)),
    }
}
