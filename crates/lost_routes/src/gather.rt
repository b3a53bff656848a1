//! Prefixes in a set, one after another.

ghost use Rattle.std.specs.Prelude.{[], OnOk};
ghost use Rattle.std.specs.List.{cons_option};
ghost use Rattle.lost_routes.specs.Gathering.{Gathers};

use lsa_codec::Prefix;
use std::alloc::{AllocError, Allocator};
use std::collections::BTreeSet;

/// Adds a prefix to a set, if there is one.
pub(crate) fn add_some<A: Allocator + Copy>(
    nets: &mut BTreeSet<Prefix, A>,
    net: Option<Prefix>,
) -> Result<(), AllocError>
    ensures { OnOk result (Gathers (cons_option net []) nets.old.keys nets.new.keys) }
{
    if let Some(net) = net {
        nets.insert(net)?;
    }
    Ok(())
}
