//! Ways of routes.

ghost use Rattle.std.specs.Prelude.{◌≡◌, ◌++◌, [], OnOk};
ghost use Rattle.json.specs.Tree.{HasNumbers};
ghost use Rattle.study_json.specs.Fields.{object_of};
ghost use Rattle.study_json.specs.JsonText.{json_text};
ghost use Rattle.study_json.specs.Routes.{target_fields};
ghost use Rattle.route_lines.specs.declared.route_way.WayTarget.TheVariants as target;

use crate::document::Document;
use crate::member::{push_first, push_next};
use lsa_codec::{Addr, RouterId};
use route_lines::{RouteWay, WayTarget};
use std::alloc::{AllocError, Allocator};
use study_text::push_word;

/// Adds a way to a neighbor.
fn push_via<A: Allocator + Copy>(
    text: &mut Vec<u8, A>,
    out: Option<Addr>,
    router: RouterId,
    addresses: &[Addr],
) -> Result<(), AllocError>
    ensures pushed { OnOk result (text.new.items ≡ text.old.items
        ++ json_text (object_of (target_fields addresses.now out (target.Via router)))) }
    ensures numbers { OnOk result
        (HasNumbers (object_of (target_fields addresses.now out (target.Via router)))) }
{
    push_first(text, "kind", &"via")?;
    push_next(text, "out", &out)?;
    push_next(text, "router", &router)?;
    push_next(text, "addresses", &addresses)?;
    push_word(text, "}")
}

/// Adds a way out of the network.
fn push_exit<A: Allocator + Copy>(
    text: &mut Vec<u8, A>,
    out: Option<Addr>,
    address: Option<Addr>,
) -> Result<(), AllocError>
    ensures { OnOk result (text.new.items ≡ text.old.items
        ++ json_text (object_of (target_fields [] out (target.Exit address)))) }
{
    push_first(text, "kind", &"exit")?;
    push_next(text, "out", &out)?;
    push_next(text, "address", &address)?;
    push_word(text, "}")
}

/// Adds where a way leads, out of this interface, to a neighbor with these addresses.
fn push_target<A: Allocator + Copy>(
    text: &mut Vec<u8, A>,
    addresses: &[Addr],
    out: Option<Addr>,
    target: WayTarget,
) -> Result<(), AllocError>
    ensures pushed { OnOk result (text.new.items ≡ text.old.items
        ++ json_text (object_of (target_fields addresses.now out target))) }
    ensures numbers { OnOk result
        (HasNumbers (object_of (target_fields addresses.now out target))) }
{
    match target {
        WayTarget::Via(router) => push_via(text, out, router, addresses),
        WayTarget::Direct => {
            push_first(text, "kind", &"direct")?;
            push_next(text, "out", &out)?;
            push_word(text, "}")
        }
        WayTarget::Exit(address) => push_exit(text, out, address),
    }
}

impl<B: Allocator> Document for RouteWay<B> {
    ghost use Rattle.study_json.specs.Routes.{way_json};

    ghost json_as = { way_json };

    fn push_json<A: Allocator + Copy>(&self, text: &mut Vec<u8, A>) -> Result<(), AllocError> {
        push_target(text, &self.addresses, self.out, self.target)
    }
}
