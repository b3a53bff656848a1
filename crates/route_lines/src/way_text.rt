//! The text of a way.

ghost use Rattle.std.specs.Prelude.{◌≡◌, ◌++◌, OnOk, codes};
ghost use Rattle.network_names.specs.Names.{called};
ghost use Rattle.study_text.specs.Shown.{shown};
ghost use Rattle.route_lines.specs.RouteTexts.{address_after, addresses_text, target_text, way_text};

use crate::route_way::{RouteWay, WayTarget};
use lsa_codec::{Addr, RouterId};
use network_names::Names;
use std::alloc::{AllocError, Allocator};
use study_text::{Shown, push_after, push_joined, push_router, push_word};

/// Adds `via`, a neighbor, and the addresses of its interface.
fn push_via<A: Allocator + Copy>(
    text: &mut Vec<u8, A>,
    names: &Names<'_, A>,
    router: RouterId,
    addresses: &[Addr],
) -> Result<(), AllocError>
    ensures { OnOk result (text.new.items ≡ text.old.items
        ++ (codes "via " ++ shown (called names.now) router ++ codes " "
        ++ addresses_text addresses.now)) }
{
    push_word(text, "via ")?;
    push_router(text, names, router)?;
    push_word(text, " ")?;
    push_joined(text, names, "/", addresses)
}

/// Adds `exit`, and the address that the way leads to, if it is known.
fn push_exit<A: Allocator + Copy>(
    text: &mut Vec<u8, A>,
    names: &Names<'_, A>,
    address: Option<Addr>,
) -> Result<(), AllocError>
    ensures { OnOk result
        (text.new.items ≡ text.old.items ++ (codes "exit" ++ address_after (codes " ") address)) }
{
    push_word(text, "exit")?;
    push_after(text, names, " ", address.as_ref())
}

/// Adds where a way leads, to a neighbor with these addresses.
fn push_target<A: Allocator + Copy>(
    text: &mut Vec<u8, A>,
    names: &Names<'_, A>,
    addresses: &[Addr],
    target: WayTarget,
) -> Result<(), AllocError>
    ensures { OnOk result (text.new.items
        ≡ text.old.items ++ target_text (called names.now) addresses.now target) }
{
    match target {
        WayTarget::Via(router) => push_via(text, names, router, addresses),
        WayTarget::Direct => push_word(text, "direct"),
        WayTarget::Exit(address) => push_exit(text, names, address),
    }
}

impl<A: Allocator> Shown for RouteWay<A> {
    ghost use Rattle.route_lines.specs.RouteTexts.{way_text};

    ghost shown_as = { way_text };

    fn push_to<B: Allocator + Copy>(
        &self,
        text: &mut Vec<u8, B>,
        names: &Names<'_, B>,
    ) -> Result<(), AllocError> {
        push_target(text, names, &self.addresses, self.target)?;
        push_after(text, names, " out ", self.out.as_ref())
    }
}
