//! Parts of texts: areas, routers in areas, and links of routers.

ghost use Rattle.std.specs.Prelude.{◌≡◌, ◌++◌, OnOk};
ghost use Rattle.network_names.specs.Names.{called};
ghost use Rattle.audit_places.specs.Texts.{area_text, end_text, in_area_text, link_text, router_text};

use area_graph::Vertex;
use lsa_codec::{Addr, AreaId, RouterId};
use network_names::Names;
use std::alloc::{AllocError, Allocator};
use study_text::{push_address, push_number_after, push_router, push_word};

/// Adds a router, as `router r1`.
pub(crate) fn push_one_router<A: Allocator + Copy>(
    text: &mut Vec<u8, A>,
    names: &Names<'_, A>,
    router: RouterId,
) -> Result<(), AllocError>
    ensures { OnOk result
        (text.new.items ≡ text.old.items ++ router_text (called names.now) router) }
{
    push_word(text, "router ")?;
    push_router(text, names, router)
}

/// Adds an area, as `area 0.0.0.1`.
pub(crate) fn push_area<A: Allocator + Copy>(
    text: &mut Vec<u8, A>,
    area: AreaId,
) -> Result<(), AllocError>
    ensures { OnOk result (text.new.items ≡ text.old.items ++ area_text area) }
{
    push_word(text, "area ")?;
    push_address(text, Addr(area.0))
}

/// Adds a router in an area, as `area 0.0.0.1 router r1`.
pub(crate) fn push_in_area<A: Allocator + Copy>(
    text: &mut Vec<u8, A>,
    names: &Names<'_, A>,
    area: AreaId,
    router: RouterId,
) -> Result<(), AllocError>
    ensures { OnOk result
        (text.new.items ≡ text.old.items ++ in_area_text (called names.now) area router) }
{
    push_area(text, area)?;
    push_word(text, " ")?;
    push_one_router(text, names, router)
}

/// Adds a link of a router in an area, up to what it leads to, as `area 0.0.0.1 router r1 #2 to `.
pub(crate) fn push_link<A: Allocator + Copy>(
    text: &mut Vec<u8, A>,
    names: &Names<'_, A>,
    area: AreaId,
    router: RouterId,
    number: usize,
) -> Result<(), AllocError>
    ensures { OnOk result
        (text.new.items ≡ text.old.items ++ link_text (called names.now) area router number) }
{
    push_in_area(text, names, area, router)?;
    push_number_after(text, " #", number as u64)?;
    push_word(text, " to ")
}

/// Adds what a link leads to: a router by its name, a transit network by the address of its
/// Designated Router.
pub(crate) fn push_end<A: Allocator + Copy>(
    text: &mut Vec<u8, A>,
    names: &Names<'_, A>,
    to: Vertex,
) -> Result<(), AllocError>
    ensures { OnOk result (text.new.items ≡ text.old.items ++ end_text (called names.now) to) }
{
    match to {
        Vertex::Router(router) => push_router(text, names, router),
        Vertex::Network(address) => push_address(text, address),
    }
}
