//! The line of a router, as `1.1.1.1 r1 areas 0.0.0.0,0.0.0.1 roles abr,asbr links 2 transit 1
//! stubs 3`: its Router ID, its name, its areas, its roles, and how many links there are of types
//! 1, 2 and 3; a dash stands for what the router does not have.

ghost use Rattle.std.specs.Prelude.{◌≡◌, ◌++◌, OnOk};
ghost use Rattle.network_names.specs.Names.{called};
ghost use Rattle.link_report.specs.RouterTexts.{areas_text, counts_text, name_or_dash, roles_text};

use crate::router_line::RouterLine;
use lsa_codec::{Addr, AreaId, RouterId};
use network_names::Names;
use std::alloc::{AllocError, Allocator};
use study_text::{Line, push_address, push_list, push_number_after, push_word};

/// Adds the name of a router, or a dash where it has none.
fn push_name<A: Allocator + Copy>(
    text: &mut Vec<u8, A>,
    names: &Names<'_, A>,
    router: RouterId,
) -> Result<(), AllocError>
    ensures { OnOk result
        (text.new.items ≡ text.old.items ++ name_or_dash (called names.now) router) }
{
    match names.name_of(router) {
        Some(name) => text.extend_from_slice(name),
        None => push_word(text, "-"),
    }
}

/// Adds a router, its name and its areas.
fn push_areas<A: Allocator + Copy>(
    text: &mut Vec<u8, A>,
    names: &Names<'_, A>,
    router: RouterId,
    areas: &[AreaId],
) -> Result<(), AllocError>
    ensures { OnOk result
        (text.new.items ≡ text.old.items ++ areas_text (called names.now) router areas.now) }
{
    push_address(text, Addr(router.0))?;
    push_word(text, " ")?;
    push_name(text, names, router)?;
    push_word(text, " areas ")?;
    push_list(text, names, areas)
}

/// Adds the roles of a router.
fn push_roles<A: Allocator + Copy>(
    text: &mut Vec<u8, A>,
    is_abr: bool,
    is_asbr: bool,
) -> Result<(), AllocError>
    ensures { OnOk result (text.new.items ≡ text.old.items ++ roles_text is_abr is_asbr) }
{
    match (is_abr, is_asbr) {
        (true, true) => push_word(text, "abr,asbr"),
        (true, false) => push_word(text, "abr"),
        (false, true) => push_word(text, "asbr"),
        (false, false) => push_word(text, "-"),
    }
}

/// Adds how many links a router has.
fn push_counts<A: Allocator + Copy, B: Allocator>(
    text: &mut Vec<u8, A>,
    line: &RouterLine<B>,
) -> Result<(), AllocError>
    ensures { OnOk result (text.new.items ≡ text.old.items ++ counts_text line.now) }
{
    push_number_after(text, " links ", line.links as u64)?;
    push_number_after(text, " transit ", line.transit as u64)?;
    push_number_after(text, " stubs ", line.stubs as u64)
}

impl<A: Allocator + Copy> Line for RouterLine<A> {
    ghost use Rattle.link_report.specs.RouterTexts.{router_line};

    ghost line_as = { router_line };

    fn push_line<B: Allocator + Copy>(
        &self,
        text: &mut Vec<u8, B>,
        names: &Names<'_, B>,
    ) -> Result<(), AllocError> {
        push_areas(text, names, self.router, &self.areas)?;
        push_word(text, " roles ")?;
        push_roles(text, self.is_abr, self.is_asbr)?;
        push_counts(text, self)?;
        push_word(text, "\n")
    }
}
