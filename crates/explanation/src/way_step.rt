//! Steps on paths of least cost, as `way area 0.0.0.0 r1 -> r2 out 10.0.12.1 cost 10 sum 10`.

ghost use Rattle.std.specs.Prelude.{◌≡◌, ◌++◌, OnOk};
ghost use Rattle.network_names.specs.Names.{called};
ghost use Rattle.explanation.specs.Texts.{end_text, ends_text, out_text, over_text};

use lsa_codec::{Addr, AreaId, RouterId};
use network_names::Names;
use std::alloc::{AllocError, Allocator};
use study_text::{Line, push_address, push_after, push_number_after, push_router, push_word};

/// A step on a path of least cost, from a router to a router or to a network. Steps are ordered by
/// area, by the distance of their start, by the start, routers before networks, by their end, their
/// interface, and the network that they lead over, if they do.
#[derive(Clone, Copy, Debug, PartialEq, Eq, PartialOrd, Ord)]
pub struct WayStep {
    /// The area.
    pub area: AreaId,
    /// The distance of its start.
    pub distance: u64,
    /// The router that it starts from.
    pub router: RouterId,
    /// Whether it ends at a network.
    pub is_network: bool,
    /// The router or network that it ends at: a Router ID, or the address of a Designated Router.
    pub end: Addr,
    /// The Link Data of the router's link.
    pub out: Addr,
    /// The network that lies between two routers, if one does.
    pub over: Option<Addr>,
    /// The metric of the router's link.
    pub cost: u16,
    /// The distance of its end.
    pub sum: u64,
}

/// Adds the router or the network at the end of a step.
fn push_end<A: Allocator + Copy>(
    text: &mut Vec<u8, A>,
    names: &Names<'_, A>,
    step: &WayStep,
) -> Result<(), AllocError>
    ensures { OnOk result
        (text.new.items ≡ text.old.items ++ end_text (called names.now) step.now) }
{
    if !step.is_network {
        return push_router(text, names, RouterId(step.end.0));
    }
    push_word(text, "network ")?;
    push_address(text, step.end)
}

/// Adds the network that a step leads over, if it does.
fn push_over<A: Allocator + Copy>(
    text: &mut Vec<u8, A>,
    names: &Names<'_, A>,
    over: Option<Addr>,
) -> Result<(), AllocError>
    ensures { OnOk result (text.new.items ≡ text.old.items ++ over_text over) }
{
    push_after(text, names, " over ", over.as_ref())
}

/// Adds the router and the end of a step.
fn push_ends<A: Allocator + Copy>(
    text: &mut Vec<u8, A>,
    names: &Names<'_, A>,
    step: &WayStep,
) -> Result<(), AllocError>
    ensures { OnOk result (text.new.items
        ≡ text.old.items ++ ends_text (called names.now) step.now) }
{
    push_word(text, "way area ")?;
    push_address(text, Addr(step.area.0))?;
    push_word(text, " ")?;
    push_router(text, names, step.router)?;
    push_word(text, " -> ")?;
    push_end(text, names, step)
}

/// Adds the interface of a step, and the network that it leads over, if it does.
fn push_out<A: Allocator + Copy>(
    text: &mut Vec<u8, A>,
    names: &Names<'_, A>,
    step: &WayStep,
) -> Result<(), AllocError>
    ensures { OnOk result (text.new.items ≡ text.old.items ++ out_text step.now) }
{
    push_word(text, " out ")?;
    push_address(text, step.out)?;
    push_over(text, names, step.over)
}

impl Line for WayStep {
    ghost use Rattle.explanation.specs.Texts.{way_line};

    ghost line_as = { way_line };

    fn push_line<A: Allocator + Copy>(
        &self,
        text: &mut Vec<u8, A>,
        names: &Names<'_, A>,
    ) -> Result<(), AllocError> {
        push_ends(text, names, self)?;
        push_out(text, names, self)?;
        push_number_after(text, " cost ", u64::from(self.cost))?;
        push_number_after(text, " sum ", self.sum)?;
        push_word(text, "\n")
    }
}
