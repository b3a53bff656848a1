//! What planners are asked for in turn: the growths of each, and the trees that are calculated.

use super::calls::{Question, edit, undo};
use super::parts::growths_of_parts;
use edit_script::Edit;
use lsa_codec::{AreaId, RouterId};
use recalculate::Planner;
use std::test::Fail;
use test_support::{FailingAlloc, R1};

/// The cost of the link of 1.1.1.1 to 2.2.2.2.
pub(super) fn cost(metric: u16) -> Edit {
    Edit::Cost {
        area: AreaId(0),
        router: RouterId(R1),
        link: 1,
        metric,
    }
}

/// The link of 1.1.1.1 to 2.2.2.2 goes.
const DROPPED: Edit = Edit::DropLink {
    area: AreaId(0),
    router: RouterId(R1),
    link: 1,
};

/// The router 1.1.1.1 goes.
const FAILED: Edit = Edit::FailRouter {
    router: RouterId(R1),
};

/// What a planner is asked for.
#[derive(Clone, Copy)]
pub(super) enum Act {
    /// The table of a router.
    Table(u32),
    /// The table of a router that the planner caches.
    Cached(u32),
    /// The table of a router in the database of the beginning, by trees that are kept.
    Baseline(u32),
    /// The same by other trees.
    Base(u32),
    /// A copy of the database of the beginning.
    Copy,
    /// The calls that make a table of a router with a new tree, beside the planner.
    Parts(u32),
    /// The link of 1.1.1.1 gets a cost.
    Cost(u16),
    /// The link of 1.1.1.1 goes.
    Drop,
    /// The router 1.1.1.1 goes.
    Fail,
    /// An edit is taken back.
    Undo,
}

/// Asks for a table, or for a copy of the database of the beginning.
fn ask_for(planner: &mut Planner<&FailingAlloc>, act: Act) -> Result<(), Fail> {
    match act {
        Act::Table(router) => {
            let _table = planner.table(RouterId(router))?;
        }
        Act::Cached(router) => {
            let _table = planner.cached_table(RouterId(router))?;
        }
        Act::Baseline(router) => {
            let _table = planner.baseline_table(RouterId(router))?;
        }
        Act::Base(router) => {
            let _table = planner.base_table(RouterId(router))?;
        }
        _ => {
            let _copy = planner.base()?;
        }
    }
    Ok(())
}

/// Carries an act out.
fn carry_out(planner: &mut Planner<&FailingAlloc>, act: Act) -> Result<(), Fail> {
    match act {
        Act::Cost(metric) => edit(planner, &cost(metric))?,
        Act::Drop => edit(planner, &DROPPED)?,
        Act::Fail => edit(planner, &FAILED)?,
        Act::Undo => undo(planner, 1)?,
        act => ask_for(planner, act)?,
    }
    Ok(())
}

/// The growths of an act.
pub(super) fn growths_of(
    planner: &mut Planner<&FailingAlloc>,
    failing: &FailingAlloc,
    act: Act,
) -> Result<u64, Fail> {
    if let Act::Parts(router) = act {
        return growths_of_parts(failing, planner.database(), RouterId(router));
    }
    let before = failing.remaining();
    carry_out(planner, act)?;
    Ok(before.saturating_sub(failing.remaining()))
}

/// How many growths an act asks for.
#[derive(Clone, Copy)]
pub(super) enum Asks {
    /// Any number.
    Any,
    /// None.
    Nothing,
    /// At least one.
    Something,
    /// At least one, and 16 at most.
    Little,
    /// Fewer than a later act that asks for `More`.
    Fewer,
    /// More than each earlier act that asks for `Fewer`.
    More,
}

/// Whether an act may ask for this number of growths, where each that asks for `Fewer` asked for
/// `most` at most.
fn may_be(asks: Asks, growths: u64, most: u64) -> bool {
    match asks {
        Asks::Any | Asks::Fewer => true,
        Asks::Nothing => growths == 0,
        Asks::Something => 0 < growths,
        Asks::Little => 0 < growths && growths <= 16,
        Asks::More => most < growths,
    }
}

/// An act, the growths that it asks for, and how many trees are calculated after it, where a number
/// is given.
pub(super) type Step = (Act, Asks, Option<u64>);

/// The place of the first step that goes otherwise.
#[derive(Drop)]
pub(super) struct InTurn {
    pub(super) steps: &'static [Step],
}

impl Question for InTurn {
    type Found = Option<usize>;

    fn find(
        &self,
        planner: &mut Planner<&FailingAlloc>,
        failing: &FailingAlloc,
    ) -> Result<Option<usize>, Fail> {
        let mut most = 0;
        for (place, (act, asks, runs)) in self.steps.iter().enumerate() {
            let growths = growths_of(planner, failing, *act)?;
            let counted = runs.unwrap_or(planner.runs());
            if !may_be(*asks, growths, most) || planner.runs() != counted {
                return Ok(Some(place));
            }
            if let Asks::Fewer = *asks {
                most = most.max(growths);
            }
        }
        Ok(None)
    }
}
