//! The command words of `ospf-plan`.
#![tactic(auto, unfolding(crate::specs::Written::written))]

use crate::word::{Word, list_of, text_of};

/// A command word that `ospf-plan` has, too.
#[derive(Clone, Copy, Debug, PartialEq, Eq)]
pub enum PlanWord {
    /// `cost AREA ROUTER LINK METRIC`: sets the cost of a link.
    Cost,
    /// `drop-link AREA ROUTER LINK`: removes one link of a router.
    DropLink,
    /// `fail-link AREA ROUTER NEIGHBOR`: removes the point-to-point links of two routers.
    FailLink,
    /// `fail-net AREA ADDRESS`: removes a transit network, named by its Designated Router's
    /// address.
    FailNet,
    /// `fail-router ROUTER`: removes all LSAs of a router.
    FailRouter,
    /// `add-stub AREA ROUTER PREFIX METRIC`: adds a stub network.
    AddStub,
    /// `summary AREA ROUTER PREFIX METRIC`: sets the metric of a summary.
    Summary,
    /// `add-summary AREA ROUTER PREFIX METRIC`: adds a summary.
    AddSummary,
    /// `add-external ROUTER PREFIX TYPE METRIC FORWARD TAG`: adds an external prefix.
    AddExternal,
    /// `drop-external ROUTER PREFIX`: removes an external prefix.
    DropExternal,
    /// `refresh`: sets the metrics of summaries as their originators announce them.
    Refresh,
    /// `undo COUNT`: takes the last edits back.
    Undo,
    /// `redo COUNT`: carries out undone edits again.
    Redo,
    /// `table ROUTER`: the routing table of a router.
    Table,
    /// `tables`: the routing tables of all routers.
    Tables,
    /// `compare ROUTER`: how a table differs from that of the loaded database.
    Compare,
    /// `info`: counts of the database and of the edits.
    Info,
}

/// The words in their order and how each is written, handed to a macro.
macro_rules! plan_words {
    ($take:ident $($word:tt)?) => {
        $take!($($word)? PlanWord
            Cost "cost"
            DropLink "drop-link"
            FailLink "fail-link"
            FailNet "fail-net"
            FailRouter "fail-router"
            AddStub "add-stub"
            Summary "summary"
            AddSummary "add-summary"
            AddExternal "add-external"
            DropExternal "drop-external"
            Refresh "refresh"
            Undo "undo"
            Redo "redo"
            Table "table"
            Tables "tables"
            Compare "compare"
            Info "info"
        )
    };
}

impl Word for PlanWord {
    ghost use Rattle.study_words.specs.PlanWords.{plan_text, plan_words};

    ghost all = { plan_words };

    ghost spelled = { plan_text };

    fn all() -> &'static [PlanWord] {
        plan_words!(list_of)
    }

    fn text(self) -> &'static str {
        plan_words!(text_of self)
    }
}
