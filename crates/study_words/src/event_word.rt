//! The command words of events.
#![tactic(auto, unfolding(crate::specs::Written::written))]

use crate::word::{Word, list_of, text_of};

/// A command word of an event, or of taking events back.
#[derive(Clone, Copy, Debug, PartialEq, Eq)]
pub enum EventWord {
    /// `cut ROUTER NEIGHBOR [ADDRESS]`: the point-to-point links of two routers go, or one of them,
    /// with the stubs of their interfaces; `cut ROUTER PREFIX`: a router leaves a transit network.
    Cut,
    /// `set-cost ROUTER FAR METRIC [both]`: sets the cost of interfaces to a neighbor, or of the
    /// one with an address.
    SetCost,
    /// `drain ROUTER`: links of a router to routers and networks cost 65535.
    Drain,
    /// `fail ROUTER`: a router fails.
    Fail,
    /// `back COUNT`: takes the last edits and events back.
    Back,
}

/// The words in their order and how each is written, handed to a macro.
macro_rules! event_words {
    ($take:ident $($word:tt)?) => {
        $take!($($word)? EventWord
            Cut "cut"
            SetCost "set-cost"
            Drain "drain"
            Fail "fail"
            Back "back"
        )
    };
}

impl Word for EventWord {
    ghost use Rattle.study_words.specs.EventWords.{event_text, event_words};

    ghost all = { event_words };

    ghost spelled = { event_text };

    fn all() -> &'static [EventWord] {
        event_words!(list_of)
    }

    fn text(self) -> &'static str {
        event_words!(text_of self)
    }
}
