//! The kinds of failures.
#![tactic(auto, unfolding(crate::specs::Written::written))]

use crate::word::Word;

/// What fails in `sweep`, each by itself.
#[derive(Clone, Copy, Debug, PartialEq, Eq)]
pub enum FailureKind {
    /// Each link between two routers.
    Links,
    /// Each transit network.
    Networks,
    /// Each router.
    Routers,
    /// All of these, one after another.
    All,
}

impl Word for FailureKind {
    ghost use Rattle.study_words.specs.FailureKinds.{failure_kind_text, failure_kinds};

    ghost all = { failure_kinds };

    ghost spelled = { failure_kind_text };

    fn all() -> &'static [FailureKind] {
        &[
            FailureKind::Links,
            FailureKind::Networks,
            FailureKind::Routers,
            FailureKind::All,
        ]
    }

    fn text(self) -> &'static str {
        match self {
            FailureKind::Links => "links",
            FailureKind::Networks => "networks",
            FailureKind::Routers => "routers",
            FailureKind::All => "all",
        }
    }
}
