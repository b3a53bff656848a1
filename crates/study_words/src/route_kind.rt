//! The kinds of routes.
#![tactic(auto, unfolding(crate::specs::Written::written))]

use crate::word::Word;

/// A kind of route, as `routes` and `expect route` name it (RFC 2328, 11).
#[derive(Clone, Copy, Debug, PartialEq, Eq)]
pub enum RouteKind {
    /// Within an area.
    Intra,
    /// Between areas.
    Inter,
    /// External, with a metric of type 1.
    External1,
    /// External, with a metric of type 2.
    External2,
    /// An external prefix of the router itself.
    Own,
}

impl Word for RouteKind {
    ghost use Rattle.study_words.specs.RouteKinds.{route_kind_text, route_kinds};

    ghost all = { route_kinds };

    ghost spelled = { route_kind_text };

    fn all() -> &'static [RouteKind] {
        &[
            RouteKind::Intra,
            RouteKind::Inter,
            RouteKind::External1,
            RouteKind::External2,
            RouteKind::Own,
        ]
    }

    fn text(self) -> &'static str {
        match self {
            RouteKind::Intra => "intra",
            RouteKind::Inter => "inter",
            RouteKind::External1 => "ext1",
            RouteKind::External2 => "ext2",
            RouteKind::Own => "own",
        }
    }
}
