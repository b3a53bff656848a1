//! Where routes come from.

use crate::own_source::OwnSource;
use study_words::RouteKind;

/// Where a route comes from, and what it costs.
#[derive(Clone, Copy, Debug, PartialEq, Eq)]
pub struct RouteSource {
    /// Its kind.
    pub kind: RouteKind,
    /// The metric of an external route with a metric of type 2, and 0 for other routes.
    pub metric: u32,
    /// The cost, without that metric, and 0 for an external prefix of the router itself.
    pub cost: u64,
    /// What the router announces, where it is an external prefix of its own.
    pub own: Option<OwnSource>,
}
