//! Edits, and the line that each is printed as.

ghost use Rattle.std.specs.Prelude.{Some};
ghost use Rattle.edit_script.specs.Spelling.{spelling, type_text};

use crate::event::Event;
use lsa_codec::{Addr, AreaId, Decimal, Metric, Prefix, RouterId};
use std::fmt;

/// How the metric of an AS-external-LSA counts (RFC 2328, A.4.5).
///
/// Its `Display` is `1` or `2`.
#[derive(Clone, Copy, Debug, PartialEq, Eq)]
pub enum MetricType {
    /// Type 1: in the units of the link state metric, added to the cost of the path to the AS
    /// boundary router.
    Type1,
    /// Type 2: larger than the cost of any path inside the AS.
    Type2,
}

/// An edit of the link state database: one that a line of a script means, or an event.
///
/// Its `Display` is its line: the command word and the arguments, each after a single space,
/// without a branch and without an end of line.
#[derive(Clone, Copy, Debug, PartialEq, Eq)]
pub enum Edit {
    /// `cost AREA ROUTER LINK METRIC`: a link of a router-LSA gets another metric
    /// (RFC 2328, A.4.2).
    Cost {
        /// The area whose link state database has the router-LSA.
        area: AreaId,
        /// The router that originates the router-LSA.
        router: RouterId,
        /// The link's number in the router-LSA, counted from 1. No link has the number 0.
        link: u16,
        /// The new metric: the cost of using the link, 0 to 65535.
        metric: u16,
    },
    /// `drop-link AREA ROUTER LINK`: a link of a router-LSA is removed with its TOS metrics.
    DropLink {
        /// The area whose link state database has the router-LSA.
        area: AreaId,
        /// The router that originates the router-LSA.
        router: RouterId,
        /// The link's number in the router-LSA, counted from 1.
        link: u16,
    },
    /// `fail-link AREA ROUTER NEIGHBOR`: all point-to-point links between two routers are removed
    /// from both router-LSAs. Their stub links stay.
    FailLink {
        /// The area whose link state database has the router-LSAs.
        area: AreaId,
        /// One router.
        router: RouterId,
        /// The other router.
        neighbor: RouterId,
    },
    /// `fail-net AREA ADDRESS`: a transit network is removed, with all links to it.
    FailNet {
        /// The area that has the network.
        area: AreaId,
        /// The interface address of the network's Designated Router, which is the Link State ID
        /// of its network-LSA.
        network: Addr,
    },
    /// `fail-router ROUTER`: all LSAs of a router are removed, in all areas and in the AS list.
    FailRouter {
        /// The router.
        router: RouterId,
    },
    /// `add-stub AREA ROUTER PREFIX METRIC`: a router-LSA gets a link to a stub network, after its
    /// last link.
    AddStub {
        /// The area whose link state database has the router-LSA.
        area: AreaId,
        /// The router that originates the router-LSA.
        router: RouterId,
        /// The stub network.
        prefix: Prefix,
        /// The metric of the link, 0 to 65535.
        metric: u16,
    },
    /// `summary AREA ROUTER PREFIX METRIC`: a router's first summary-LSA for a network gets
    /// another metric (RFC 2328, A.4.4).
    Summary {
        /// The area whose link state database has the summary-LSA.
        area: AreaId,
        /// The router that originates it.
        router: RouterId,
        /// The network of the summary-LSA.
        prefix: Prefix,
        /// The new metric.
        metric: Metric,
    },
    /// `add-summary AREA ROUTER PREFIX METRIC`: a new summary-LSA for a network, at the end of the
    /// area.
    AddSummary {
        /// The area that gets the summary-LSA.
        area: AreaId,
        /// The router that originates it.
        router: RouterId,
        /// The network of the summary-LSA; its address is the Link State ID.
        prefix: Prefix,
        /// The metric.
        metric: Metric,
    },
    /// `add-external ROUTER PREFIX TYPE METRIC FORWARD TAG`: a new AS-external-LSA, at the end of
    /// the AS list (RFC 2328, A.4.5).
    AddExternal {
        /// The router that originates it.
        router: RouterId,
        /// The network of the AS-external-LSA; its address is the Link State ID.
        prefix: Prefix,
        /// How the metric counts: 1 or 2 in the line.
        metric_type: MetricType,
        /// The metric.
        metric: Metric,
        /// The forwarding address; 0.0.0.0 means the router itself.
        forward: Addr,
        /// The external route tag, 0 to 4294967295.
        tag: u32,
    },
    /// `drop-external ROUTER PREFIX`: a router's first AS-external-LSA for a network is removed.
    DropExternal {
        /// The router that originates it.
        router: RouterId,
        /// The network of the AS-external-LSA.
        prefix: Prefix,
    },
    /// `refresh`: all summary-LSAs whose metrics follow from the database get the metrics that
    /// their originators announce (RFC 2328, 12.4.3).
    Refresh,
    /// An event, which no line of a script means.
    Event(Event),
}

impl fmt::Display for MetricType {
    ghost output = { λ metric_type. Some (type_text metric_type) };

    fn fmt<W: fmt::Write>(&self, f: &mut fmt::Formatter<W>) -> fmt::Result {
        match *self {
            MetricType::Type1 => write!(f, "1"),
            MetricType::Type2 => write!(f, "2"),
        }
    }
}

impl fmt::Display for Edit {
    ghost output = { λ edit. Some (spelling edit) };

    fn fmt<W: fmt::Write>(&self, f: &mut fmt::Formatter<W>) -> fmt::Result {
        match *self {
            Edit::Cost {
                area,
                router,
                link,
                metric,
            } => {
                let (link, metric) = (Decimal(u64::from(link)), Decimal(u64::from(metric)));
                write!(f, "cost {area} {router} {link} {metric}")
            }
            Edit::DropLink { area, router, link } => {
                let link = Decimal(u64::from(link));
                write!(f, "drop-link {area} {router} {link}")
            }
            Edit::FailLink {
                area,
                router,
                neighbor,
            } => write!(f, "fail-link {area} {router} {neighbor}"),
            Edit::FailNet { area, network } => write!(f, "fail-net {area} {network}"),
            Edit::FailRouter { router } => write!(f, "fail-router {router}"),
            Edit::AddStub {
                area,
                router,
                prefix,
                metric,
            } => {
                let metric = Decimal(u64::from(metric));
                write!(f, "add-stub {area} {router} {prefix} {metric}")
            }
            Edit::Summary {
                area,
                router,
                prefix,
                metric,
            } => write!(f, "summary {area} {router} {prefix} {metric}"),
            Edit::AddSummary {
                area,
                router,
                prefix,
                metric,
            } => write!(f, "add-summary {area} {router} {prefix} {metric}"),
            Edit::AddExternal {
                router,
                prefix,
                metric_type,
                metric,
                forward,
                tag,
            } => {
                let tag = Decimal(u64::from(tag));
                write!(
                    f,
                    "add-external {router} {prefix} {metric_type} {metric} {forward} {tag}"
                )
            }
            Edit::DropExternal { router, prefix } => write!(f, "drop-external {router} {prefix}"),
            Edit::Refresh => write!(f, "refresh"),
            Edit::Event(event) => write!(f, "{event}"),
        }
    }
}
