//! Events: what happens to a network, as a line of a study says it.

ghost use Rattle.std.specs.Prelude.{Some};
ghost use Rattle.edit_script.specs.Spelling.{event_spelling};

use lsa_codec::{Addr, Decimal, Prefix, RouterId};
use std::fmt;

/// What happens to a network. Routers then originate other LSAs (RFC 2328, 12.4). No line of a
/// script means an event: studies have words for them.
///
/// Its `Display` is its line in a study, without an end of line.
#[derive(Clone, Copy, Debug, PartialEq, Eq)]
pub enum Event {
    /// `cut ROUTER NEIGHBOR [ADDRESS]`: the point-to-point links between two routers go, at both
    /// ends.
    Cut {
        /// One router.
        router: RouterId,
        /// The other one.
        neighbor: RouterId,
        /// The address of the interface of either router, where one link goes alone; the index of
        /// the interface where it is unnumbered.
        address: Option<Addr>,
    },
    /// `cut ROUTER PREFIX`: the interface of a router to a transit network goes.
    Leave {
        /// The router.
        router: RouterId,
        /// The prefix of the network.
        prefix: Prefix,
    },
    /// `set-cost ROUTER FAR METRIC [both]`: interfaces of a router get a cost.
    SetCost {
        /// The router.
        router: RouterId,
        /// The Router ID of the neighbor to whom the interfaces lead or, where it has none of this
        /// Router ID, the address of the interface.
        far: Addr,
        /// The cost, 0 to 65535.
        metric: u16,
        /// Whether those of the neighbor to the router get it too.
        both: bool,
    },
    /// `drain ROUTER`: the links of a router to routers and transit networks get the greatest cost
    /// (RFC 6987).
    Drain {
        /// The router.
        router: RouterId,
    },
    /// `fail ROUTER`: a router fails.
    Fail {
        /// The router.
        router: RouterId,
    },
}

impl fmt::Display for Event {
    ghost output = { λ event. Some (event_spelling event) };

    fn fmt<W: fmt::Write>(&self, f: &mut fmt::Formatter<W>) -> fmt::Result {
        match *self {
            Event::Cut {
                router,
                neighbor,
                address: None,
            } => write!(f, "cut {router} {neighbor}"),
            Event::Cut {
                router,
                neighbor,
                address: Some(address),
            } => write!(f, "cut {router} {neighbor} {address}"),
            Event::Leave { router, prefix } => write!(f, "cut {router} {prefix}"),
            Event::SetCost {
                router,
                far,
                metric,
                both,
            } => {
                let metric = Decimal(u64::from(metric));
                if both {
                    write!(f, "set-cost {router} {far} {metric} both")
                } else {
                    write!(f, "set-cost {router} {far} {metric}")
                }
            }
            Event::Drain { router } => write!(f, "drain {router}"),
            Event::Fail { router } => write!(f, "fail {router}"),
        }
    }
}
