//! Commands of `ospf-plan` in whose lines names stand.

use edit_script::Command;
use lsa_codec::{AreaId, RouterId};
use study_arguments::LinkName;

/// A command of `ospf-plan` whose line `ospf-plan` does not take, or an event.
#[derive(Clone, Copy, Debug, PartialEq, Eq)]
pub enum NamedCommand {
    /// A command other than the next two, where names stand for addresses, or an event.
    Command(Command),
    /// `cost AREA ROUTER LINK METRIC`: a link of a router-LSA gets another metric.
    Cost {
        /// The area whose link state database has the router-LSA.
        area: AreaId,
        /// The router that originates the router-LSA.
        router: RouterId,
        /// What names the link.
        link: LinkName,
        /// The new metric, 0 to 65535.
        metric: u16,
    },
    /// `drop-link AREA ROUTER LINK`: a link of a router-LSA is removed with its TOS metrics.
    DropLink {
        /// The area whose link state database has the router-LSA.
        area: AreaId,
        /// The router that originates the router-LSA.
        router: RouterId,
        /// What names the link.
        link: LinkName,
    },
}
