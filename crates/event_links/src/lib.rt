//! Events of links as they really happen, and which links of router-LSAs each is about (RFC 2328,
//! 12.4.1): links between routers are cut, interfaces get another cost, a router is drained
//! (RFC 6987).
//!
//! [`resolve`] answers how an event changes which links of a database, or by which [`EventFault`]
//! it is refused. [`chosen_in`] returns these links in an area, and [`has_links_to`] whether a
//! router has links to a neighbor. `specs/Events.antt` says what each event is about.
#![tactic(auto)]

// Events, and their refusals.
mod event;
mod fault;
mod routers;

// The links of routers.
mod chosen;
mod interfaces_at;
mod link_end;
mod links;
mod masks;
mod selection;

// The links of events.
mod clear_ends;
mod cuts;
mod resolving;
mod selecting;

pub use chosen::ChosenLinks;
pub use event::LinkEvent;
pub use fault::EventFault;
pub use link_end::LinkEnd;
pub use links::is_among;
pub use resolving::resolve;
pub use selecting::{chosen_in, has_links_to};
pub use selection::{LinkEdit, Selection};
