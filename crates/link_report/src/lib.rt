//! The routers, links and networks of a database, as the words `routers`, `links` and `networks` of
//! studies show them (RFC 2328, 12.4.1 and 12.4.2).
//!
//! Each has its values, [`RouterLine`], [`LinkLine`] and [`NetworkLine`], whose lines
//! [`push_lines`](study_text::push_lines) adds. [`link_line_at`] describes one link of a router-LSA
//! of any age, and [`link_numbers`] finds the links that a word of an edit names.
#![tactic(auto)]

// What the values are made from.
mod ages;
mod areas;
mod lists;

// Routers.
mod router_line;
mod router_text;

// Links, and what names them.
mod link_line;
mod link_side;
mod link_text;
mod named;

// Networks.
mod network_line;
mod network_text;

pub use ages::router_lsa_of_any_age;
pub use areas::area_ids;
pub use link_line::{LinkLine, link_line_at, link_lines};
pub use link_side::InterfaceStub;
pub use link_text::{push_link, push_link_name, push_numbered};
pub use lists::{links_of, rising};
pub use named::link_numbers;
pub use network_line::{NetworkLine, NetworkPlace, network_lines};
pub use router_line::{RouterLine, router_lines};
