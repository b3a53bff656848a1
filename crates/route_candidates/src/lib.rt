//! All that could give a router a route to a prefix, and by which rule of RFC 2328 each candidate
//! is used or taken out (16.1 to 16.4.1).
//!
//! [`candidates`] lists them: those of the router's areas, and AS-external-LSAs, whatever their
//! age. The first rule that takes one out is its rule. Of those that no rule takes out, the best
//! are used. [`targets`] answers to which vertices of areas the used ones lead.
#![tactic(auto)]

// What is answered.
mod candidate;

// What is calculated of a router.
mod inside_view;
mod router_view;

// Candidates outside the AS.
mod externals;

// All, compared, and to where those lead that are used.
mod all_candidates;
mod decided;
mod target;

pub use all_candidates::candidates;
pub use candidate::Candidate;
pub use router_view::RouterView;
pub use target::{Target, targets};
