//! Instances of LSAs that their originators have forgotten (RFC 2328, 12.1.6 and 13.4).
//!
//! A router that restarts begins with the first LS sequence number again. So of the observations of
//! an LSA the one with the greatest sequence number need not be of the present instance.
//! [`remembered`] leaves out what is forgotten: an observation, where a copy of an older instance
//! of its LSA began after it was seen. The answer depends on which observations there are, and not
//! on their order; and of each LSA an observation is left.
#![tactic(auto)]

mod laws;
mod order;
mod past;
mod remembering;

pub use laws::{each_lsa_is_left, remembered_in_any_order};
pub use remembering::remembered;
