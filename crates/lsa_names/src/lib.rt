//! What LSAs are called in studies: by area, type, what they describe, and Advertising Router
//! (RFC 2328, 12.1).
#![tactic(auto)]

mod lsa_name;

pub use lsa_name::{LsaName, push_lsa_name};
