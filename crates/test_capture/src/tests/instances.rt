//! Real instances of LSAs, their order, and the newest of them.

pub(super) mod bytes;
mod newest;
mod order;
mod scopes;
