//! Instances of LSAs, and which of them is the newest (RFC 2328, 12.1 and 13.1).
//!
//! Files contain LSAs: a walk or a capture shows the same LSA many times, as older and newer
//! instances, and as copies of one instance that differ in their LS age. An [`Observation`] is one
//! of them. [`newest`] answers the newest instance of each LSA among any number of observations,
//! each once; flushed LSAs are left out, or kept at MaxAge. The answer depends on which
//! observations there are, and not on their order.
#![tactic(auto)]

mod area;
mod choice;
mod flush;
mod header;
mod keeping;
mod laws;
mod ls_type;
mod observation;
mod order;
mod place;

pub use area::{AreaKind, AreaReport};
pub use choice::newest;
pub use header::{Header, InstanceId, compare_instance_ids};
pub use keeping::FlushedLsas;
pub use laws::{flushed_lsas, instance_order, keys_rise, newest_in_any_order};
pub use ls_type::{AREA_OPAQUE_LSA, LINK_OPAQUE_LSA, NSSA_LSA};
pub use observation::Observation;
pub use order::compare_instances;
pub use place::{Place, Scope, has_as_scope};
