//! The network that calls are made on. The functions have no clauses, so that the prover knows
//! nothing of what they answer, nor of the bytes that are loaded.

use lsdb::Database;
use std::test::*;
use test_support::{FailingAlloc, NETWORK};

/// The bytes of the network.
pub(super) fn network() -> &'static [u8] {
    NETWORK
}

/// The database of the network.
pub(super) fn database_of(failing: &FailingAlloc) -> Result<Database<&FailingAlloc>, Fail> {
    Ok(Database::load(failing, network())?)
}
