//! The options that the command line gives.

use lsa_instances::FlushedLsas;

/// The files and the lists that the command line names, and what becomes of flushed LSAs.
#[derive(Debug, Drop)]
pub(crate) struct Options<'a> {
    /// Where the dump goes. Without it none is written.
    pub(crate) out: Option<&'a str>,
    /// Whether flushed LSAs are left out of the dump, or kept at MaxAge.
    pub(crate) flushed: FlushedLsas,
    /// The lists of LSA headers that the dump is compared with.
    pub(crate) against: Vec<&'a str>,
    /// The files that are read, at least one.
    pub(crate) files: Vec<&'a str>,
}
