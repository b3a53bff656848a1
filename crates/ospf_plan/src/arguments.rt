//! The options that the command line gives.

/// The files that the command line names.
#[derive(Debug, Drop)]
pub(crate) struct Options<'a> {
    /// The dump or the session that is opened. Without it the program takes a small sample of its
    /// own.
    pub(crate) dump: Option<&'a str>,
    /// The script that is carried out. Without it the program reads standard input.
    pub(crate) script: Option<&'a str>,
    /// Where the dump of the database after the script goes. Without it none is written.
    pub(crate) out: Option<&'a str>,
    /// Where the session after the script goes. Without it none is saved.
    pub(crate) save: Option<&'a str>,
}
