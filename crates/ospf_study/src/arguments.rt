//! The options that the command line gives.

/// The files that the command line names, and how studies are carried out.
#[derive(Debug, Drop)]
pub(crate) struct Options<'a> {
    /// The dump or the saved session that is opened, which clap requires.
    pub(crate) dump: Option<&'a str>,
    /// The dump or the saved session whose database others are compared with. Without it, they are
    /// compared with the loaded one.
    pub(crate) baseline: Option<&'a str>,
    /// The names of routers and addresses.
    pub(crate) names: Option<&'a str>,
    /// Whether all lines are carried out, whatever becomes of each.
    pub(crate) keep_going: bool,
    /// Whether each edit says what it changed.
    pub(crate) verbose: bool,
    /// The form of the answers, `text` or `json`. Without it, they are texts.
    pub(crate) format: Option<&'a str>,
    /// Where the dump after the studies goes. Without it none is written.
    pub(crate) out: Option<&'a str>,
    /// The studies; `-`, or none at all, is standard input.
    pub(crate) studies: Vec<&'a str>,
}
