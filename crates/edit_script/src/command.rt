//! What a line of a script asks for.

use crate::edit::Edit;
use lsa_codec::RouterId;

/// A command of a script, in the branch that its line names.
#[derive(Clone, Copy, Debug, PartialEq, Eq)]
pub enum Command {
    /// An edit of the link state database. Its command word is that of the edit.
    Edit(Edit),
    /// `undo COUNT`: the last COUNT edits are taken back. COUNT is 0 to 4294967295.
    Undo(u32),
    /// `redo COUNT`: the last COUNT edits that were taken back are carried out again. COUNT is 0 to
    /// 4294967295.
    Redo(u32),
    /// `table ROUTER`: the routing table of a router is shown.
    Table(RouterId),
    /// `tables`: the routing tables of all routers are shown.
    Tables,
    /// `compare ROUTER`: the routing table of a router is compared with its table in the database
    /// that was loaded.
    Compare(RouterId),
    /// `info`: counts of the database and of the history of edits are shown.
    Info,
}
