//! Replies to commands, and the texts of answers.

ghost use Rattle.std.specs.Prelude.{◌≡◌, ◌++◌, IfOk, OnOk, codes, decimal, flat_map, length};
ghost use Rattle.std.specs.String.{string_bytes};
ghost use Rattle.table_report.specs.Texts.{table_text};
ghost use Rattle.branches.specs.Replies.{refusal_texts, reported_text, with_count, info_text, said_by, said_text, mark_of, tables_head, reply_text, script_text, is_refusal};

use edit_history::{EditFault, RedoFault, UndoFault};
use edit_script::ScriptFault;
use lsa_codec::{Decimal, RouterId};
use recalculate::{Info, Table, TableFault};
use std::alloc::{AllocError, Allocator, Global};
use std::marker::Model;
use std::rc::Rc;
use table_report::{push_compare, push_no_change, push_table};

/// Why a command is refused. A refused command changes nothing.
#[derive(Clone, Copy, Debug, PartialEq, Eq)]
pub enum Refusal {
    /// An edit, for one of E1 to E12.
    Edit(EditFault),
    /// An `undo`, since fewer edits are done (U1).
    Undo(UndoFault),
    /// A `redo`, since fewer edits are undone (U2).
    Redo(RedoFault),
    /// A `table` or `compare`, since the router is attached to no area (N1).
    Table(TableFault),
}

/// The reply to a command.
#[derive(Drop)]
pub enum Reply<A: Allocator = Global> {
    /// The command was carried out.
    Done,
    /// The command was refused, and nothing has changed.
    Refused(Refusal),
    /// The routing table of a router, which the branch may keep for the next one.
    Table(Rc<Table<A>, A>),
    /// The routing tables of all routers that are attached to an area, in rising order of their
    /// IDs.
    Tables(Vec<Table<A>, A>),
    /// What to compare: the routing tables of a router in the loaded database, and now.
    Compare {
        /// The router.
        router: RouterId,
        /// Its table in the loaded database, which the branch keeps for the next one.
        before: Rc<Table<A>, A>,
        /// Its table now; one without routes, where it is attached to no area now.
        now: Table<A>,
    },
    /// The comparison of a router's table that the edits leave as it was in the loaded database.
    Unchanged {
        /// The router.
        router: RouterId,
        /// Its table, in the loaded database and now.
        table: Rc<Table<A>, A>,
    },
    /// What the session counts.
    Info(Info),
}

/// The text that answers a command, and whether it refuses the command.
#[derive(Drop)]
pub struct Answer<A: Allocator = Global> {
    /// The text of the reply, as [`reply_text`] makes it.
    pub text: Vec<u8, A>,
    /// Whether the command was refused.
    pub refused: bool,
}

impl<A: Allocator> Model for Answer<A> {
    ghost use Rattle.branches.specs.Replies.{Answer as AnswerValue};

    ghost Value = { AnswerValue };

    ghost view = { λ a. record { text = a.text.items; refused = a.refused } };
}

impl Refusal {
    /// The printed code and name, such as `E4` and `ZeroCost`.
    pub fn texts(self) -> (&'static str, &'static str)
        ensures code { result.0.now ≡ (refusal_texts self).0 }
        ensures name { result.1.now ≡ (refusal_texts self).1 }
    {
        match self {
            Refusal::Edit(fault) => (fault.code(), fault.name()),
            Refusal::Undo(fault) => (fault.code(), fault.name()),
            Refusal::Redo(fault) => (fault.code(), fault.name()),
            Refusal::Table(fault) => (fault.code(), fault.name()),
        }
    }
}

impl<A: Allocator> Reply<A> {
    /// Whether the command was refused.
    pub fn is_refusal(&self) -> bool
        ensures { result ≡ is_refusal (said_by self.now) }
    {
        matches!(self, Reply::Refused(_))
    }
}

/// The text of a reply in a branch: `@0 ok`, `@0 refused E4 ZeroCost`, the text of a table or of a
/// comparison after `@0 `, `@0 tables 2` and the texts of the tables, or `@0 info areas 1 ..`; each
/// line ends with a line feed.
///
/// # Errors
///
/// Memory ran out.
pub fn reply_text<A: Allocator + Copy>(
    alloc: A,
    branch: u8,
    reply: &Reply<A>,
) -> Result<Vec<u8, A>, AllocError>
    ensures { IfOk result (λ text. text.items ≡ reply_text branch (said_by reply.now)) }
{
    let mut text = mark(alloc, branch)?;
    push_said(alloc, &mut text, reply)?;
    Ok(text.into_bytes())
}

/// Room for this number of bytes of a reply is made at once; most replies are no longer.
const SHORT_REPLY: usize = 32;

/// The mark of a branch before a reply: `@0 `.
fn mark<A: Allocator + Copy>(alloc: A, branch: u8) -> Result<String<A>, AllocError>
    ensures { IfOk result (λ text. string_bytes text ≡ mark_of branch) }
{
    let branch = Decimal(u64::from(branch));
    let mut text = String::with_capacity(alloc, SHORT_REPLY)?;
    write!(text, "@{branch} ")?;
    Ok(text)
}

/// Adds the text of a reply after the mark of its branch.
fn push_said<A: Allocator + Copy>(
    alloc: A,
    text: &mut String<A>,
    reply: &Reply<A>,
) -> Result<(), AllocError>
    ensures { OnOk result
        (string_bytes text.new ≡ string_bytes text.old ++ said_text (said_by reply.now)) }
{
    match reply {
        Reply::Done => text.push_str("ok\n"),
        Reply::Refused(why) => push_refusal(text, *why),
        Reply::Table(table) => push_table(text, table),
        Reply::Tables(tables) => push_tables(text, tables),
        Reply::Compare {
            router,
            before,
            now,
        } => push_compare(alloc, text, *router, before, now),
        Reply::Unchanged { router, table: _ } => push_no_change(text, *router),
        Reply::Info(info) => push_info(text, info),
    }
}

/// Adds `refused CODE NAME`.
fn push_refusal<A: Allocator + Copy>(text: &mut String<A>, why: Refusal) -> Result<(), AllocError>
    ensures { OnOk result
        (string_bytes text.new ≡ string_bytes text.old
        ++ reported_text (codes "refused ") (refusal_texts why)) }
{
    let (code, name) = why.texts();
    push_reported(text, "refused ", code, name)
}

/// Adds a word, and after it a code, a name and a line feed. Pieces are added as they are, which
/// takes less time than formatting them.
fn push_reported<A: Allocator + Copy>(
    text: &mut String<A>,
    word: &str,
    code: &str,
    name: &str,
) -> Result<(), AllocError>
    ensures { OnOk result
        (string_bytes text.new ≡ string_bytes text.old
        ++ reported_text word.now (code.now, name.now)) }
{
    text.push_str(word)?;
    text.push_str(code)?;
    text.push_str(" ")?;
    text.push_str(name)?;
    text.push_str("\n")
}

/// The head of the reply to `tables` in a branch: `@0 tables 2`, and a line feed. The texts of that
/// number of tables follow it.
///
/// # Errors
///
/// Memory ran out.
pub fn tables_head<A: Allocator + Copy>(
    alloc: A,
    branch: u8,
    count: usize,
) -> Result<String<A>, AllocError>
    ensures { IfOk result (λ text. string_bytes text ≡ tables_head branch count) }
{
    let mut text = mark(alloc, branch)?;
    push_count(&mut text, "tables ", count)?;
    text.push_str("\n")?;
    Ok(text)
}

/// Adds `tables COUNT`, and the text of each table.
fn push_tables<A: Allocator + Copy>(
    text: &mut String<A>,
    tables: &Vec<Table<A>, A>,
) -> Result<(), AllocError>
    ensures { OnOk result
        (string_bytes text.new ≡ string_bytes text.old
        ++ (codes "tables " ++ decimal (length tables.now.items) ++ codes "\n"
        ++ flat_map table_text tables.now.items)) }
{
    push_count(text, "tables ", tables.len())?;
    text.push_str("\n")?;
    for table in tables {
        push_table(text, table)?;
    }
    Ok(())
}

/// Adds a word, and after it a number.
fn push_count<A: Allocator + Copy>(
    text: &mut String<A>,
    word: &str,
    count: usize,
) -> Result<(), AllocError>
    ensures { OnOk result
        (string_bytes text.new ≡ string_bytes text.old ++ with_count word.now count) }
{
    let count = Decimal(count as u64);
    text.push_str(word)?;
    write!(text, "{count}")
}

/// Adds the counts of a session.
fn push_info<A: Allocator + Copy>(text: &mut String<A>, info: &Info) -> Result<(), AllocError>
    ensures { OnOk result
        (string_bytes text.new ≡ string_bytes text.old ++ info_text info.now) }
{
    push_count(text, "info areas ", info.areas)?;
    push_count(text, " lsas ", info.lsas)?;
    push_count(text, " as ", info.as_lsas)?;
    push_count(text, " vbits ", info.vbits)?;
    push_count(text, " vlinks ", info.vlinks)?;
    push_count(text, " done ", info.done)?;
    push_count(text, " undone ", info.undone)?;
    text.push_str("\n")
}

/// The text for a line that is not a command: `script S2 UnknownWord`, and a line feed.
///
/// # Errors
///
/// Memory ran out.
pub fn script_text<A: Allocator + Copy>(
    alloc: A,
    fault: ScriptFault,
) -> Result<Vec<u8, A>, AllocError>
    ensures { IfOk result (λ text. text.items ≡ script_text fault) }
{
    let mut text = String::with_capacity(alloc, SHORT_REPLY)?;
    push_reported(&mut text, "script ", fault.code(), fault.name())?;
    Ok(text.into_bytes())
}
