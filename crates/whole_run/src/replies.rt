//! Commands carried out, and their replies written.

ghost use Rattle.std.specs.Prelude.{◌≡◌, ◌↔◌, ◌<◌, false, true, OnOk, IfOk, IfErr};
ghost use Rattle.std.specs.Io.KnownBytes.{Appends};
ghost use Rattle.host_io.specs.Watched.{inner_of, has_failed};
ghost use Rattle.host_io.specs.WholeText.{AppendsPrefix};
ghost use Rattle.edit_history.specs.Session.{state};
ghost use Rattle.branches.specs.Branches.{sessions_of, with_session};
ghost use Rattle.branches.specs.Replies.{reply_text, reply_to, after, is_refusal, script_text, router_text, router_texts};

use crate::fault::RunFault;
use branches::{Branches, script_text, tables_head};
use edit_script::{Command, ScriptFault};
use host_io::{Watched, write_whole};
use lsa_codec::RouterId;
use std::alloc::Allocator;
use std::io::Write;

/// Writes the answer to a line that is no command.
pub(crate) fn write_script_fault<A: Allocator + Copy, W: Write>(
    alloc: A,
    fault: ScriptFault,
    replies: &mut Watched<W>,
) -> Result<(), RunFault>
    requires open { has_failed replies.old ≡ false }
    ensures whole { OnOk result
        (Appends (W.contents (inner_of replies.old)) (W.contents (inner_of replies.new))
        (script_text fault)) }
    ensures prefix { AppendsPrefix (W.contents (inner_of replies.old))
        (W.contents (inner_of replies.new)) (script_text fault) }
    ensures failed { (result ≡ Err RunFault.Write) ↔ (has_failed replies.new ≡ true) }
    ensures memory { has_failed replies.new ≡ false
        → IfErr result (λ fault. fault ≡ RunFault.OutOfMemory) }
{
    let text = script_text(alloc, fault)?;
    write_whole(replies, text.as_slice())?;
    Ok(())
}

/// Carries a command out in a branch, and writes its reply. Returns whether it was refused.
pub(crate) fn write_reply<A: Allocator + Copy, W: Write>(
    alloc: A,
    branches: &mut Branches<A>,
    branch: u8,
    command: &Command,
    replies: &mut Watched<W>,
) -> Result<bool, RunFault>
    requires branch { branch < 8 }
    requires open { has_failed replies.old ≡ false }
    ensures whole { OnOk result
        (Appends (W.contents (inner_of replies.old)) (W.contents (inner_of replies.new))
        (reply_text branch (reply_to (sessions_of branches.old branch) command.now))) }
    ensures sessions { OnOk result (sessions_of branches.new
        ≡ with_session branch (after (sessions_of branches.old branch) command.now)
        (sessions_of branches.old)) }
    ensures refused { IfOk result (λ refused. refused
        ≡ is_refusal (reply_to (sessions_of branches.old branch) command.now)) }
    ensures prefix { AppendsPrefix (W.contents (inner_of replies.old))
        (W.contents (inner_of replies.new))
        (reply_text branch (reply_to (sessions_of branches.old branch) command.now)) }
    ensures failed { (result ≡ Err RunFault.Write) ↔ (has_failed replies.new ≡ true) }
    ensures memory { has_failed replies.new ≡ false
        → IfErr result (λ fault. fault ≡ RunFault.OutOfMemory) }
{
    if let Command::Tables = command {
        write_tables(alloc, branches, branch, replies)?;
        return Ok(false);
    }
    let answer = branches.answer(branch, command)?;
    write_whole(replies, answer.text.as_slice())?;
    Ok(answer.refused)
}

/// Writes the reply to `tables` in a branch, one table after another; each is written before the
/// next is made. All sessions stay.
fn write_tables<A: Allocator + Copy, W: Write>(
    alloc: A,
    branches: &mut Branches<A>,
    branch: u8,
    replies: &mut Watched<W>,
) -> Result<(), RunFault>
    requires branch { branch < 8 }
    requires open { has_failed replies.old ≡ false }
    ensures whole { OnOk result
        (Appends (W.contents (inner_of replies.old)) (W.contents (inner_of replies.new))
        (reply_text branch (reply_to (sessions_of branches.old branch) Command.Tables))) }
    ensures kept { sessions_of branches.new ≡ sessions_of branches.old }
    ensures prefix { AppendsPrefix (W.contents (inner_of replies.old))
        (W.contents (inner_of replies.new))
        (reply_text branch (reply_to (sessions_of branches.old branch) Command.Tables)) }
    ensures failed { (result ≡ Err RunFault.Write) ↔ (has_failed replies.new ≡ true) }
    ensures memory { has_failed replies.new ≡ false
        → IfErr result (λ fault. fault ≡ RunFault.OutOfMemory) }
{
    let routers = branches.routers(branch)?;
    let mut text = tables_head(alloc, branch, routers.len())?;
    write_whole(replies, text.as_bytes())?;
    write_tables_of(branches, branch, &routers, &mut text, replies)
}

/// Writes the routing tables of routers in a branch. `text` has room for one of them.
fn write_tables_of<A: Allocator + Copy, W: Write>(
    branches: &mut Branches<A>,
    branch: u8,
    routers: &[RouterId],
    text: &mut String<A>,
    replies: &mut Watched<W>,
) -> Result<(), RunFault>
    requires branch { branch < 8 }
    requires open { has_failed replies.old ≡ false }
    ensures whole { OnOk result
        (Appends (W.contents (inner_of replies.old)) (W.contents (inner_of replies.new))
        (router_texts (state (sessions_of branches.old branch)) routers.now)) }
    ensures kept { sessions_of branches.new ≡ sessions_of branches.old }
    ensures prefix { AppendsPrefix (W.contents (inner_of replies.old))
        (W.contents (inner_of replies.new))
        (router_texts (state (sessions_of branches.old branch)) routers.now) }
    ensures failed { (result ≡ Err RunFault.Write) ↔ (has_failed replies.new ≡ true) }
    ensures memory { has_failed replies.new ≡ false
        → IfErr result (λ fault. fault ≡ RunFault.OutOfMemory) }
{
    for router in routers {
        write_table(branches, branch, *router, text, replies)?;
    }
    Ok(())
}

/// Writes the routing table of a router in a branch, if it is attached to an area there. What is
/// in `text` before goes, and its room serves for the table.
fn write_table<A: Allocator + Copy, W: Write>(
    branches: &mut Branches<A>,
    branch: u8,
    router: RouterId,
    text: &mut String<A>,
    replies: &mut Watched<W>,
) -> Result<(), RunFault>
    requires branch { branch < 8 }
    requires open { has_failed replies.old ≡ false }
    ensures whole { OnOk result
        (Appends (W.contents (inner_of replies.old)) (W.contents (inner_of replies.new))
        (router_text (state (sessions_of branches.old branch)) router)) }
    ensures kept { sessions_of branches.new ≡ sessions_of branches.old }
    ensures prefix { AppendsPrefix (W.contents (inner_of replies.old))
        (W.contents (inner_of replies.new))
        (router_text (state (sessions_of branches.old branch)) router) }
    ensures failed { (result ≡ Err RunFault.Write) ↔ (has_failed replies.new ≡ true) }
    ensures memory { has_failed replies.new ≡ false
        → IfErr result (λ fault. fault ≡ RunFault.OutOfMemory) }
{
    text.clear();
    branches.push_table(branch, router, text)?;
    write_whole(replies, text.as_bytes())?;
    Ok(())
}
