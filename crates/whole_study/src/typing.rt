//! Lines that are read from a terminal, one after another.

ghost use Rattle.std.specs.Prelude.{◌≡◌, ◌↔◌, ◌||◌, ◌≤◌, IfErr, IfOk, None, OnErr, OnOk, false, is_err, length, option_to_list, true};
ghost use Rattle.std.specs.Io.KnownBytes.{Appends, Consumes, IsAtEnd, Keeps};
ghost use Rattle.host_io.specs.Watched.{has_failed, inner_of, is_flushed};
ghost use Rattle.host_io.specs.WholeText.{AppendsPrefix};
ghost use Rattle.whole_study.specs.Typed.{has_terminal_failed, prompt_text};
ghost use Rattle.whole_study.specs.steps.Typing.{IsBegun, IsTyped, MayEndAsking, MayEndLine, typed_bytes};

use crate::fault::RunFault;
use crate::output::flush;
use host_io::{Watched, write_and_flush};
use std::alloc::{Allocator, Global};
use std::io::{self, Read, Write};

/// What asks for a line.
const PROMPT: &[u8] = b"ospf-study> ";

/// A terminal: lines are typed there, and a prompt asks for each.
#[derive(Drop)]
pub struct Terminal<I, P> {
    /// Where lines are typed.
    pub input: Watched<I>,
    /// Where the prompts go. Replies go to [`Output::replies`](crate::Output), which may write to
    /// the same stream: they are flushed before each prompt.
    pub prompts: Watched<P>,
}

/// A line as it was typed.
#[derive(Drop)]
pub(crate) struct TypedLine<A: Allocator = Global> {
    /// Its bytes, without the line feed that ends it.
    pub(crate) text: Vec<u8, A>,
    /// Whether the input ends with it, and not a line feed.
    pub(crate) is_last: bool,
}

/// The next byte; none at the end of the input.
fn read_byte<I: Read>(input: &mut Watched<I>) -> io::Result<Option<u8>>
    ensures taken { IfOk result (λ byte. Consumes (I.remaining (inner_of input.old))
        (I.remaining (inner_of input.new)) (option_to_list byte)) }
    ensures end { IfOk result
        (λ byte. byte ≡ None → IsAtEnd (I.remaining (inner_of input.new))) }
    ensures kept { OnErr result (Keeps (I.remaining (inner_of input.old))
        (I.remaining (inner_of input.new))) }
    ensures failed { has_failed input.new ≡ (has_failed input.old || is_err result) }
{
    let mut one = [0u8];
    match input.read(&mut one) {
        Ok(0) => Ok(None),
        Ok(_) => Ok(Some(one[0])),
        Err(error) => Err(error),
    }
}

/// Reads a line, up to its line feed or to the end of the input.
///
/// # Errors
///
/// `Read` where a read failed, `TooLarge` where more bytes than `limit` stand before the end of the
/// line, and `OutOfMemory` where a growth was refused.
fn read_line<A: Allocator + Copy, I: Read>(
    alloc: A,
    input: &mut Watched<I>,
    limit: usize,
) -> Result<TypedLine<A>, RunFault<A>>
    requires { has_failed input.old ≡ false }
    ensures line { IfOk result (IsTyped (I.remaining (inner_of input.old))
        (I.remaining (inner_of input.new))) }
    ensures within { IfOk result (λ line. length (typed_bytes line) ≤ limit) }
    ensures begun { IfErr result (IsBegun limit (I.remaining (inner_of input.old))
        (I.remaining (inner_of input.new))) }
    ensures failed { (result ≡ Err RunFault.Read) ↔ (has_failed input.new ≡ true) }
    ensures fault { IfErr result MayEndLine }
{
    let mut text = Vec::new(alloc);
    'bytes: while text.len() < limit {
        let byte = match read_byte(input) {
            Ok(Some(byte)) => byte,
            Ok(None) => {
                return Ok(TypedLine {
                    text,
                    is_last: true,
                });
            }
            Err(_) => return Err(RunFault::Read),
        };
        if byte == b'\n' {
            return Ok(TypedLine {
                text,
                is_last: false,
            });
        }
        text.push(byte)?;
    }
    match read_byte(input) {
        Ok(None) => Ok(TypedLine {
            text,
            is_last: true,
        }),
        Ok(Some(_)) => Err(RunFault::TooLarge),
        Err(_) => Err(RunFault::Read),
    }
}

/// Flushes the replies, shows the prompt, and reads the line that is typed.
///
/// # Errors
///
/// `Write` where the replies or the prompt cannot be written, and those of reading the line.
pub(crate) fn ask<A: Allocator + Copy, I: Read, P: Write, W: Write>(
    alloc: A,
    limit: usize,
    terminal: &mut Terminal<I, P>,
    replies: &mut Watched<W>,
) -> Result<TypedLine<A>, RunFault<A>>
    requires terminal_open { has_terminal_failed terminal.old ≡ false }
    requires replies_open { has_failed replies.old ≡ false }

    // What is read and written.
    ensures line { IfOk result (IsTyped (I.remaining (inner_of terminal.old.input))
        (I.remaining (inner_of terminal.new.input))) }
    ensures within { IfOk result (λ line. length (typed_bytes line) ≤ limit) }
    ensures begun { IfErr result (IsBegun limit (I.remaining (inner_of terminal.old.input))
        (I.remaining (inner_of terminal.new.input))) }
    ensures prompt { OnOk result (Appends (P.contents (inner_of terminal.old.prompts))
        (P.contents (inner_of terminal.new.prompts)) prompt_text) }
    ensures prompt_part { AppendsPrefix (P.contents (inner_of terminal.old.prompts))
        (P.contents (inner_of terminal.new.prompts)) prompt_text }
    ensures prompt_read { result ≡ Err RunFault.Read
        → Appends (P.contents (inner_of terminal.old.prompts))
        (P.contents (inner_of terminal.new.prompts)) prompt_text }
    ensures replies { Keeps (W.contents (inner_of replies.old))
        (W.contents (inner_of replies.new)) }

    // What has failed, and what was flushed.
    ensures read { (result ≡ Err RunFault.Read) ↔ (has_failed terminal.new.input ≡ true) }
    ensures write { (result ≡ Err RunFault.Write)
        ↔ ((has_failed terminal.new.prompts || has_failed replies.new) ≡ true) }
    ensures open { OnOk result (has_terminal_failed terminal.new ≡ false) }
    ensures asked { has_terminal_failed terminal.new ≡ true → is_flushed replies.new ≡ true }
    ensures shown { has_failed terminal.new.input ≡ true
        → is_flushed terminal.new.prompts ≡ true }
    ensures fault { IfErr result MayEndAsking }
{
    flush(replies)?;
    write_and_flush(&mut terminal.prompts, PROMPT)?;
    read_line(alloc, &mut terminal.input, limit)
}
