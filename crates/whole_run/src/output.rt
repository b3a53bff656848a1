//! What a script leaves, written whole and in order, and all writers flushed.

ghost use Rattle.std.specs.Prelude.{◌≡◌, ◌↔◌, ◌||◌, false, true, is_some, OnOk, IsErr};
ghost use Rattle.std.specs.Io.KnownBytes.{Appends, Keeps};
ghost use Rattle.host_io.specs.Watched.{inner_of, has_failed, is_flushed};
ghost use Rattle.host_io.specs.WholeText.{AppendsPrefix};
ghost use Rattle.whole_run.specs.Streams.{contents_of, has_any_failed, is_any_flushed};
ghost use Rattle.whole_run.specs.Calls.{WritesInOrder};

use host_io::{Watched, WriteFault, write_and_flush};
use std::io::Write;

/// Flushes the replies, then writes the dump to `out` and flushes it, and then the session to
/// `save`, where they are given. None is begun before the one before it is flushed.
pub(crate) fn write_ends<W: Write, D: Write, E: Write>(
    dump: &[u8],
    session: &[u8],
    replies: &mut Watched<W>,
    out: &mut Option<Watched<D>>,
    save: &mut Option<Watched<E>>,
) -> Result<(), WriteFault>
    requires replies_open { has_failed replies.old ≡ false }
    requires out_open { has_any_failed out.old ≡ false }
    requires save_open { has_any_failed save.old ≡ false }
    ensures replies { Keeps (W.contents (inner_of replies.old))
        (W.contents (inner_of replies.new)) }
    ensures out { OnOk result
        (Appends (contents_of D.contents out.old) (contents_of D.contents out.new) dump.now) }
    ensures save { OnOk result
        (Appends (contents_of E.contents save.old) (contents_of E.contents save.new) session.now) }
    ensures out_prefix { AppendsPrefix (contents_of D.contents out.old)
        (contents_of D.contents out.new) dump.now }
    ensures save_prefix { AppendsPrefix (contents_of E.contents save.old)
        (contents_of E.contents save.new) session.now }
    ensures out_given { is_some out.new ≡ is_some out.old }
    ensures save_given { is_some save.new ≡ is_some save.old }
    ensures failed { IsErr result ↔ ((has_failed replies.new
        || has_any_failed out.new || has_any_failed save.new) ≡ true) }
    ensures order { WritesInOrder
        (Keeps (W.contents (inner_of replies.old)) (W.contents (inner_of replies.new)))
        (Appends (contents_of D.contents out.old) (contents_of D.contents out.new) dump.now)
        result replies.new out.old out.new save.old save.new }
{
    flush(replies)?;
    write_given(out, dump)?;
    write_given(save, session)
}

/// Writes a text to a writer, where one is given, and flushes it.
fn write_given<W: Write>(writer: &mut Option<Watched<W>>, text: &[u8]) -> Result<(), WriteFault>
    requires { has_any_failed writer.old ≡ false }
    ensures whole { OnOk result
        (Appends (contents_of W.contents writer.old) (contents_of W.contents writer.new) text.now) }
    ensures prefix { AppendsPrefix (contents_of W.contents writer.old)
        (contents_of W.contents writer.new) text.now }
    ensures given { is_some writer.new ≡ is_some writer.old }
    ensures failed { IsErr result ↔ (has_any_failed writer.new ≡ true) }
    ensures flushed { OnOk result (is_any_flushed writer.new ≡ true) }
{
    match writer {
        None => Ok(()),
        Some(writer) => write_and_flush(writer, text),
    }
}

/// Flushes a writer.
fn flush<W: Write>(writer: &mut Watched<W>) -> Result<(), WriteFault>
    requires { has_failed writer.old ≡ false }
    ensures bytes { Keeps (W.contents (inner_of writer.old)) (W.contents (inner_of writer.new)) }
    ensures failed { IsErr result ↔ (has_failed writer.new ≡ true) }
    ensures flushed { OnOk result (is_flushed writer.new ≡ true) }
{
    writer.flush().map_err(|_| WriteFault)
}
