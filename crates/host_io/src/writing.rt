//! A whole text written to a watched writer.

ghost use Rattle.std.specs.Prelude.{◌≡◌, ◌↔◌, ◌&&◌, ◌==◌, length, false, true, OnOk, IsErr};
ghost use Rattle.std.specs.Io.KnownBytes.{Appends};
ghost use Rattle.host_io.specs.Watched.{inner_of, has_failed, is_flushed};
ghost use Rattle.host_io.specs.WholeText.{AppendsPrefix};

use crate::watch::Watched;
use std::io::Write;

/// A write failed, or took no byte.
#[derive(Clone, Copy, Debug, PartialEq, Eq)]
pub struct WriteFault;

/// Writes the whole text. It is not flushed: a writer that was flushed before is so after an empty
/// text alone.
///
/// # Errors
///
/// `WriteFault` exactly where a write failed. The writer has then taken a prefix of the text.
pub fn write_whole<W: Write>(writer: &mut Watched<W>, text: &[u8]) -> Result<(), WriteFault>
    requires { has_failed writer.old ≡ false }
    ensures whole { OnOk result
        (Appends (W.contents (inner_of writer.old)) (W.contents (inner_of writer.new)) text.now) }
    ensures prefix { AppendsPrefix (W.contents (inner_of writer.old))
        (W.contents (inner_of writer.new)) text.now }
    ensures failed { IsErr result ↔ (has_failed writer.new ≡ true) }
    ensures flushed { is_flushed writer.new ≡ (is_flushed writer.old && (length text.now == 0)) }
{
    let mut at = 0;
    'writes: while at < text.len() {
        match writer.write(&text[at..]) {
            Ok(count) if count > 0 => at += count,
            _ => return Err(WriteFault),
        }
    }
    Ok(())
}

/// Writes the whole text, and flushes the writer.
///
/// # Errors
///
/// `WriteFault` exactly where a write or the flush failed. The writer has then taken a prefix of
/// the text.
pub fn write_and_flush<W: Write>(writer: &mut Watched<W>, text: &[u8]) -> Result<(), WriteFault>
    requires { has_failed writer.old ≡ false }
    ensures whole { OnOk result
        (Appends (W.contents (inner_of writer.old)) (W.contents (inner_of writer.new)) text.now) }
    ensures prefix { AppendsPrefix (W.contents (inner_of writer.old))
        (W.contents (inner_of writer.new)) text.now }
    ensures failed { IsErr result ↔ (has_failed writer.new ≡ true) }
    ensures flushed { OnOk result (is_flushed writer.new ≡ true) }
{
    write_whole(writer, text)?;
    writer.flush().map_err(|_| WriteFault)
}
