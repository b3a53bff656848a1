//! Texts written whole to a file, and flushed.

ghost use Rattle.std.specs.Prelude.{◌≡◌, ◌↔◌, false, true, IfErr, IfOk, OnOk, IsErr};
ghost use Rattle.std.specs.Io.KnownBytes.{Appends};
ghost use Rattle.host_io.specs.Watched.{inner_of, has_failed, is_flushed};
ghost use Rattle.host_io.specs.WholeText.{AppendsPrefix};
ghost use Rattle.host_io.specs.Taking.{IsTaken};
ghost use Rattle.host_io.specs.declared.fault.ReplaceFault.TheVariants.{Write as WriteFails};

use crate::fault::ReplaceFault;
use crate::watch::Watched;
use crate::writing::{WriteFault, write_and_flush};
use std::fs::{OpenFile, Permissions};
use std::io::Write;

impl From<WriteFault> for ReplaceFault {
    ghost from_gives = { λ _ fault. fault ≡ WriteFails };

    fn from(_error: WriteFault) -> ReplaceFault {
        ReplaceFault::Write
    }
}

/// Writes a text whole, and flushes the file.
///
/// # Errors
///
/// `Write` where a write or the flush failed. The file has then taken a prefix of the text.
pub(crate) fn fill<W: Write>(file: &mut Watched<W>, text: &[u8]) -> Result<(), ReplaceFault>
    requires { has_failed file.old ≡ false }
    ensures whole { OnOk result
        (Appends (W.contents (inner_of file.old)) (W.contents (inner_of file.new)) text.now) }
    ensures prefix { AppendsPrefix (W.contents (inner_of file.old))
        (W.contents (inner_of file.new)) text.now }
    ensures failed { IsErr result ↔ (has_failed file.new ≡ true) }
    ensures flushed { OnOk result (is_flushed file.new ≡ true) }
    ensures fault { IfErr result (λ fault. fault ≡ ReplaceFault.Write) }
{
    write_and_flush(file, text)?;
    Ok(())
}

/// Writes a text to a file that was just made, and brings it to the disk, so that it outlasts a
/// crash of the machine. The answer is the file, which has taken the whole text.
///
/// # Errors
///
/// `Write` where the file cannot be given its mode, or be written, flushed or synced.
pub(crate) fn fill_new<F: Write + OpenFile + Drop>(
    file: F,
    permissions: Option<Permissions>,
    text: &[u8],
) -> Result<F, ReplaceFault>
    ensures whole { IfOk result
        (λ filled. Appends (F.contents file) (F.contents filled) text.now) }
    ensures fault { IfErr result (λ fault. fault ≡ ReplaceFault.Write) }
{
    if let Some(permissions) = permissions {
        file.set_permissions(permissions)
            .map_err(|_| ReplaceFault::Write)?;
    }
    let mut file = Watched::new(file);
    fill(&mut file, text)?;
    let filled = file.into_inner();
    filled.sync_all().map_err(|_| ReplaceFault::Write)?;
    Ok(filled)
}

/// Writes a text to a file as it stands.
///
/// # Errors
///
/// `Write` where it cannot be written or flushed.
pub(crate) fn fill_straight<F: Write + Drop>(file: F, text: &[u8]) -> Result<(), ReplaceFault>
    ensures taken { OnOk result (IsTaken F.contents text.now) }
    ensures fault { IfErr result (λ fault. fault ≡ ReplaceFault.Write) }
{
    let mut file = Watched::new(file);
    fill(&mut file, text)
}
