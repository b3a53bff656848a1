//! A file replaced by a new one with another text.

ghost use Rattle.std.specs.Prelude.{◌≡◌, IfErr, OnOk};
ghost use Rattle.host_io.specs.Taking.{IsTaken};

use crate::fault::ReplaceFault;
use crate::filling::{fill_new, fill_straight};
use std::alloc::Alloc;
use std::fs::{self, File, Files, OpenFile, Permissions};
use std::io::{self, ErrorKind};

/// How many names are tried for the new file.
const MOST_NAMES: u32 = 100;

/// Writes a text to a file.
///
/// An ordinary file, or one that is not there yet, is replaced: the text is written whole to a new
/// file in the same folder, which then takes its place. Where the folder takes no new file, and
/// where the path leads to something else, as a terminal, the text is written straight.
///
/// # Errors
///
/// `Open` for a file that cannot be opened for writing, `Write` for one that cannot be written.
/// Then an ordinary file that was there is as it was, unless it was written straight, and no other
/// file has changed. An empty path is `Open`.
pub fn replace_file<R: Files + Alloc>(rt: &R, path: &str, text: &[u8]) -> Result<(), ReplaceFault>
    ensures taken { OnOk result (IsTaken R.File.contents text.now) }
{
    match ordinary_path(rt, path) {
        Some(ordinary) => replace(rt, ordinary.as_str(), text),
        None => write_straight(rt, path, text),
    }
}

/// The path, without links, of the ordinary file that a path leads to or would make.
fn ordinary_path<R: Files + Alloc>(rt: &R, path: &str) -> Option<String<R::A>> {
    // An empty path names no file, and beside it there is no room for one. What stands below these
    // folders is open elsewhere, so it is not replaced.
    if path.is_empty() || path.starts_with("/dev/") || path.starts_with("/proc/") {
        return None;
    }
    match fs::canonicalize(rt, path) {
        Ok(real) => {
            let is_file = fs::metadata(rt, &real).ok()?.is_file();
            let text = real.to_str().filter(|_| is_file)?;
            String::from_str(rt.alloc(), text).ok()
        }
        Err(_) => new_path(rt, path),
    }
}

/// The path, where nothing stands: a link that leads nowhere is there, and stays a link.
fn new_path<R: Files + Alloc>(rt: &R, path: &str) -> Option<String<R::A>> {
    match fs::symlink_metadata(rt, path) {
        Err(error) if error.kind() == ErrorKind::NotFound => String::from_str(
            rt.alloc(),
            path,
        ).ok(),
        _ => None,
    }
}

/// Replaces an ordinary file, or makes it.
fn replace<R: Files + Alloc>(rt: &R, path: &str, text: &[u8]) -> Result<(), ReplaceFault>
    ensures taken { OnOk result (IsTaken R.File.contents text.now) }
{
    let permissions = permissions_of(rt, path)?;
    match new_file(rt, path) {
        Ok((file, beside)) => {
            let replaced = put_in_place(rt, file, beside.as_str(), path, permissions, text);
            if replaced.is_err() {
                // Where it cannot be removed either, it stays, and the fault is reported.
                let _ = fs::remove_file(rt, beside.as_str());
            }
            replaced
        }
        Err(error) if is_full(error.kind()) => Err(ReplaceFault::Write),
        Err(_) => write_straight(rt, path, text),
    }
}

/// Writes the text to a file that was made beside another, and lets it take the other's place once
/// it is whole and on the disk.
fn put_in_place<R: Files>(
    rt: &R,
    file: R::File,
    beside: &str,
    path: &str,
    permissions: Option<Permissions>,
    text: &[u8],
) -> Result<(), ReplaceFault>
    ensures taken { OnOk result (IsTaken R.File.contents text.now) }
    ensures fault { IfErr result (λ fault. fault ≡ ReplaceFault.Write) }
{
    let _filled = fill_new(file, permissions, text)?;
    fs::rename(rt, beside, path).map_err(|_| ReplaceFault::Write)
}

/// The permissions of a file that is there, which must take writes.
fn permissions_of<R: Files>(rt: &R, path: &str) -> Result<Option<Permissions>, ReplaceFault> {
    match File::options().write(true).open(rt, path) {
        Ok(file) => {
            let found = file.metadata().map_err(|_| ReplaceFault::Open)?;
            Ok(Some(found.permissions()))
        }
        Err(error) if error.kind() == ErrorKind::NotFound => Ok(None),
        Err(_) => Err(ReplaceFault::Open),
    }
}

/// Whether there is no room for a new file, whatever the folder takes.
fn is_full(kind: ErrorKind) -> bool {
    matches!(
        kind,
        ErrorKind::StorageFull | ErrorKind::QuotaExceeded | ErrorKind::OutOfMemory
    )
}

/// Makes a new file beside another, and answers it with its path.
fn new_file<R: Files + Alloc>(rt: &R, path: &str) -> io::Result<(R::File, String<R::A>)> {
    for number in 1..=MOST_NAMES {
        let beside = format!(in rt.alloc(); "{path}.{number}.new")?;
        match File::create_new(rt, beside.as_str()) {
            Ok(file) => return Ok((file, beside)),
            Err(error) if error.kind() == ErrorKind::AlreadyExists => {}
            Err(error) => return Err(error),
        }
    }
    Err(io::Error::from(ErrorKind::AlreadyExists))
}

/// Opens a file as it stands, and writes the text.
fn write_straight<R: Files>(rt: &R, path: &str, text: &[u8]) -> Result<(), ReplaceFault>
    ensures taken { OnOk result (IsTaken R.File.contents text.now) }
{
    let file = fs::create(rt, path).map_err(|_| ReplaceFault::Open)?;
    fill_straight(file, text)
}
