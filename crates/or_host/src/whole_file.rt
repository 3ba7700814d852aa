//! Writing a file whole or not at all, whatever ends the program meanwhile.
//!
//! The bytes are written beside the file, under its name with `.unfinished` behind it, and handed to the disk. Only
//! then does that file take the name of the old one, in one step of the file system. So under the final name stands the
//! old file or the whole new one; what a program that was ended leaves behind says by its name what it is, and the next
//! write of that name removes it.

ghost use Rattle.std.specs.Prelude.{◌≤◌, IfOk, length};

use std::fs::{self, File, OpenOptions, Permissions};
use std::io::{self, ErrorKind, Write};
use std::os::unix::fs::MetadataExt;
use std::path::{Path, PathBuf};
use std::rt::Runtime;

/// What stands behind the name of a file whose bytes aren't all there.
const UNFINISHED: &str = ".unfinished";

/// How many links are followed from one name, as by the system.
const MOST_LINKS: u32 = 40;

/// How often the file beside is made anew when other programs write the same name in the same moment.
const MOST_TRIES: u32 = 1000;

/// The name to which symbolic links lead from this one, whether or not there is a file.
fn followed<R: Runtime + AllocGlobal>(rt: &R, name: &str) -> io::Result<PathBuf> {
    let mut path = PathBuf::from_str(rt.alloc(), name)?;
    for _ in 0..MOST_LINKS {
        match fs::symlink_metadata(rt, path.as_path()) {
            Ok(found) if found.is_symlink() => path = link_target(rt, path.as_path())?,
            _ => return Ok(path),
        }
    }
    Err(io::Error::from(ErrorKind::FilesystemLoop))
}

/// Where a link leads: a relative target counts from the folder of the link.
fn link_target<R: Runtime + AllocGlobal>(rt: &R, link: Path<'_>) -> io::Result<PathBuf> {
    let target = fs::read_link(rt, link)?;
    let folder = link.parent().unwrap_or(Path::new(""));
    Ok(folder.join(rt.alloc(), target.as_path())?)
}

/// Whether the open file is the one that stands under this name.
fn stands_at<R: Runtime>(rt: &R, file: &File, path: &str) -> io::Result<bool> {
    let own = file.metadata()?;
    match fs::symlink_metadata(rt, path) {
        Ok(found) => Ok(found.ino() == own.ino() && found.dev() == own.dev()),
        Err(error) if error.kind() == ErrorKind::NotFound => Ok(false),
        Err(error) => Err(error),
    }
}

/// Removes the file beside that a program which was ended left. While another program writes it, this waits until that
/// program has given it its name, and removes nothing.
fn remove_left<R: Runtime<File = File>>(rt: &R, path: &str) -> io::Result<()> {
    let file = match OpenOptions::new().write(true).open(rt, path) {
        Ok(file) => file,
        Err(error) if error.kind() == ErrorKind::NotFound => return Ok(()),
        Err(error) => return Err(error),
    };
    let _ = file.lock();
    if stands_at(rt, &file, path)? {
        return fs::remove_file(rt, path);
    }
    Ok(())
}

/// The file beside, made anew, so that it has the permissions of any new file. No other program that writes the same
/// name has it until it is closed. Where the file system has no locks, two such programs are not kept apart.
fn claimed<R: Runtime<File = File>>(rt: &R, path: &str) -> io::Result<File> {
    for _ in 0..MOST_TRIES {
        match OpenOptions::new()
            .write(true)
            .create_new(true)
            .open(rt, path)
        {
            Ok(file) => {
                let _ = file.lock();
                // Another program may have taken it for one that was left, before it was locked.
                if stands_at(rt, &file, path)? {
                    return Ok(file);
                }
            }
            Err(error) if error.kind() == ErrorKind::AlreadyExists => remove_left(rt, path)?,
            Err(error) => return Err(error),
        }
    }
    Err(io::Error::from(ErrorKind::ResourceBusy))
}

/// Puts the bytes into the file beside, until the disk has them: what closing a file could tell later, as a full disk
/// behind a network, the sync tells before.
fn fill(file: &mut File, permissions: Option<Permissions>, bytes: &[u8]) -> io::Result<()> {
    if let Some(permissions) = permissions {
        file.set_permissions(permissions)?;
    }
    file.write_all(bytes)?;
    file.sync_all()
}

/// Writes the bytes beside the file, and then gives them its name.
fn replace<R: Runtime<File = File> + AllocGlobal>(
    rt: &R,
    path: &str,
    permissions: Option<Permissions>,
    bytes: &[u8],
) -> io::Result<()> {
    let beside = format!(in rt.alloc(); "{path}{UNFINISHED}")?;
    let mut file = claimed(rt, beside.as_str())?;
    let done = match fill(&mut file, permissions, bytes) {
        Ok(()) => fs::rename(rt, beside.as_str(), path),
        Err(error) => Err(error),
    };
    if done.is_err() {
        let _ = fs::remove_file(rt, beside.as_str());
    }
    done
}

/// Writes as many bytes as the device takes at once. A write that a signal interrupted is begun again.
fn write_some(device: &mut File, bytes: &[u8]) -> io::Result<usize>
    ensures { IfOk result (λ n. n ≤ length bytes.now) }
{
    for _ in 0..u64::MAX {
        match device.write(bytes) {
            Err(error) if error.kind() == ErrorKind::Interrupted => {}
            other => return other,
        }
    }
    Err(io::Error::from(ErrorKind::Interrupted))
}

/// Writes to what is no file of a disk, as a device or a pipe, and can't be replaced. Once it took bytes, a lack of
/// memory is a failed write like any other, since something changed.
fn pour(mut device: File, bytes: &[u8]) -> io::Result<()> {
    let taken = write_some(&mut device, bytes)?;
    match device.write_all(&bytes[taken..]) {
        Err(error) if error.kind() == ErrorKind::OutOfMemory => {
            Err(io::Error::from(ErrorKind::Other))
        }
        other => other,
    }
}

/// Puts the bytes in the place of what the file holds, or makes the file. Links are followed, and a file that is
/// replaced leaves its permissions to the new one; one that may not be written is not replaced.
pub fn write_whole<R: Runtime<File = File> + AllocGlobal>(
    rt: &R,
    name: &str,
    bytes: &[u8],
) -> io::Result<()> {
    let path = followed(rt, name)?;
    let path = path.as_path().as_str();
    match OpenOptions::new().write(true).open(rt, path) {
        Ok(file) => {
            let found = file.metadata()?;
            if found.is_file() {
                replace(rt, path, Some(found.permissions()), bytes)
            } else {
                pour(file, bytes)
            }
        }
        Err(error) if error.kind() == ErrorKind::NotFound => replace(rt, path, None, bytes),
        Err(error) => Err(error),
    }
}
