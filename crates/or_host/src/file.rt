ghost use Rattle.std.specs.Prelude.{◌≡◌, Some, None, OnOk, OnErr, length, MatchOption};
ghost use Rattle.or_host.specs.FileList.{files_of, NoneBefore, IsFirstPlace};
ghost use Rattle.or_host.specs.Files.{Holds};

use or_geom::{Items, Memory, Name};
use std::alloc::Global;

/// A file in memory.
#[derive(Debug, Drop)]
pub struct MemFile {
    pub name: Name,
    pub bytes: Items<u8>,
}

/// Where the first file of this name stands.
fn place_of(files: &[MemFile], name: &str) -> Option<usize>
    ensures { MatchOption result (NoneBefore (length files.now) files.now name.now) (IsFirstPlace files.now name.now) }
{
    for i in 0..files.len() {
        if files[i].name.is(name.as_bytes()) {
            return Some(i);
        }
    }
    None
}

/// What the first file of this name holds.
pub fn bytes_under<'a>(files: &'a [MemFile], name: &str) -> Option<&'a [u8]>
    ensures { MatchOption result (files_of files.now name.now ≡ None) (λ bytes. files_of files.now name.now
        ≡ Some bytes.now) }
{
    match place_of(files, name) {
        Some(i) => Some(files[i].bytes.as_slice()),
        None => None,
    }
}

/// Puts bytes under a name, in the place of what the first file of the name holds.
pub fn put_bytes(
    alloc: Global,
    files: &mut Vec<MemFile>,
    name: &str,
    bytes: &[u8],
) -> Result<(), Memory>
    ensures ok { OnOk result (Holds (files_of files.old.items) (files_of files.new.items) name.now bytes.now) }
    ensures err { OnErr result (files_of files.new.items ≡ files_of files.old.items) }
{
    let bytes = Items::from_vec(Vec::from_slice(alloc, bytes)?);
    match place_of(files, name) {
        Some(i) => files[i].bytes = bytes,
        None => {
            let name = Name::from_bytes(alloc, name.as_bytes())?;
            files.push(MemFile { name, bytes })?;
        }
    }
    Ok(())
}
