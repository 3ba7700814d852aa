ghost use Rattle.std.specs.Prelude.{◌≡◌, ◌≤◌, ℕ, None, IfOk, length};
ghost use Rattle.or_host.specs.Files.{IsNoLonger};

use crate::store::{ReadFail, Store, WriteFail};
use crate::whole_file::write_whole;
use std::alloc::Global;
use std::fs::{self, File};
use std::io::{self, ErrorKind, Read};
use std::rt::Runtime;

/// Files of the file system, of which nothing is told. This is the trusted edge: that a read gives what the file holds,
/// and that a write keeps the bytes, is the system's promise. A write replaces a file whole or not at all, whatever
/// ends the program meanwhile (`whole_file`).
#[derive(Drop)]
pub struct FileStore<R: Runtime<File = File> + AllocGlobal> {
    rt: R,
    faults: u64,
}

impl<R: Runtime<File = File> + AllocGlobal> FileStore<R> {
    /// No call has failed yet. The allocator is that of the runtime.
    pub fn new(rt: R) -> Self
        ensures { result.faults ≡ 0 }
    {
        FileStore { rt, faults: 0 }
    }
}

/// Reads as many bytes as there are, up to the buffer's length. A read that a signal interrupted is begun again.
fn read_some(file: &mut impl Read, buffer: &mut [u8]) -> io::Result<usize>
    ensures { IfOk result (λ n. n ≤ length buffer.old) }
{
    for _ in 0..u64::MAX {
        match file.read(buffer) {
            Err(error) if error.kind() == ErrorKind::Interrupted => {}
            other => return other,
        }
    }
    Err(io::Error::from(ErrorKind::Interrupted))
}

/// Why the system didn't open or read a file.
fn read_fail(error: &io::Error) -> ReadFail {
    match error.kind() {
        ErrorKind::OutOfMemory => ReadFail::Memory,
        _ => ReadFail::Failed,
    }
}

/// The bytes of a file, if there are no more than the limit. Each turn takes at least one byte, and no more than one
/// byte above the limit is ever taken into memory.
fn read_at_most(
    alloc: Global,
    file: &mut impl Read,
    limit: u64,
) -> Result<Option<Vec<u8>>, ReadFail>
    ensures { IfOk result (IsNoLonger limit) }
{
    let mut bytes = Vec::new(alloc);
    let mut buffer = [0u8; 16384];
    for _ in 0..=limit {
        let room = limit - bytes.len() as u64;
        let want = if room < 16384 {
            room as usize + 1
        } else {
            16384
        };
        let n = match read_some(file, &mut buffer[..want]) {
            Ok(n) => n,
            Err(error) => return Err(read_fail(&error)),
        };
        if n == 0 {
            return Ok(Some(bytes));
        }
        bytes.extend_from_slice(&buffer[..n])?;
        if bytes.len() as u64 > limit {
            return Err(ReadFail::TooLong);
        }
    }
    Err(ReadFail::TooLong)
}

impl<R: Runtime<File = File> + AllocGlobal> Store for FileStore<R> {
    ghost state = { λ s. record { files = None; faults = s.faults; failed = None } };

    fn read(&mut self, name: &str, limit: u64) -> Result<Option<Vec<u8>>, ReadFail> {
        let read = match fs::open(&self.rt, name) {
            Ok(mut file) => read_at_most(self.rt.alloc(), &mut file, limit),
            Err(error) if error.kind() == ErrorKind::NotFound => return Ok(None),
            Err(error) => Err(read_fail(&error)),
        };
        match read {
            Err(ReadFail::Failed) => {
                self.faults = self.faults.saturating_add(1);
                Err(ReadFail::Failed)
            }
            other => other,
        }
    }

    fn write(&mut self, name: &str, bytes: &[u8]) -> Result<(), WriteFail> {
        match write_whole(&self.rt, name, bytes) {
            Ok(()) => Ok(()),
            Err(error) if error.kind() == ErrorKind::OutOfMemory => Err(WriteFail::Memory),
            Err(_) => {
                self.faults = self.faults.saturating_add(1);
                Err(WriteFail::Failed)
            }
        }
    }
}
