ghost use Rattle.std.specs.Prelude.{◌≡◌, ◌/◌, true, false, Some, IfOk, IfSome, OnOk, IsErrOf, MatchOption, length};
ghost use Rattle.std.specs.Prelude.{take};
ghost use Rattle.or_host.specs.Fault.{HasCause, NamesLast, name_if};
ghost use Rattle.or_host.specs.Files.{Reads, Writes, Holds, IsNoLonger, read_failed, write_failed};
ghost use Rattle.or_host.specs.FileList.{files_of};
ghost use Rattle.or_host.specs.Schedule.{IsNextCall, fails_next};

use crate::file::{MemFile, bytes_under, put_bytes};
use crate::schedule::Schedule;
use crate::store::{ReadFail, Store, WriteFail};
use or_geom::{Memory, Name};
use std::alloc::Global;

/// Files in memory, for tests. Its calls are numbered from 1, the number standing still at 2^64 - 1, and those whose
/// numbers stand in `fail` fail; a failing write leaves the first half of its bytes. Of several files of one name the
/// first counts.
#[derive(Drop)]
pub struct MemStore {
    alloc: Global,
    files: Vec<MemFile>,
    schedule: Schedule,
    failed: Option<Name>,
}

/// The name, to be told, if there is memory for it.
fn told_name(alloc: Global, name: &str) -> Option<Name>
    ensures { IfSome result (λ told. told ≡ name.now) }
{
    match Name::from_bytes(alloc, name.as_bytes()) {
        Ok(told) => Some(told),
        Err(Memory) => None,
    }
}

impl MemStore {
    ghost use Rattle.or_host.specs.MemoryStore.{IsNewStore, held};

    /// A store that holds these files.
    pub fn with(alloc: Global, files: Vec<MemFile>, fail: Vec<u64>) -> Self
        ensures { IsNewStore files.items fail.items result }
    {
        MemStore {
            alloc,
            files,
            schedule: Schedule::new(fail),
            failed: None,
        }
    }

    /// What a file holds now. It isn't counted as a call.
    pub fn contents(&self, name: &str) -> Option<&[u8]>
        ensures { MatchOption result (held self.now name.now ≡ None) (λ bytes. held self.now name.now
            ≡ Some bytes.now) }
    {
        bytes_under(&self.files, name)
    }
}

impl Store for MemStore {
    ghost use Rattle.or_host.specs.MemoryStore.{held, schedule_of, failed_in};

    ghost state = { λ s. record { files = Some (held s); faults = (schedule_of s).faults; failed = failed_in s } };

    fn read(&mut self, name: &str, limit: u64) -> Result<Option<Vec<u8>>, ReadFail>
        ensures read { Reads (Some (held self.old)) name.now limit result }
        ensures bound { IfOk result (IsNoLonger limit) }
        ensures same { Some (held self.new) ≡ Some (held self.old) }
        ensures cause { HasCause (schedule_of self.old).faults (schedule_of self.new).faults (read_failed result) }
        ensures named { NamesLast (name_if (read_failed result) name.now) (failed_in self.old) (failed_in self.new) }

        ensures counted { IsNextCall (schedule_of self.old) (schedule_of self.new) }
        ensures due { read_failed result ≡ fails_next (schedule_of self.old) }
    {
        if self.schedule.next() {
            self.failed = told_name(self.alloc, name);
            self.schedule.raise();
            return Err(ReadFail::Failed);
        }
        let Some(bytes) = bytes_under(&self.files, name) else {
            return Ok(None);
        };
        if bytes.len() as u64 > limit {
            return Err(ReadFail::TooLong);
        }
        Ok(Some(Vec::from_slice(self.alloc, bytes)?))
    }

    fn write(&mut self, name: &str, bytes: &[u8]) -> Result<(), WriteFail>
        ensures written { Writes (Some (held self.old)) (Some (held self.new)) name.now bytes.now result }
        ensures cause { HasCause (schedule_of self.old).faults (schedule_of self.new).faults (write_failed result) }
        ensures named { NamesLast (name_if (write_failed result) name.now) (failed_in self.old) (failed_in self.new) }

        ensures counted { IsNextCall (schedule_of self.old) (schedule_of self.new) }
        ensures failed { IsErrOf result WriteFail.Failed → fails_next (schedule_of self.old) ≡ true }
        ensures done { OnOk result (fails_next (schedule_of self.old) ≡ false) }
        ensures half { IsErrOf result WriteFail.Failed
            → Holds (held self.old) (held self.new) name.now (take (length bytes.now / 2) bytes.now) }
    {
        if self.schedule.next() {
            put_bytes(self.alloc, &mut self.files, name, &bytes[..bytes.len() / 2])?;
            self.failed = told_name(self.alloc, name);
            self.schedule.raise();
            return Err(WriteFail::Failed);
        }
        Ok(put_bytes(self.alloc, &mut self.files, name, bytes)?)
    }
}
