ghost use Rattle.std.specs.Prelude.{◌≡◌, Some, None, MatchOption};

use crate::file::{MemFile, bytes_under, put_bytes};
use crate::store::{ReadFail, Store, WriteFail};
use std::alloc::Global;

/// Files in memory that are always there: no call fails. Of several files of one name the first counts.
#[derive(Drop)]
pub struct SureStore {
    alloc: Global,
    files: Vec<MemFile>,
}

impl SureStore {
    ghost use Rattle.or_host.specs.FileList.{files_of};
    ghost use Rattle.or_host.specs.SureFiles.{kept};

    /// A store that holds these files.
    pub fn with(alloc: Global, files: Vec<MemFile>) -> Self
        ensures { kept result ≡ files_of files.items }
    {
        SureStore { alloc, files }
    }

    /// What a file holds now.
    pub fn contents(&self, name: &str) -> Option<&[u8]>
        ensures { MatchOption result (kept self.now name.now ≡ None) (λ bytes. kept self.now name.now
            ≡ Some bytes.now) }
    {
        bytes_under(&self.files, name)
    }
}

impl Store for SureStore {
    ghost use Rattle.or_host.specs.SureFiles.{kept};

    ghost state = { λ s. record { files = Some (kept s); faults = 0; failed = None } };

    fn read(&mut self, name: &str, limit: u64) -> Result<Option<Vec<u8>>, ReadFail> {
        let Some(bytes) = bytes_under(&self.files, name) else {
            return Ok(None);
        };
        if bytes.len() as u64 > limit {
            return Err(ReadFail::TooLong);
        }
        Ok(Some(Vec::from_slice(self.alloc, bytes)?))
    }

    fn write(&mut self, name: &str, bytes: &[u8]) -> Result<(), WriteFail> {
        Ok(put_bytes(self.alloc, &mut self.files, name, bytes)?)
    }
}
