ghost use Rattle.std.specs.Prelude.{◌≡◌, IfOk};
ghost use Rattle.or_host.specs.Fault.{HasCause, NamesLast, name_if};
ghost use Rattle.or_host.specs.Files.{Reads, Writes, IsNoLonger, read_failed, write_failed};
ghost use Rattle.or_host.specs.State.{StoreState};
ghost use Rattle.or_host.specs.declared.store.ReadFail.TheVariants as read_fail;
ghost use Rattle.or_host.specs.declared.store.WriteFail.TheVariants as write_fail;

use or_geom::Memory;
use std::alloc::AllocError;

/// Why a read gave no answer.
#[derive(Clone, Copy, Debug, PartialEq, Eq)]
pub enum ReadFail {
    /// The store failed, and its count of faults rose.
    Failed,
    /// The file is longer than the limit.
    TooLong,
    /// There was no memory for the bytes.
    Memory,
}

impl From<AllocError> for ReadFail {
    ghost from_gives = { λ _ e. e ≡ read_fail.Memory };

    fn from(_: AllocError) -> Self {
        ReadFail::Memory
    }
}

/// Why a write was not done.
#[derive(Clone, Copy, Debug, PartialEq, Eq)]
pub enum WriteFail {
    /// The store failed, and its count of faults rose. The file may hold a prefix of the bytes.
    Failed,
    /// There was no memory, and nothing changed.
    Memory,
}

impl From<Memory> for WriteFail {
    ghost from_gives = { λ _ e. e ≡ write_fail.Memory };

    fn from(_: Memory) -> Self {
        WriteFail::Memory
    }
}

/// Files that are read and written by name: those of the file system, or those of a store in memory.
///
/// A store may tell what its files hold, and then its contract ties each answer to them; the file system's tells
/// nothing. In any store a call fails only if the count of faults rises, so that a caller can't report a fault that
/// didn't happen.
pub trait Store {
    /// The files, the count of faults, and the name in the last call that failed.
    ghost state: { Self → StoreState };

    /// The bytes of a file, or none where there is no such file. At most `limit` bytes are taken.
    fn read(&mut self, name: &str, limit: u64) -> Result<Option<Vec<u8>>, ReadFail>
        ensures read { Reads (state self.old).files name.now limit result }
        ensures bound { IfOk result (IsNoLonger limit) }
        ensures same { (state self.new).files ≡ (state self.old).files }
        ensures cause { HasCause (state self.old).faults (state self.new).faults (read_failed result) }
        ensures named { NamesLast (name_if (read_failed result) name.now) (state self.old).failed
            (state self.new).failed };

    /// Puts the bytes in the place of what the file holds, or makes the file.
    fn write(&mut self, name: &str, bytes: &[u8]) -> Result<(), WriteFail>
        ensures written { Writes (state self.old).files (state self.new).files name.now bytes.now result }
        ensures cause { HasCause (state self.old).faults (state self.new).faults (write_failed result) }
        ensures named { NamesLast (name_if (write_failed result) name.now) (state self.old).failed
            (state self.new).failed };
}
