ghost use Rattle.std.specs.Prelude.{◌≡◌, ◌++◌, ◌/◌, true, false, Some, OnOk, IsErrOf, length, take};
ghost use Rattle.or_host.specs.Fault.{HasCause, RoseBy};
ghost use Rattle.or_host.specs.Text.{Puts, put_failed};
ghost use Rattle.or_host.specs.Schedule.{IsNextCall, fails_next};

use crate::schedule::Schedule;
use crate::sink::{PutFail, Sink};
use std::alloc::Global;

/// Text in memory, for tests. Its calls are numbered from 1, the number standing still at 2^64 - 1, and those whose
/// numbers stand in `fail` fail; a failing call adds the first half of its bytes.
#[derive(Drop)]
pub struct MemSink {
    text: Vec<u8>,
    schedule: Schedule,
}

impl MemSink {
    ghost use Rattle.or_host.specs.MemorySink.{IsNewSink, text_of};

    /// A sink with nothing written.
    pub fn with(alloc: Global, fail: Vec<u64>) -> Self
        ensures { IsNewSink fail.items result }
    {
        MemSink {
            text: Vec::new(alloc),
            schedule: Schedule::new(fail),
        }
    }

    /// The text so far.
    pub fn written(&self) -> &[u8]
        ensures { result.now ≡ text_of self.now }
    {
        &self.text
    }
}

impl Sink for MemSink {
    ghost use Rattle.or_host.specs.MemorySink.{text_of, calls_of};

    ghost state = { λ s. record { text = Some (text_of s); faults = (calls_of s).faults; puts = (calls_of s).calls } };

    fn put(&mut self, bytes: &[u8]) -> Result<(), PutFail>
        ensures written { Puts (Some (text_of self.old)) (Some (text_of self.new)) bytes.now result }
        ensures cause { HasCause (calls_of self.old).faults (calls_of self.new).faults (put_failed result) }
        ensures counted { RoseBy 1 (calls_of self.old).calls (calls_of self.new).calls }

        ensures next { IsNextCall (calls_of self.old) (calls_of self.new) }
        ensures failed { IsErrOf result PutFail.Failed → fails_next (calls_of self.old) ≡ true }
        ensures done { OnOk result (fails_next (calls_of self.old) ≡ false) }
        ensures half { IsErrOf result PutFail.Failed
            → text_of self.new ≡ text_of self.old ++ take (length bytes.now / 2) bytes.now }
    {
        if self.schedule.next() {
            self.text.extend_from_slice(&bytes[..bytes.len() / 2])?;
            self.schedule.raise();
            return Err(PutFail::Failed);
        }
        self.text.extend_from_slice(bytes)?;
        Ok(())
    }
}
