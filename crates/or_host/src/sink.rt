ghost use Rattle.std.specs.Prelude.{◌≡◌};
ghost use Rattle.or_host.specs.Fault.{HasCause, RoseBy};
ghost use Rattle.or_host.specs.Text.{Puts, put_failed};
ghost use Rattle.or_host.specs.State.{SinkState};
ghost use Rattle.or_host.specs.declared.sink.PutFail.TheVariants as put_fail;

use std::alloc::AllocError;

/// Why bytes were not printed.
#[derive(Clone, Copy, Debug, PartialEq, Eq)]
pub enum PutFail {
    /// The sink failed, and its count of faults rose. A prefix of the bytes may be printed.
    Failed,
    /// There was no memory, and nothing was printed.
    Memory,
}

impl From<AllocError> for PutFail {
    ghost from_gives = { λ _ e. e ≡ put_fail.Memory };

    fn from(_: AllocError) -> Self {
        PutFail::Memory
    }
}

/// Where lines are printed. Like a store, a sink tells its text or doesn't.
pub trait Sink {
    /// The text, the count of faults, and the count of calls.
    ghost state: { Self → SinkState };

    /// Adds the bytes at the end of the text.
    fn put(&mut self, bytes: &[u8]) -> Result<(), PutFail>
        ensures written { Puts (state self.old).text (state self.new).text bytes.now result }
        ensures cause { HasCause (state self.old).faults (state self.new).faults (put_failed result) }
        ensures counted { RoseBy 1 (state self.old).puts (state self.new).puts };
}
