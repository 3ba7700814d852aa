ghost use Rattle.std.specs.Prelude.{◌≡◌, None};

use crate::sink::{PutFail, Sink};
use std::io;
use std::io::Write;
use std::rt::Runtime;

/// Standard output, of whose text nothing is told.
#[derive(Drop)]
pub struct StreamSink<R: Runtime> {
    rt: R,
    faults: u64,
    puts: u64,
}

impl<R: Runtime> StreamSink<R> {
    /// No call was made yet. The allocator is that of the runtime.
    pub fn new(rt: R) -> Self
        ensures faults { result.faults ≡ 0 }
        ensures puts { result.puts ≡ 0 }
    {
        StreamSink {
            rt,
            faults: 0,
            puts: 0,
        }
    }
}

impl<R: Runtime> Sink for StreamSink<R> {
    ghost state = { λ s. record { text = None; faults = s.faults; puts = s.puts } };

    fn put(&mut self, bytes: &[u8]) -> Result<(), PutFail> {
        self.puts = self.puts.saturating_add(1);
        match io::writer(&self.rt).write_all(bytes) {
            Ok(()) => Ok(()),
            Err(_) => {
                self.faults = self.faults.saturating_add(1);
                Err(PutFail::Failed)
            }
        }
    }
}
