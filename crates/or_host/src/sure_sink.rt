ghost use Rattle.std.specs.Prelude.{◌≡◌, Some, []};

use crate::sink::{PutFail, Sink};
use std::alloc::Global;

/// Text in memory. No call fails.
#[derive(Drop)]
pub struct SureSink {
    text: Vec<u8>,
    puts: u64,
}

impl SureSink {
    ghost use Rattle.or_host.specs.SureText.{sure_text, sure_puts};

    /// A sink with nothing written.
    pub fn new(alloc: Global) -> Self
        ensures text { sure_text result ≡ [] }
        ensures puts { sure_puts result ≡ 0 }
    {
        SureSink {
            text: Vec::new(alloc),
            puts: 0,
        }
    }

    /// The text so far.
    pub fn written(&self) -> &[u8]
        ensures { result.now ≡ sure_text self.now }
    {
        &self.text
    }
}

impl Sink for SureSink {
    ghost use Rattle.or_host.specs.SureText.{sure_text, sure_puts};

    ghost state = { λ s. record { text = Some (sure_text s); faults = 0; puts = sure_puts s } };

    fn put(&mut self, bytes: &[u8]) -> Result<(), PutFail> {
        self.puts = self.puts.saturating_add(1);
        Ok(self.text.extend_from_slice(bytes)?)
    }
}
