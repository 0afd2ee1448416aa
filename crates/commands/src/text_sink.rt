//! A sink that keeps what is written.

ghost use Rattle.std.specs.Prelude.{◌≡◌, [], Some};

use host_ports::{Failed, Sink};
use std::alloc::Global;

/// A text in memory. A write fails only where no memory is left.
#[derive(Drop)]
pub(crate) struct TextSink {
    text: Vec<u8>,
    fault_count: u64,
}

impl TextSink {
    /// Nothing is written.
    pub(crate) fn new(alloc: Global) -> TextSink
        ensures { result.text.items ≡ [] }
    {
        TextSink {
            text: Vec::new(alloc),
            fault_count: 0,
        }
    }

    /// What was written.
    pub(crate) fn as_bytes(&self) -> &[u8]
        ensures { result.now ≡ self.now.text.items }
    {
        self.text.as_slice()
    }
}

impl Sink for TextSink {
    ghost held = { λ s. Some s.text.items };

    ghost faults = { λ s. s.fault_count };

    ghost room = { λ _. 0 };

    fn write(&mut self, bytes: &[u8]) -> Result<usize, Failed> {
        match self.text.extend_from_slice(bytes) {
            Ok(()) => Ok(bytes.len()),
            Err(_) => {
                self.fault_count = self.fault_count.saturating_add(1);
                Err(Failed)
            }
        }
    }
}
