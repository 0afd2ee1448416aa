//! The input and output of a process.

ghost use Rattle.std.specs.Prelude.{◌≡◌, ◌≤◌, None, IfOk, length};
ghost use Rattle.host_ports.specs.Streams.{FaultsCounted};

use crate::tail::Tail;
use host_ports::{Failed, Sink, Source};
use std::alloc::Global;
use std::io;
use std::io::{Read, Write};

/// A reader, whose faults are counted. Each error of a read is a fault.
#[derive(Drop)]
pub struct StdSource<R> {
    inner: R,
    fault_count: u64,
    last_fault: Option<io::Error>,
}

/// What the system said of a fault. None where there was none, and where memory runs out.
fn told(alloc: Global, fault: &Option<io::Error>) -> Option<String> {
    match fault {
        None => None,
        Some(error) => format!(in alloc; "{error}").ok(),
    }
}

impl<R: Read> StdSource<R> {
    /// A source of what the reader reads, without a fault so far.
    pub fn new(inner: R) -> StdSource<R> {
        StdSource {
            inner,
            fault_count: 0,
            last_fault: None,
        }
    }
}

impl<R> StdSource<R> {
    /// What the system said of the last fault. None where there was none, and where memory runs out.
    pub fn reason(&self, alloc: Global) -> Option<String> {
        told(alloc, &self.last_fault)
    }
}

impl<R: Read> Source for StdSource<R> {
    ghost left = { λ _. None };

    ghost faults = { λ s. s.fault_count };

    ghost never_fails = { λ _. ⊥ };

    fn read(&mut self, out: &mut [u8]) -> Result<usize, Failed> {
        match self.inner.read(out) {
            Ok(n) => Ok(n),
            Err(error) => {
                self.fault_count = self.fault_count.saturating_add(1);
                self.last_fault = Some(error);
                Err(Failed)
            }
        }
    }
}

/// A writer, whose faults are counted. Each error of a write or a flush is a fault, and a write that takes none of its bytes.
#[derive(Drop)]
pub struct StdSink<W> {
    inner: W,
    is_prompt: bool,
    fault_count: u64,
    last_fault: Option<io::Error>,
    tail: Tail,
}

impl<W: Write> StdSink<W> {
    /// A sink over the writer, without a fault so far. What the writer holds back is written out by `flush`.
    pub fn new(inner: W) -> StdSink<W> {
        StdSink {
            inner,
            is_prompt: false,
            fault_count: 0,
            last_fault: None,
            tail: Tail::new(),
        }
    }

    /// The same, but each write that ends a line is flushed at once: so the answers of a node are seen as they come, each whole.
    pub fn prompt(inner: W) -> StdSink<W> {
        StdSink {
            inner,
            is_prompt: true,
            fault_count: 0,
            last_fault: None,
            tail: Tail::new(),
        }
    }

    /// Writes out what is still held back.
    ///
    /// # Errors
    ///
    /// A fault, which is counted; how much was written is not said.
    pub fn flush(&mut self) -> Result<(), Failed> {
        match self.inner.flush() {
            Ok(()) => Ok(()),
            Err(error) => Err(self.failed(error)),
        }
    }

    /// Writes bytes, and flushes a prompt writer where they end a line.
    fn put(&mut self, bytes: &[u8]) -> io::Result<usize>
        ensures most { IfOk result (λ n. n ≤ length bytes.now) }
        ensures faults { self.new.fault_count ≡ self.old.fault_count }
    {
        let n = self.inner.write(bytes)?;
        if self.is_prompt && bytes.ends_with(b"\n") {
            self.inner.flush()?;
        }
        Ok(n)
    }

    /// Counts a fault.
    fn failed(&mut self, error: io::Error) -> Failed
        ensures counted { FaultsCounted self.old.fault_count self.new.fault_count }
        ensures monotone { self.old.fault_count ≤ self.new.fault_count }
    {
        self.fault_count = self.fault_count.saturating_add(1);
        self.last_fault = Some(error);
        Failed
    }
}

impl<W> StdSink<W> {
    /// What the system said of the last fault. None where there was none, and where memory runs out.
    pub fn reason(&self, alloc: Global) -> Option<String> {
        told(alloc, &self.last_fault)
    }

    /// The last line that was written, without its end; of a line of over 63 bytes the last ones.
    pub fn last_line(&self) -> &[u8] {
        self.tail.last_line()
    }
}

impl<W: Write> Sink for StdSink<W> {
    ghost held = { λ _. None };

    ghost faults = { λ s. s.fault_count };

    ghost room = { λ _. 0 };

    fn write(&mut self, bytes: &[u8]) -> Result<usize, Failed> {
        match self.put(bytes) {
            Ok(0) if !bytes.is_empty() => Err(self.failed(io::ErrorKind::WriteZero.into())),
            Ok(n) => {
                self.tail.note(&bytes[..n]);
                Ok(n)
            }
            Err(error) => Err(self.failed(error)),
        }
    }
}
