//! A sink of bytes, and how a text is written to it whole.

ghost use Rattle.std.specs.Prelude.{◌≡◌, ℕ, ◌+◌, ◌<◌, ◌≤◌, ◌⊎◌, List, [], length, take, Option, IfOk, IsOkAnd, OnOk, OnErr};
ghost use Rattle.host_ports.specs.Streams.{FaultsCounted, Puts};

use crate::Failed;
use thiserror::Error;

/// What takes bytes.
pub trait Sink {
    // The bytes that were written, where that is told.
    ghost held: { Self → Option (List ℕ) };

    // How many faults there were. The count stays at the last value that a u64 has.
    ghost faults: { Self → ℕ };

    // How many more bytes it takes for sure, in whatever pieces: 0 promises nothing.
    ghost room: { Self → ℕ };

    /// Writes a prefix of `bytes` behind what was written, and says how many.
    ///
    /// A call may write fewer bytes than there are. 0 for a piece that isn't empty is a fault too,
    /// and is counted.
    ///
    /// # Errors
    ///
    /// A fault, which is counted and writes nothing.
    fn write(&mut self, bytes: &[u8]) -> Result<usize, Failed>
        ensures most { IfOk result (λ n. n ≤ length bytes.now) }
        ensures put { IfOk result (λ n. Puts (held self.old) (held self.new) (take n bytes.now)) }
        ensures zero { IfOk result (λ n. n ≡ 0
            → (bytes.now ≡ []) ⊎ FaultsCounted (faults self.old) (faults self.new)) }
        ensures err { OnErr result (held self.new ≡ held self.old) }

        // The count of faults rises exactly with a fault.
        ensures faults_unchanged { IfOk result (λ n. 0 < n → faults self.new ≡ faults self.old) }
        ensures faults_counted { OnErr result (FaultsCounted (faults self.old) (faults self.new)) }
        ensures faults_monotone { faults self.old ≤ faults self.new }

        // A piece that fits the room is no fault, and takes no more of the room than was written.
        ensures fits { 0 < length bytes.now → length bytes.now ≤ room self.old
            → IsOkAnd result (λ n. 0 < n) }
        ensures spends { IfOk result (λ n. room self.old ≤ room self.new + n) };
}

/// A text was not written whole: a write failed, or wrote none of a piece.
#[derive(Clone, Copy, Debug, PartialEq, Eq, Error)]
#[error("the output could not be written")]
pub struct WriteFault;

/// Writes all of the bytes behind what was written. It takes no memory.
///
/// # Errors
///
/// A fault of the sink, which then holds a prefix of the bytes, and not all of them.
#[inline(always)]
pub fn write_all_of<K: Sink>(sink: &mut K, bytes: &[u8]) -> Result<(), WriteFault>
    ensures all { OnOk result (Puts (K.held sink.old) (K.held sink.new) bytes.now) }
    ensures part { OnErr result ((n : ℕ) × (n < length bytes.now)
        × Puts (K.held sink.old) (K.held sink.new) (take n bytes.now)) }

    // The count of faults rises exactly at an error.
    ensures faults_unchanged { OnOk result (K.faults sink.new ≡ K.faults sink.old) }
    ensures faults_counted { OnErr result (FaultsCounted (K.faults sink.old) (K.faults sink.new)) }
    ensures faults_monotone { K.faults sink.old ≤ K.faults sink.new }

    // It fails only where the bytes do not fit the room, and takes no more of it than their count.
    ensures full { OnErr result (K.room sink.old < length bytes.now) }
    ensures spends { OnOk result (K.room sink.old ≤ K.room sink.new + length bytes.now) }
{
    let mut done = 0;
    while done < bytes.len() {
        match sink.write(&bytes[done..]) {
            Ok(0) => return Err(WriteFault),
            Ok(n) => done += n,
            Err(Failed) => return Err(WriteFault),
        }
    }
    Ok(())
}
