//! A source of bytes, and how it is read to its end.

ghost use Rattle.std.specs.Prelude.{◌≡◌, ℕ, ◌+◌, ◌<◌, ◌≤◌, ◌⊎◌, List, [], length, take, Option, Some, IsSome, IsOk, IfOk, OnOk, OnErr, IsErrOf};
ghost use Rattle.host_ports.specs.Streams.{FaultsCounted, Takes, TakesAll, TakesCount, IsAtEnd};
ghost use Rattle.host_ports.specs.declared.reading.ReadAllFault.TheVariants.{ReadFault, OutOfMemory};

use crate::Failed;
use std::alloc::{AllocError, Global};
use thiserror::Error;

/// Bytes to come.
pub trait Source {
    // The bytes that are left to read, where that is told.
    ghost left: { Self → Option (List ℕ) };

    // How many faults there were. The count stays at the last value that a u64 has.
    ghost faults: { Self → ℕ };

    // No call fails from here on.
    ghost never_fails: { Self → Type 0 };

    /// Reads bytes into the first places of `out`, and says how many. 0 is the end, where `out` has room.
    ///
    /// A call may read fewer bytes than there are, and what it leaves in the rest of `out` isn't
    /// said.
    ///
    /// # Errors
    ///
    /// A fault, which is counted and takes nothing.
    fn read(&mut self, out: &mut [u8]) -> Result<usize, Failed>
        ensures most { IfOk result (λ n. n ≤ length out.old) }
        ensures taken { IfOk result (λ n. Takes (left self.old) (left self.new) (take n out.new)) }
        ensures end { IfOk result (λ n. n ≡ 0 → IsAtEnd (left self.old) ⊎ (out.old ≡ [])) }
        ensures err { OnErr result (left self.new ≡ left self.old) }

        // The count of faults rises exactly with a fault.
        ensures faults_unchanged { OnOk result (faults self.new ≡ faults self.old) }
        ensures faults_counted { OnErr result (FaultsCounted (faults self.old) (faults self.new)) }
        ensures faults_monotone { faults self.old ≤ faults self.new }

        ensures never { never_fails self.old → IsOk result }
        ensures stays { never_fails self.old → never_fails self.new };
}

/// Why a source was not read to its end.
#[derive(Clone, Copy, Debug, PartialEq, Eq, Error)]
pub enum ReadAllFault {
    #[error("the input could not be read")]
    ReadFault,
    #[error("the input is too long")]
    TooLong,
    #[error("out of memory")]
    OutOfMemory,
}

impl From<Failed> for ReadAllFault {
    ghost from_gives = { λ _ e. e ≡ ReadFault };

    fn from(_e: Failed) -> ReadAllFault {
        ReadAllFault::ReadFault
    }
}

impl From<AllocError> for ReadAllFault {
    ghost from_gives = { λ _ e. e ≡ OutOfMemory };

    fn from(_e: AllocError) -> ReadAllFault {
        ReadAllFault::OutOfMemory
    }
}

const PIECE: usize = 4096;

/// Reads a source to its end: at most `limit` bytes.
///
/// # Errors
///
/// `ReadFault` where a read failed, `TooLong` as soon as byte `limit + 1` was taken, and
/// `OutOfMemory`. The bytes that were taken by then are gone.
pub fn read_all<S: Source>(
    alloc: Global,
    source: &mut S,
    limit: usize,
) -> Result<Vec<u8>, ReadAllFault>
    requires { limit < usize.MAX }
    ensures all { IfOk result (λ bytes. TakesAll (S.left source.old)
        (S.left source.new) bytes.items) }
    ensures short { IfOk result (λ bytes. length bytes.items ≤ limit) }

    // What was taken at each error. Byte `limit + 1` was taken exactly at `TooLong`.
    ensures long { IsErrOf result ReadAllFault.TooLong
        → TakesCount (S.left source.old) (S.left source.new) (limit + 1) }
    ensures long_only { IsSome (S.left source.old)
        → TakesCount (S.left source.old) (S.left source.new) (limit + 1)
        → IsErrOf result ReadAllFault.TooLong }
    ensures fault { IsErrOf result ReadAllFault.ReadFault
        → (n : ℕ) × (n ≤ limit) × TakesCount (S.left source.old) (S.left source.new) n }
    ensures memory { IsErrOf result ReadAllFault.OutOfMemory
        → (n : ℕ) × (n ≤ limit) × TakesCount (S.left source.old) (S.left source.new) n }

    // The count of faults rises exactly at `ReadFault`.
    ensures faults_counted { IsErrOf result ReadAllFault.ReadFault
        → FaultsCounted (S.faults source.old) (S.faults source.new) }
    ensures faults_unchanged { IsErrOf result ReadAllFault.ReadFault
        ⊎ (S.faults source.new ≡ S.faults source.old) }
    ensures faults_monotone { S.faults source.old ≤ S.faults source.new }

    ensures never { S.never_fails source.old → IsErrOf result ReadAllFault.ReadFault → ⊥ }
    ensures stays { S.never_fails source.old → S.never_fails source.new }
{
    let mut bytes = Vec::new(alloc);
    let mut piece = [0; PIECE];
    loop {
        let room = limit - bytes.len();
        let wanted = PIECE.min(room + 1);
        let n = source.read(&mut piece[..wanted])?;
        if n == 0 {
            return Ok(bytes);
        }
        if n > room {
            return Err(ReadAllFault::TooLong);
        }
        bytes.extend_from_slice(&piece[..n])?;
    }
}
