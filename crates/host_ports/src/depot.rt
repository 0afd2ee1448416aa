//! A depot, where images of stopped contexts are left under names.

ghost use Rattle.std.specs.Prelude.{◌≡◌, ℕ, ◌≤◌, List, Option, Some, None, IfOk, OnOk, OnErr, IsErrOf};
ghost use Rattle.host_ports.specs.Streams.{FaultsCounted};
ghost use Rattle.host_ports.specs.Depots.{Holding, Has, IsThere, Sets, KeepsOthers};
ghost use Rattle.host_ports.specs.declared.depot.DepotFault.TheVariants.{Missing, Failed, OutOfMemory};

use rdma_types::Name;
use std::alloc::{AllocError, Global};
use thiserror::Error;

/// Why a depot did not do what it was asked.
#[derive(Clone, Copy, Debug, PartialEq, Eq, Error)]
pub enum DepotFault {
    /// Nothing is held under the name.
    #[error("nothing is held under the name")]
    Missing,
    /// The depot failed, and counted the fault.
    #[error("the depot failed")]
    Failed,
    #[error("out of memory")]
    OutOfMemory,
}

impl From<AllocError> for DepotFault {
    ghost from_gives = { λ _ e. e ≡ OutOfMemory };

    fn from(_e: AllocError) -> DepotFault {
        DepotFault::OutOfMemory
    }
}

/// Bytes under names.
pub trait Depot {
    // What is held under each name, where that is told.
    ghost held: { Self → Option Holding };

    // How many faults there were. The count stays at the last value that a u64 has.
    ghost faults: { Self → ℕ };

    // No call fails from here on.
    ghost never_fails: { Self → Type 0 };

    /// Holds these bytes under the name, in place of those that were there.
    ///
    /// # Errors
    ///
    /// `Failed` or `OutOfMemory`; what is then held under the name isn't said, and every other
    /// name is as it was.
    fn put(&mut self, alloc: Global, name: Name, bytes: &[u8]) -> Result<(), DepotFault>
        ensures put { OnOk result (Sets (held self.old) (held self.new) name (Some bytes.now)) }
        ensures others { OnErr result (KeepsOthers (held self.old) (held self.new) name) }
        ensures found { IsErrOf result Missing → ⊥ }

        // The count of faults rises exactly at `Failed`.
        ensures faults_unchanged { OnOk result (faults self.new ≡ faults self.old) }
        ensures short { IsErrOf result OutOfMemory → faults self.new ≡ faults self.old }
        ensures faults_counted { IsErrOf result Failed
            → FaultsCounted (faults self.old) (faults self.new) }
        ensures faults_monotone { faults self.old ≤ faults self.new }

        ensures never { never_fails self.old → IsErrOf result Failed → ⊥ }
        ensures stays { never_fails self.old → never_fails self.new };

    /// The bytes that are held under the name. What is held stays as it is.
    ///
    /// # Errors
    ///
    /// `Missing` where nothing is held under the name, `Failed` and `OutOfMemory`.
    fn look(&mut self, alloc: Global, name: Name) -> Result<Vec<u8>, DepotFault>
        ensures found { IfOk result (λ bytes. Has (held self.old) name (Some bytes.items)) }
        ensures missing { IsErrOf result Missing → Has (held self.old) name None }
        ensures wanted { IsErrOf result OutOfMemory → IsThere (held self.old) name }
        ensures same { held self.new ≡ held self.old }

        // The count of faults rises exactly at `Failed`.
        ensures faults_unchanged { OnOk result (faults self.new ≡ faults self.old) }
        ensures short { IsErrOf result OutOfMemory → faults self.new ≡ faults self.old }
        ensures absent { IsErrOf result Missing → faults self.new ≡ faults self.old }
        ensures faults_counted { IsErrOf result Failed
            → FaultsCounted (faults self.old) (faults self.new) }
        ensures faults_monotone { faults self.old ≤ faults self.new }

        ensures never { never_fails self.old → IsErrOf result Failed → ⊥ }
        ensures stays { never_fails self.old → never_fails self.new };

    /// Takes out the bytes that are held under the name.
    ///
    /// # Errors
    ///
    /// As those of `look`; what is held then stays as it is.
    fn take(&mut self, alloc: Global, name: Name) -> Result<Vec<u8>, DepotFault>
        ensures found { IfOk result (λ bytes. Has (held self.old) name (Some bytes.items)) }
        ensures taken { OnOk result (Sets (held self.old) (held self.new) name None) }
        ensures missing { IsErrOf result Missing → Has (held self.old) name None }
        ensures wanted { IsErrOf result OutOfMemory → IsThere (held self.old) name }
        ensures same { OnErr result (held self.new ≡ held self.old) }

        // The count of faults rises exactly at `Failed`.
        ensures faults_unchanged { OnOk result (faults self.new ≡ faults self.old) }
        ensures short { IsErrOf result OutOfMemory → faults self.new ≡ faults self.old }
        ensures absent { IsErrOf result Missing → faults self.new ≡ faults self.old }
        ensures faults_counted { IsErrOf result Failed
            → FaultsCounted (faults self.old) (faults self.new) }
        ensures faults_monotone { faults self.old ≤ faults self.new }

        ensures never { never_fails self.old → IsErrOf result Failed → ⊥ }
        ensures stays { never_fails self.old → never_fails self.new };
}
