//! A store, where dumps of stopped contexts lie under names.

ghost use Rattle.std.specs.Prelude.{◌≡◌, ℕ, List, Option, Some, None, IfOk, OnOk, OnErr, IsErrOf};
ghost use Rattle.host_ports.specs.Depots.{Has, Holding, IsThere, Sets};
ghost use Rattle.host_ports.specs.Stores.{AddsClaim, Claim, DropsClaim, GivesLastBack};
ghost use Rattle.host_ports.specs.declared.store.StoreFault.TheVariants.{Failed, Missing, OutOfMemory, Taken};

use rdma_types::Name;
use std::alloc::{AllocError, Global};
use thiserror::Error;

/// Why a store did not do what it was asked. All that it holds is then as before.
#[derive(Clone, Copy, Debug, PartialEq, Eq, Error)]
pub enum StoreFault {
    /// Nothing is held under the name.
    #[error("nothing is held under the name")]
    Missing,
    /// A dump is held under the name.
    #[error("a dump is held under the name")]
    Taken,
    /// The store failed.
    #[error("the store failed")]
    Failed,
    #[error("out of memory")]
    OutOfMemory,
}

impl From<AllocError> for StoreFault {
    ghost from_gives = { λ _ e. e ≡ OutOfMemory };

    fn from(_e: AllocError) -> StoreFault {
        StoreFault::OutOfMemory
    }
}

/// Dumps under names. No call puts one dump in the place of another, and no call that fails changes what is held.
///
/// A dump is taken out in two calls: `claim` takes its name away and gives its bytes, and then either `finish` forgets it
/// for good or `give_back` gives it its name again. What a process that dies leaves claimed is on no device.
pub trait Store {
    // The dump under each name, where that is told.
    ghost dumps: { Self → Option Holding };

    // The dumps that were claimed and neither forgotten nor given back, in order of claims, where that is told.
    ghost claims: { Self → Option (List Claim) };

    /// Holds these bytes under a name that is free. When it answers `Ok`, they are there after a loss of power too.
    ///
    /// # Errors
    ///
    /// `Taken` where a dump has the name, `Failed` and `OutOfMemory`. All that is held is then as before.
    fn publish(&mut self, alloc: Global, name: Name, bytes: &[u8]) -> Result<(), StoreFault>
        ensures free { OnOk result (Has (dumps self.old) name None) }
        ensures published { OnOk result (Sets (dumps self.old) (dumps self.new) name
            (Some bytes.now)) }
        ensures taken { IsErrOf result Taken → IsThere (dumps self.old) name }
        ensures same { OnErr result (dumps self.new ≡ dumps self.old) }
        ensures claims { claims self.new ≡ claims self.old };

    /// Takes the dump of a name for this process alone, and gives its bytes. The name is then free.
    ///
    /// # Errors
    ///
    /// `Missing` where no dump has the name, `Failed` and `OutOfMemory`. All that is held is then as before.
    fn claim(&mut self, alloc: Global, name: Name) -> Result<Vec<u8>, StoreFault>
        ensures found { IfOk result (λ bytes. Has (dumps self.old) name (Some bytes.items)) }
        ensures out { OnOk result (Sets (dumps self.old) (dumps self.new) name None) }
        ensures claimed { IfOk result (λ bytes. AddsClaim (claims self.old) (claims self.new)
            (name, bytes.items)) }
        ensures missing { IsErrOf result Missing → Has (dumps self.old) name None }
        ensures same { OnErr result (dumps self.new ≡ dumps self.old) }
        ensures same_claims { OnErr result (claims self.new ≡ claims self.old) };

    /// Forgets the last claim for good. When it answers `Ok`, its name is gone after a loss of power too.
    ///
    /// # Errors
    ///
    /// Any: the dump is then still claimed.
    fn finish(&mut self) -> Result<(), StoreFault>
        ensures done { OnOk result (DropsClaim (claims self.old) (claims self.new)) }
        ensures same { OnErr result (claims self.new ≡ claims self.old) }
        ensures dumps { dumps self.new ≡ dumps self.old };

    /// Gives the last claim its name again.
    ///
    /// # Errors
    ///
    /// `Taken` where another dump has the name by now, or any other: the dump is then still claimed.
    fn give_back(&mut self) -> Result<(), StoreFault>
        ensures done { OnOk result (GivesLastBack (claims self.old) (claims self.new)
            (dumps self.old) (dumps self.new)) }
        ensures same { OnErr result (claims self.new ≡ claims self.old) }
        ensures same_dumps { OnErr result (dumps self.new ≡ dumps self.old) };
}
