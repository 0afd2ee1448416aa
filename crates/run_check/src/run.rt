//! A run, and why there is none.

ghost use Rattle.std.specs.Prelude.{◌≡◌, ◌≢◌, IfErr, OnOk};
ghost use Rattle.run_check.specs.Gathered.{Tells};
ghost use Rattle.run_check.specs.declared.run.RunFault.TheVariants.{Disagree};

use rdma_types::Items;
use shared_device::{OrderEntry, Receipt};
use std::alloc::AllocError;

/// A run of threads, or of one caller. `receipts` has a list for each worker's number, from 0 on.
#[derive(Drop)]
pub struct Run {
    /// The order of all devices' steps.
    pub order: Items<OrderEntry>,
    pub receipts: Items<Items<Receipt>>,
    /// The number in b's word after the order; 0 where no device has it.
    pub word: u64,
    /// How many completions the receipts tell of.
    pub completions: u64,
    /// Whether the caller made the run itself.
    pub alone: bool,
}

/// Why there is no run.
#[derive(Clone, Copy, Debug, PartialEq, Eq)]
pub enum RunFault {
    /// Receipts, journals and order differ at the step of a device with that place. The two values differ: ids, places,
    /// numbers of datagrams or of kinds, 1 and 0 where what one tells of is not there, or 0 and 1 where events or outcomes of
    /// one kind differ further in.
    Disagree { place: u64, left: u64, right: u64 },
    OutOfMemory,
}

impl From<AllocError> for RunFault {
    ghost use Rattle.std.specs.Prelude.{◌≡◌};
    ghost use Rattle.run_check.specs.declared.run.RunFault.TheVariants.{OutOfMemory};

    ghost from_gives = { λ _ fault. fault ≡ OutOfMemory };

    fn from(_: AllocError) -> RunFault {
        RunFault::OutOfMemory
    }
}

/// What one tells of is not there.
pub(crate) fn missing(place: u64) -> RunFault
    ensures { result ≡ Disagree place 1 0 }
{
    RunFault::Disagree {
        place,
        left: 1,
        right: 0,
    }
}

/// Two numbers are equal.
pub(crate) fn same(place: u64, left: u64, right: u64) -> Result<(), RunFault>
    ensures ok { OnOk result (left ≡ right) }
    ensures err { IfErr result (Tells (left ≢ right)) }
{
    if left != right {
        return Err(RunFault::Disagree { place, left, right });
    }
    Ok(())
}
