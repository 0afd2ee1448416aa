//! Why a device is not emptied.

ghost use Rattle.std.specs.Prelude.{◌≡◌};
ghost use Rattle.evac_plan.specs.declared.fault.EvacFault.TheVariants as fault;

use evac_rules::{Shifted, StayReason};
use rdma_types::Name;
use std::alloc::AllocError;

/// Why a device is not emptied.
#[derive(Drop)]
pub enum EvacFault {
    /// The device or a target is not there. Nothing was done.
    NoSuch,
    /// A context stays, and so do those after it. Those before it moved.
    Stays {
        moved: Vec<Shifted>,
        context: Name,
        why: StayReason,
    },
    /// Some steps were made; a context may be carried.
    OutOfMemory,
}

impl From<AllocError> for EvacFault {
    ghost from_gives = { λ _ e. e ≡ fault.OutOfMemory };

    fn from(_e: AllocError) -> EvacFault {
        EvacFault::OutOfMemory
    }
}
