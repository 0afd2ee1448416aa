//! The steps of the packetless machine, and why one is not made.
#![tactic(auto)]

ghost use Rattle.std.specs.Prelude.{◌≡◌};
ghost use Rattle.packetless_machine.specs.declared.steps.IdealFault.TheVariants.{OutOfMemory};

use rdma_types::{ObjName, RefusalReason, Verb};
use std::alloc::AllocError;

/// Why a step is not made.
#[derive(Clone, Copy, Debug)]
pub enum IdealFault {
    /// No case of the machine's steps holds.
    NotEnabled,
    /// An allocation failed.
    OutOfMemory,
}

impl From<AllocError> for IdealFault {
    ghost from_gives = { λ _ e. e ≡ OutOfMemory };

    fn from(_e: AllocError) -> IdealFault {
        IdealFault::OutOfMemory
    }
}

/// A step: a verb of an application, or an inner step that no application sees.
#[derive(Drop)]
pub enum MachineStep {
    /// A verb, and the local key or the number that it gives.
    Verb {
        verb: Verb,
        given: u32,
    },
    /// The next bytes of the current Write or Send are put in place.
    Run {
        q: ObjName,
        n: u32,
    },
    /// The current atomic acts.
    Atom {
        q: ObjName,
    },
    /// The current Read has its turn.
    ReadTurn {
        q: ObjName,
    },
    /// The peer refuses the current request.
    Refuse {
        q: ObjName,
        why: RefusalReason,
    },
    /// The current request finds no receive.
    Dry {
        q: ObjName,
    },
    /// The peer offers bytes of a Read.
    Offer {
        q: ObjName,
        i: u32,
        off: u32,
        n: u32,
    },
    /// An offer lands.
    Land {
        q: ObjName,
        o: u32,
    },
    /// The owner learns of bytes in place.
    Known {
        q: ObjName,
        m: u32,
    },
    /// The owner learns that a request is finished.
    Tell {
        q: ObjName,
    },
    /// An expiry is counted.
    Expire {
        q: ObjName,
    },
    /// A wait for a receive is counted.
    Wait {
        q: ObjName,
    },
    /// The owner learns of the refusal.
    Bounce {
        q: ObjName,
    },
}
