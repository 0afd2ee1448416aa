//! What an application holds of a device: protection domains, memory regions, completion queues and queue pairs
//! (InfiniBand Architecture Specification, volume 1, chapter 10).
#![tactic(auto)]

ghost use Rattle.std.specs.Prelude.{◌≡◌};
ghost use Rattle.context_core.specs.Faults.{fault_of};
ghost use Rattle.context_core.specs.declared.ContextFault.TheVariants.{OutOfMemory, Refused};

mod arriving;
mod buffers;
mod coming;
mod copies;
mod counting;
mod datagrams;
mod differing;
mod domains;
mod draft;
mod ends;
mod image_links;
mod image_queues;
mod image_regions;
mod image_work;
mod images;
mod laws;
mod leaving;
mod links;
mod lives;
mod making;
mod memory;
mod naming;
mod new_ends;
mod polling;
mod postings;
mod queues;
mod readers;
mod receives;
mod regions;
mod requests;
mod rooms;
mod sending;
mod state;
mod timers;

pub use arriving::ArrivalOutcome;
pub use buffers::Buffers;
pub use draft::Draft;
pub use laws::a_context_looks_at_its_own_lists;
pub use lives::{LinkView, LiveEnd};
pub use making::NewEnd;
use memory_keys::MemFault;
use rdma_types::Refusal;
pub use regions::NewRegion;
pub use sending::{Answered, SendRow};
pub use state::{ContextState, EndSlot};
use std::alloc::AllocError;
use thiserror::Error;

/// Why an event does nothing.
#[derive(Clone, Copy, Debug, PartialEq, Eq, Error)]
pub enum ContextFault {
    /// It is refused.
    #[error("refused")]
    Refused(Refusal),
    /// There was no memory.
    #[error("out of memory")]
    OutOfMemory,
}

impl From<AllocError> for ContextFault {
    ghost from_gives = { λ _ e. e ≡ OutOfMemory };

    fn from(_e: AllocError) -> ContextFault {
        ContextFault::OutOfMemory
    }
}

impl From<Refusal> for ContextFault {
    ghost from_gives = { λ refusal e. e ≡ Refused refusal };

    fn from(refusal: Refusal) -> ContextFault {
        ContextFault::Refused(refusal)
    }
}

impl From<MemFault> for ContextFault {
    ghost from_gives = { λ fault e. e ≡ fault_of fault };

    fn from(fault: MemFault) -> ContextFault {
        match fault {
            MemFault::NumberTaken => ContextFault::Refused(Refusal::NumberTaken),
            MemFault::TooMany => ContextFault::Refused(Refusal::TooMany),
            MemFault::NoPage => ContextFault::Refused(Refusal::NoPage),
            MemFault::OutOfMemory => ContextFault::OutOfMemory,
        }
    }
}
