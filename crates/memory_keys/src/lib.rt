//! Memory regions over a pool of pages, found by their keys: what a place in memory grants, and its bytes (InfiniBand
//! Architecture Specification, volume 1, chapter 10).
#![tactic(auto)]

ghost use Rattle.std.specs.Prelude.{◌≡◌};
ghost use Rattle.memory_keys.specs.Faults.{fault_of};
ghost use Rattle.memory_keys.specs.declared.MemFault.TheVariants.{OutOfMemory};

mod bytes;
mod copying;
mod keyed;
mod laws;
mod making;
mod regions;

pub use laws::{
    other_lists_are_no_matter, regions_stay_whatever_their_bytes, spots_are_the_protocols_places,
    spots_have_the_protocols_bytes, stores_are_the_protocols_writes,
};
pub use page_pool::Payload;
use page_pool::{PageList, PoolFault};
use rdma_types::{Keys, Name, Rights};
pub use regions::Regions;
use std::alloc::AllocError;
use thiserror::Error;

/// A part of a region: `length` bytes from byte `off` on of the region with that local key. A spot of no bytes is of no
/// region.
#[derive(Clone, Copy, Debug, PartialEq, Eq)]
pub struct RegionRange {
    pub region: u32,
    pub off: u32,
    pub length: u32,
}

/// What is told of a region: its name, its protection domain, the address of its first byte, how many bytes it has, what
/// may be done with it, and its keys.
#[derive(Clone, Copy)]
pub struct RegionHead {
    pub name: Name,
    pub domain: Name,
    pub base: u64,
    pub length: u32,
    pub rights: Rights,
    pub keys: Keys,
}

/// A region and the list of its pages.
#[derive(Drop)]
pub struct RegisteredRegion {
    pub head: RegionHead,
    pub list: PageList,
}

/// Why a call that takes pages is refused.
#[derive(Clone, Copy, Debug, PartialEq, Eq, Error)]
pub enum MemFault {
    /// A region of this name is there.
    #[error("the name is taken")]
    NumberTaken,
    /// There are as many regions as a context may have.
    #[error("too many regions")]
    TooMany,
    /// Fewer pages are free than were asked for.
    #[error("too few free pages")]
    NoPage,
    /// There was no memory.
    #[error("out of memory")]
    OutOfMemory,
}

impl From<AllocError> for MemFault {
    ghost from_gives = { λ _ e. e ≡ OutOfMemory };

    fn from(_e: AllocError) -> MemFault {
        MemFault::OutOfMemory
    }
}

impl From<PoolFault> for MemFault {
    ghost from_gives = { λ fault e. e ≡ fault_of fault };

    fn from(fault: PoolFault) -> MemFault {
        match fault {
            PoolFault::NoPage => MemFault::NoPage,
            PoolFault::OutOfMemory => MemFault::OutOfMemory,
        }
    }
}
