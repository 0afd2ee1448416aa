//! A pool of pages that lists of pages share, with a copy made before a shared page is written (copy on write). Pages,
//! their size and how they are counted are this project's choices.
#![tactic(auto)]

ghost use Rattle.std.specs.Prelude.{◌≡◌};
ghost use Rattle.page_pool.specs.declared.PoolFault.TheVariants.{OutOfMemory};

mod claims;
mod frames;
mod page;
mod page_bytes;
mod pool;

pub use byte_run::ByteRun;
pub use pool::{PageList, PagePool};
use std::alloc::AllocError;
use thiserror::Error;

/// How many bytes a page has.
pub const PAGE: usize = 4096;

/// Why a pool gives no pages.
#[derive(Clone, Copy, Debug, PartialEq, Eq, Error)]
pub enum PoolFault {
    /// Fewer pages are free than were asked for.
    #[error("too few free pages")]
    NoPage,
    /// There was no memory for what keeps the list.
    #[error("out of memory")]
    OutOfMemory,
}

impl From<AllocError> for PoolFault {
    ghost from_gives = { λ _ e. e ≡ OutOfMemory };

    fn from(_e: AllocError) -> PoolFault {
        PoolFault::OutOfMemory
    }
}

/// The bytes of a request as they were when it was posted: `length` bytes of a list from `first` on, which are inside
/// the list.
#[derive(Drop)]
pub struct Payload {
    pub list: PageList,
    pub first: u32,
    pub length: u32,
}

impl Payload {
    /// The payload in the list of the same number, for a copy of its pool.
    pub fn in_copied_pool(&self) -> Payload
        ensures { result ≡ self.now }
    {
        Payload {
            list: self.list.in_copied_pool(),
            first: self.first,
            length: self.length,
        }
    }
}

/// Bytes that a pool did not take in, and why.
#[derive(Drop)]
pub struct LowerError {
    pub bytes: ByteRun,
    pub why: PoolFault,
}
