//! What the program cannot go on from.

use context_dump::DumpFault;
use std::alloc::{AllocError, AllocFailed};

/// What the program cannot go on from.
#[derive(Debug, Drop, thiserror::Error)]
pub(crate) enum Fault {
    #[error("out of memory")]
    OutOfMemory,
    #[error("no name is spelled so")]
    NoName,
    #[error("no device has that id")]
    NoDevice,
    #[error("the context did not stop")]
    NoImage,
    #[error("the bytes are no dump")]
    NoDump,
}

impl From<AllocError> for Fault {
    fn from(_: AllocError) -> Fault {
        Fault::OutOfMemory
    }
}

impl<T: Drop> From<AllocFailed<T>> for Fault {
    fn from(_: AllocFailed<T>) -> Fault {
        Fault::OutOfMemory
    }
}

impl From<DumpFault> for Fault {
    fn from(fault: DumpFault) -> Fault {
        match fault {
            DumpFault::BadDump { .. } => Fault::NoDump,
            DumpFault::OutOfMemory => Fault::OutOfMemory,
        }
    }
}
