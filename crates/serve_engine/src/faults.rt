//! Why a run ended before its input.

ghost use Rattle.std.specs.Prelude.{◌≡◌};
ghost use Rattle.serve_engine.specs.declared.faults.ServeFault.TheVariants as fault;

use std::alloc::AllocError;
use thiserror::Error;

/// Why a run ended before its input.
#[derive(Clone, Copy, Debug, PartialEq, Eq, Error)]
pub enum ServeFault {
    #[error("the link did not start")]
    LinkFault,
    #[error("the output could not be written")]
    WriteFault,
    #[error("out of memory")]
    OutOfMemory,
}

impl From<AllocError> for ServeFault {
    ghost from_gives = { λ _ e. e ≡ fault.OutOfMemory };

    fn from(_e: AllocError) -> ServeFault {
        ServeFault::OutOfMemory
    }
}
