//! Why a script is not answered to its end.

ghost use Rattle.std.specs.Prelude.{◌≡◌};
ghost use Rattle.script_runner.specs.declared.fault.PlayFault.TheVariants as fault;

use host_ports::WriteFault;
use script_lang::LineWhy;
use std::alloc::AllocError;
use thiserror::Error;

/// Why a script is not answered to its end.
#[derive(Clone, Copy, Debug, Error)]
pub enum PlayFault {
    /// The line of this number, counted from 1, is in no form. The column, counted in bytes from 1, is that of its first
    /// word that is wrong, or one past its end where a word is missing.
    #[error("a line is in no form")]
    BadLine {
        line: u64,
        column: usize,
        why: LineWhy,
    },
    #[error("the output could not be written")]
    WriteFault,
    #[error("out of memory")]
    OutOfMemory,
}

impl From<WriteFault> for PlayFault {
    ghost from_gives = { λ _ e. e ≡ fault.WriteFault };

    fn from(_e: WriteFault) -> PlayFault {
        PlayFault::WriteFault
    }
}

impl From<AllocError> for PlayFault {
    ghost from_gives = { λ _ e. e ≡ fault.OutOfMemory };

    fn from(_e: AllocError) -> PlayFault {
        PlayFault::OutOfMemory
    }
}
