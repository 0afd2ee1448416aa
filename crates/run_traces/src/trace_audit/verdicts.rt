//! What an audit of a trace finds.

ghost use Rattle.std.specs.Prelude.{◌≡◌};
ghost use Rattle.run_traces.specs.declared.trace_audit.verdicts.AuditFault.TheVariants as fault;

use script_lang::LineWhy;
use std::alloc::AllocError;

/// Why a trace is no run of the machine.
#[derive(Clone, Copy)]
pub enum AuditWhy {
    /// An inner step is not enabled, or a key or number can not be given.
    Step,
    /// A line of an answer is not the machine's.
    Answer,
}

/// What an audit finds of a trace that is in its grammar.
#[derive(Clone, Copy)]
pub enum Verdict {
    /// A run of the machine, of so many verbs and inner steps.
    Legal { verbs: u64, inner: u64 },
    /// The number, from 1, of the first line that can be of no run.
    Illegal { line: u64, why: AuditWhy },
}

/// Why a trace is not audited.
#[derive(Clone, Copy)]
pub enum AuditFault {
    /// The line of this number, counted from 1, is the first that is in no form. The column, counted in bytes from 1, is
    /// that of its first word that is wrong, or one past its end where something is missing.
    BadLine {
        line: u64,
        column: usize,
        why: LineWhy,
    },
    OutOfMemory,
}

impl From<AllocError> for AuditFault {
    ghost from_gives = { λ _ e. e ≡ fault.OutOfMemory };

    fn from(_e: AllocError) -> AuditFault {
        AuditFault::OutOfMemory
    }
}
