//! Why a run was not done.

ghost use Rattle.std.specs.Prelude.{◌≡◌, IfOk};
ghost use Rattle.command_line.specs.Sentences as spec;
ghost use Rattle.command_line.specs.Sentences.{ended_as};

use crate::error_sentences::meanings::meaning;
use crate::error_sentences::pieces::joined;
use std::alloc::{AllocError, Global};

/// How a run of the program ended.
#[derive(Clone, Copy)]
pub struct Ending<'a> {
    /// The status of the process.
    pub status: u8,
    /// The last line of its output, without its end.
    pub last: &'a [u8],
    /// What the system said of the call that failed; no bytes where it said nothing.
    pub reason: &'a [u8],
}

/// Two texts with a colon between.
fn with_colon(alloc: Global, front: &[u8], behind: &[u8]) -> Result<Vec<u8>, AllocError>
    ensures { IfOk result (λ text. text.items ≡ spec.with_colon front.now behind.now) }
{
    joined(alloc, &[front, b": ", behind])
}

/// What failed, and why.
fn failed(alloc: Global, what: &[u8], reason: &[u8]) -> Result<Vec<u8>, AllocError>
    ensures { IfOk result (λ text. text.items ≡ spec.failed what.now reason.now) }
{
    if reason.is_empty() {
        joined(alloc, &[what])
    } else {
        with_colon(alloc, what, reason)
    }
}

/// Why the run ended. Errors: `AllocError` when out of memory.
#[tactic(auto, unfolding(crate::specs::Sentences::cause))]
pub(crate) fn cause(alloc: Global, ending: &Ending<'_>) -> Result<Vec<u8>, AllocError>
    ensures { IfOk result (λ text. text.items
        ≡ spec.cause (ended_as ending.now.status ending.now.last.now ending.now.reason.now)) }
{
    match ending.status {
        4 => failed(alloc, b"standard input could not be read", ending.reason),
        5 => failed(
            alloc,
            b"standard output could not be written",
            ending.reason,
        ),
        6 => failed(alloc, b"the link failed", ending.reason),
        7 => failed(alloc, b"the depot failed", ending.reason),
        8 => joined(alloc, &[b"memory ran out"]),
        9 => joined(alloc, &[b"standard input has over 1048576 bytes"]),
        10 => joined(
            alloc,
            &[b"neither the run of the threads nor that of the caller is as planned"],
        ),
        _ => with_colon(alloc, ending.last, meaning(ending.last)),
    }
}
