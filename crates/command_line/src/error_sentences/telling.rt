//! The sentence on a run.

ghost use Rattle.std.specs.Prelude.{◌≡◌, IfOk, map};
ghost use Rattle.std.specs.String.{string_bytes};
ghost use Rattle.command_line.specs.Sentences as spec;
ghost use Rattle.command_line.specs.Sentences.{ended_as};

use crate::error_sentences::ending::{Ending, cause};
use crate::error_sentences::pieces::joined;
use crate::error_sentences::shown::named;
use crate::error_sentences::usage::usage_sentence;
use std::alloc::{AllocError, Global};

/// The sentence on a run of the words, without the program's name, that was not done: `jichurpa`, the command, a colon, what is
/// wrong, and a newline. It is printable ASCII but for the newline, where the last line and the reason are.
///
/// # Errors
///
/// When out of memory.
#[tactic(auto, unfolding(crate::specs::Sentences::sentence))]
pub fn sentence(alloc: Global, words: &[String], ending: &Ending<'_>) -> Result<Vec<u8>, AllocError>
    ensures { IfOk result (λ text. text.items ≡ spec.sentence (map string_bytes words.now)
        (ended_as ending.now.status ending.now.last.now ending.now.reason.now)) }
{
    if ending.status == 2 {
        return usage_sentence(alloc, words);
    }
    let named = named(alloc, words)?;
    let cause = cause(alloc, ending)?;
    joined(
        alloc,
        &[
            b"jichurpa",
            named.as_slice(),
            b": ",
            cause.as_slice(),
            b"\n",
        ],
    )
}
