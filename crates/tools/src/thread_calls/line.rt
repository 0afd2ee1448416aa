//! The line of a run.

ghost use Rattle.std.specs.Prelude.{◌≡◌, IfOk};
ghost use Rattle.tools.specs.Threads.{threads_line, whose};

use crate::endings::put;
use std::alloc::{AllocError, Global};
use thread_workers::{Run, ThreadPlan};

/// Whose run it is.
pub fn whose_word(alone: bool) -> &'static [u8]
    ensures { result.now ≡ whose alone }
{
    if alone { b"caller\n" } else { b"threads\n" }
}

/// The line `threads workers W adds A moves M word X completions C by T` of a run; T is `caller` where the caller made the
/// run itself, and else `threads`. Errors: `AllocError` when out of memory.
#[tactic(auto, using(std::proofs::lemmas::List::append_assoc))]
pub fn line_of(alloc: Global, plan: &ThreadPlan, run: &Run) -> Result<Vec<u8>, AllocError>
    ensures { IfOk result (λ text. text.items ≡ threads_line plan.now run.now) }
{
    let mut text = Vec::new(alloc);
    put(&mut text, b"threads workers ", u64::from(plan.workers))?;
    put(&mut text, b" adds ", u64::from(plan.adds))?;
    put(&mut text, b" moves ", u64::from(plan.moves))?;
    put(&mut text, b" word ", run.word)?;
    put(&mut text, b" completions ", run.completions)?;
    text.extend_from_slice(b" by ")?;
    text.extend_from_slice(whose_word(run.alone))?;
    Ok(text)
}
