//! The line of completions that were handed out.

ghost use Rattle.std.specs.Prelude.{◌≡◌, IfOk};
ghost use Rattle.tools.specs.Fanout.{entries_in, fanout_line};

use crate::endings::put;
use crate::thread_calls::line::whose_word;
use completion_fanout::{FanEntry, FanPlan, FannedRun};
use rdma_types::Items;
use std::alloc::{AllocError, Global};

/// How many entries stand in some lists. Errors: out of memory, where the number has more than 64 bits.
fn entries(lists: &[Items<FanEntry>]) -> Result<u64, AllocError>
    ensures { IfOk result (λ n. n ≡ entries_in lists.now) }
{
    let mut count = 0u64;
    for list in lists {
        let Some(more) = count.checked_add(list.len() as u64) else {
            return Err(AllocError);
        };
        count = more;
    }
    Ok(count)
}

/// The line `fanout consumers C adds A drained D taken T left L by W`; W is `caller` where the caller made the run itself,
/// and else `threads`. Errors: `AllocError` when out of memory.
#[tactic(auto, using(std::proofs::lemmas::List::append_assoc))]
pub fn fan_line_of(alloc: Global, plan: &FanPlan, fanned: &FannedRun) -> Result<Vec<u8>, AllocError>
    ensures { IfOk result (λ text. text.items ≡ fanout_line plan.now fanned.now) }
{
    let mut text = Vec::new(alloc);
    put(&mut text, b"fanout consumers ", u64::from(plan.consumers))?;
    put(&mut text, b" adds ", u64::from(plan.adds))?;
    put(&mut text, b" drained ", fanned.drained.len() as u64)?;
    put(&mut text, b" taken ", entries(fanned.taken.as_slice())?)?;
    put(&mut text, b" left ", fanned.left.len() as u64)?;
    text.extend_from_slice(b" by ")?;
    text.extend_from_slice(whose_word(fanned.run.alone))?;
    Ok(text)
}
