//! The completions that receipts tell of.

ghost use Rattle.std.specs.Prelude.{◌≡◌, ◌++◌, IfOk, OnOk, IsTrue};
ghost use Rattle.run_check.specs.Gathered.{drained_by, polled};

use rdma_types::{Answer, Completion};
use shared_device::Receipt;
use std::alloc::{AllocError, Global};
use step_differences::same_completions;

/// Puts the completions of a poll at the end.
pub fn put_polled(completions: &mut Vec<Completion>, answer: &Answer) -> Result<(), AllocError>
    ensures { OnOk result (completions.new.items ≡ completions.old.items ++ polled answer.now) }
{
    match answer {
        Answer::Polled(more) => completions.extend_from_slice(more.as_slice()),
        _ => Ok(()),
    }
}

/// All completions in some receipts, in their order.
pub fn told_by(alloc: Global, held: &[Receipt]) -> Result<Vec<Completion>, AllocError>
    ensures { IfOk result (λ completions. completions.items ≡ drained_by held.now) }
{
    let mut completions = Vec::new(alloc);
    for receipt in held {
        put_polled(&mut completions, &receipt.outcome().answer)?;
    }
    Ok(completions)
}

/// Whether the completions are those that the receipts tell of, in their order.
pub fn are_told(
    alloc: Global,
    held: &[Receipt],
    completions: &[Completion],
) -> Result<bool, AllocError>
    ensures { IfOk result (λ b. IsTrue b → completions.now ≡ drained_by held.now) }
{
    let told = told_by(alloc, held)?;
    Ok(same_completions(completions, told.as_slice()))
}
