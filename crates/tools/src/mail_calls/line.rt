//! The line of a plan.

ghost use Rattle.std.specs.Prelude.{◌≡◌, IfOk};
ghost use Rattle.tools.specs.Mails.{line_with};

use crate::endings::put;
use mailbox::{MailPlan, MailSum};
use std::alloc::{AllocError, Global};

/// The line `mail letters L moves M taken T` of a plan and of what was sent and taken. Errors: `AllocError` when out of memory.
#[tactic(auto, using(std::proofs::lemmas::List::append_assoc))]
pub(crate) fn line_of(alloc: Global, plan: &MailPlan, sum: &MailSum) -> Result<Vec<u8>, AllocError>
    ensures { IfOk result (λ text. text.items ≡ line_with plan.now sum.now.letters sum.now.taken) }
{
    let mut text = Vec::new(alloc);
    put(&mut text, b"mail letters ", sum.letters)?;
    put(&mut text, b" moves ", u64::from(plan.moves))?;
    put(&mut text, b" taken ", sum.taken)?;
    text.extend_from_slice(b"\n")?;
    Ok(text)
}
