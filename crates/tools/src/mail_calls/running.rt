//! The run of a plan, and its line.

ghost use Rattle.std.specs.Prelude.{◌≡◌, IfOk};
ghost use Rattle.mailbox_rules.specs.Command.{mail_line};
ghost use Rattle.tools.specs.Mails.{EndsMail, IsPlan};

use crate::endings::end_with;
use crate::mail_calls::line::line_of;
use host_ports::Sink;
use mailbox::{MailPlan, run_mail};
use settle_core::Rounds;
use std::alloc::{AllocError, Global};

/// Makes the calls of the plan, and gives its line.
fn text_of(alloc: Global, plan: &MailPlan) -> Result<Vec<u8>, AllocError>
    requires { IsPlan plan.now }
    ensures { IfOk result (λ text. text.items ≡ mail_line plan.now) }
{
    let sum = run_mail(alloc, plan, &Rounds)?;
    line_of(alloc, plan, &sum)
}

/// Makes the calls of the plan, writes its line, and gives the status: 0, or 5 where the line could not be written. Where memory
/// runs out the status is 8 and the line `out of memory`.
#[tactic(auto, using(crate::proofs::MailEnding::ended_done, crate::proofs::MailEnding::ended_without_memory))]
pub fn run_mail_plan<K: Sink>(alloc: Global, plan: &MailPlan, output: &mut K) -> u8
    requires { IsPlan plan.now }
    ensures { EndsMail plan.now (K.held output.old) (K.held output.new) (K.faults output.old)
        (K.faults output.new) result }
{
    match text_of(alloc, plan) {
        Ok(text) => end_with(text.as_slice(), 0, output),
        Err(AllocError) => end_with(b"out of memory\n", 8, output),
    }
}
