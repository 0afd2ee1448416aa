//! Work, step by step.

ghost use Rattle.std.specs.Prelude.{◌≡◌, ◌≤◌, IfOk, IfSome, OnErr, OnOk};
ghost use Rattle.std.specs.List.{position};
ghost use Rattle.mailbox_rules.specs.State as state;
ghost use Rattle.mailbox_rules.specs.Working as rules;
ghost use Rattle.mailbox.specs.Steps.{Goes, IsPartOfWork, IsStep, Shows};

use crate::Mailbox;
use crate::names::context_at;
use mailbox_rules::Due;
use std::alloc::{AllocError, Global};
use world_core::World;

/// Most steps of one call.
const MOST_STEPS: u32 = 65_536;

/// The context that a thing is due in.
fn context_of(due: &Due) -> u8
    ensures { result ≡ rules.context_of due.now }
{
    match due {
        Due::FreeSlot { i, place: _ } | Due::RepostAtSender { i, place: _ } => *i,
        _ => 0,
    }
}

/// Whether the image of context `n` is carried.
pub(crate) fn is_away(world: &World, n: u8) -> bool
    ensures { result ≡ state.is_away world.now n }
{
    world.carried(context_at(n)).is_some()
}

/// Where the first thing stands that can be done now.
fn first_due(world: &World, owed: &[Due]) -> Option<usize>
    ensures { result ≡ position (rules.may_be_done world.now) owed.now }
{
    owed.iter().position(|due| !is_away(world, context_of(due)))
}

impl Mailbox {
    /// One step of work, where context `next` is polled next; and the context that is polled after it, or None where there was
    /// nothing to do.
    fn step(&mut self, alloc: Global, next: u8) -> Result<Option<u8>, AllocError>
        requires { next ≤ 9 }
        ensures ok { IfOk result (λ then'. (m : state.Mail) → Shows self.old m
            → IsStep (rules.work_step (record { mail = m; next = next })) then' self.new m) }
        ensures next { IfOk result (λ then'. IfSome then' (λ n. n ≤ 9)) }
        ensures err { OnErr result (self.new ≡ self.old) }
    {
        if let Some(k) = first_due(&self.world, self.owed.as_slice()) {
            let due = self.owed[k];
            self.do_due(alloc, k, due)?;
            return Ok(Some(next));
        }
        if usize::from(next) > self.channels.len() {
            return Ok(None);
        }
        Ok(Some(self.visit(alloc, next)?))
    }

    /// The contexts are polled until their queues are empty, the receiver first and then the senders in order, and what their
    /// completions make due is done. Errors: `AllocError` when out of memory, after some of the steps.
    pub fn work(&mut self, alloc: Global) -> Result<(), AllocError>
        ensures ok { OnOk result (Goes self.old self.new rules.working) }
        ensures cut { OnErr result ((m : state.Mail) → Shows self.old m → IsPartOfWork self.new m) }
    {
        let mut next = 0;
        for _made in 0..MOST_STEPS {
            match self.step(alloc, next)? {
                Some(n) => next = n,
                None => return Ok(()),
            }
        }
        Ok(())
    }
}
