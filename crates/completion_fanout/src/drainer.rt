//! The one who polls a shared device for completions.

ghost use Rattle.std.specs.Prelude.{◌≡◌, ◌≤◌, ◌++◌, ◌∷◌, [], IfOk, MatchOption, None, OnErr, false, length};

use crate::Source;
use crate::plan::DRAINER;
use crate::told::put_polled;
use rdma_types::{Completion, Items};
use shared_device::Receipt;
use std::alloc::{AllocError, Global};
use std::sync::Wait;
use thread_workers::{Gate, OF_A, PlanFault, SharedDevices, Stepper, polls};

/// One who polls.
#[derive(Drop)]
struct Polling<'a, G> {
    hand: Stepper<'a, G>,
    /// The completions of its last poll that are still to be given; the next one stands at the end.
    waiting: Vec<Completion>,
}

impl<'a, G: Gate> Polling<'a, G> {
    /// Polls once.
    fn poll_once<R: Wait>(&mut self, rt: &R, alloc: Global) -> Result<(), PlanFault> {
        let mut guard = self.hand.lock(rt, OF_A)?;
        let receipt = self.hand.ask(rt, alloc, &mut guard, polls())?;
        put_polled(&mut self.waiting, &receipt.outcome().answer)?;
        self.waiting.reverse();
        self.hand.keep(receipt)?;
        Ok(())
    }

    /// Polls until there are completions, and after each poll that gives none waits until another one's turn has ended with
    /// news; false where all was halted.
    fn poll<R: Wait>(&mut self, rt: &R, alloc: Global) -> Result<bool, PlanFault> {
        for _ in rt.forever() {
            let seen = self.hand.end_turn(rt);
            if self.hand.is_halted(rt) {
                return Ok(false);
            }
            self.poll_once(rt, alloc)?;
            if !self.waiting.is_empty() {
                self.hand.end_turn(rt);
                return Ok(true);
            }
            if !self.hand.wait_for_news(rt, seen) {
                return Ok(false);
            }
        }
        unreachable!()
    }

    /// The next completion; None where all was halted.
    fn next<R: Wait>(&mut self, rt: &R, alloc: Global) -> Result<Option<Completion>, PlanFault> {
        if self.waiting.is_empty() && !self.poll(rt, alloc)? {
            return Ok(None);
        }
        Ok(self.waiting.pop())
    }
}

/// Worker 2, who polls the queue of a at device 1 for so many completions.
#[derive(Drop)]
pub struct Drainer<'a, G> {
    alloc: Global,
    site: &'a SharedDevices,
    polling: Polling<'a, G>,
    /// How many are to come in all.
    adds: u32,
    drained: Items<Completion>,
    /// All was halted before that, or it failed.
    is_cut: bool,
    fault: Option<PlanFault>,
}

/// A drainer that has ended.
#[derive(Drop)]
pub struct Drained {
    /// What it gave, in its order.
    pub completions: Items<Completion>,
    pub receipts: Items<Receipt>,
    /// Why it failed.
    pub fault: Option<PlanFault>,
}

impl<'a, G: Gate> Drainer<'a, G> {
    /// One for that many completions, with room for them. Errors: out of memory.
    pub fn make(
        alloc: Global,
        site: &'a SharedDevices,
        gate: &'a G,
        adds: u32,
    ) -> Result<Drainer<'a, G>, AllocError>
        ensures { IfOk result (λ d. d.drained ≡ []) }
    {
        let hand = Stepper::new(site, gate, DRAINER, Items::new(Vec::new(alloc)));
        let polling = Polling {
            hand,
            waiting: Vec::new(alloc),
        };
        Ok(Drainer {
            alloc,
            site,
            polling,
            adds,
            drained: Items::new(Vec::with_capacity(alloc, adds as usize)?),
            is_cut: false,
            fault: None,
        })
    }

    /// The next completion; None after the last, or where all was halted.
    fn draw<R: Wait>(&mut self, rt: &R) -> Result<Option<Completion>, PlanFault>
        ensures ok { IfOk result (λ given. MatchOption given (self.new.drained
            ≡ self.old.drained) (λ c. self.new.drained ≡ self.old.drained ++ c ∷ [])) }
        ensures ended { result ≡ Ok None → self.new.is_cut ≡ false
            → self.new.adds ≤ length self.new.drained }
        ensures err { OnErr result (self.new.drained ≡ self.old.drained) }
    {
        if self.drained.len() >= self.adds as usize {
            return Ok(None);
        }
        let Some(completion) = self.polling.next(rt, self.alloc)? else {
            self.is_cut = true;
            return Ok(None);
        };
        self.drained.push(completion)?;
        Ok(Some(completion))
    }

    /// All that it gave, its receipts, and why it failed.
    pub fn end(self) -> Drained
        ensures { result.completions ≡ self.entry.drained }
    {
        let Drainer {
            polling,
            drained,
            fault,
            ..
        } = self;
        let Polling { hand, .. } = polling;
        Drained {
            completions: drained,
            receipts: hand.into_receipts(),
            fault,
        }
    }
}

impl<'a, G: Gate> Source for Drainer<'a, G> {
    ghost use Rattle.std.specs.Prelude.{◌≡◌, ◌≤◌, false, length};

    ghost given = { λ d. d.drained };

    ghost ended = { λ d. d.is_cut ≡ false → d.adds ≤ length d.drained };

    /// Where it fails, all is halted.
    fn next<R: Wait>(&mut self, rt: &R) -> Option<Completion> {
        match self.draw(rt) {
            Ok(completion) => completion,
            Err(fault) => {
                self.is_cut = true;
                self.fault = Some(fault);
                self.site.orders.halt(rt);
                None
            }
        }
    }
}
