//! Queue pairs that send.

ghost use Rattle.std.specs.Prelude.{◌≡◌, OnOk};
ghost use Rattle.device_core.specs.Numbered.{numbered_view};
ghost use Rattle.serve_rules.specs.Server as server;
ghost use Rattle.serve_rules.specs.Turns as rules;
ghost use Rattle.serve_rules.specs.Timers.{is_resuming as resumes};

use crate::state::Server;
use rdma_types::{EndState, EndView};
use std::alloc::{AllocError, Global};

/// Queue pairs that may send once in a turn at most.
const SENDS: usize = 64;

/// Whether a queue pair was moved, and its partner is not heard since.
fn is_resuming(state: EndState) -> bool
    ensures { result ≡ resumes state }
{
    match state {
        EndState::Resuming => true,
        _ => false,
    }
}

impl Server {
    /// A queue pair that sent something is looked at, and may have more. Errors: `AllocError` when out of memory.
    #[tactic(auto, unfolding(serve_rules::specs::Turns::sent_view))]
    fn note_sent(&mut self, view: &EndView) -> Result<(), AllocError>
        ensures { OnOk result (self.new ≡ rules.sent_view self.old view.now) }
    {
        self.observe(view)?;
        if is_resuming(view.state) {
            self.observe_resume(view)?;
        }
        self.wake(view.number)
    }

    /// .. the one with that number, where it is there. Errors: `AllocError` when out of memory.
    fn note_sent_from(&mut self, number: u32) -> Result<(), AllocError>
        ensures { OnOk result (self.new ≡ rules.sent_by self.old
            (numbered_view self.old.device number)) }
    {
        match self.device.end_numbered(number) {
            Some(view) => self.note_sent(&view),
            None => Ok(()),
        }
    }

    /// A queue pair sends once, if it can. Errors: `AllocError` when out of memory.
    #[tactic(auto, unfolding(serve_rules::specs::Turns::transmitted))]
    fn transmit(&mut self, alloc: Global, view: &EndView) -> Result<(), AllocError>
        ensures { OnOk result (self.new ≡ rules.transmitted self.old view.now) }
    {
        let outcome = self.step_transmit(alloc, &view.name)?;
        let is_sent = outcome.sent.len() > 0;
        self.queue(outcome.sent)?;
        if is_sent {
            self.note_sent_from(view.number)
        } else {
            Ok(())
        }
    }

    /// A queue pair may send once. Errors: `AllocError` when out of memory.
    #[tactic(auto, unfolding(serve_rules::specs::Turns::sent_once))]
    fn send_once(&mut self, alloc: Global, view: &EndView) -> Result<(), AllocError>
        ensures { OnOk result (self.new ≡ rules.sent_once self.old view.now) }
    {
        self.observe(view)?;
        if self.may_send(view) {
            self.transmit(alloc, view)
        } else {
            Ok(())
        }
    }

    /// .. the one with that number, where it lives here. Errors: `AllocError` when out of memory.
    fn send_from(&mut self, alloc: Global, number: u32) -> Result<(), AllocError>
        ensures { OnOk result (self.new ≡ rules.sent_from self.old number
            (numbered_view self.old.device number)) }
    {
        match self.device.end_numbered(number) {
            Some(view) => self.send_once(alloc, &view),
            None => {
                self.drop_timer(number);
                Ok(())
            }
        }
    }

    /// One more queue pair may send once. Errors: `AllocError` when out of memory.
    #[tactic(auto, unfolding(serve_rules::specs::Turns::sent_next))]
    fn send_next(&mut self, alloc: Global) -> Result<(), AllocError>
        ensures { OnOk result (self.new ≡ rules.sent_next self.old) }
    {
        match self.ready.pop_front() {
            None => Ok(()),
            Some(number) => self.send_from(alloc, number),
        }
    }

    /// Second part of a turn: up to 64 queue pairs that may have something to send each send once, one after the other.
    /// Errors: `AllocError` when out of memory.
    pub(crate) fn send_many(&mut self, alloc: Global) -> Result<(), AllocError>
        ensures { OnOk result (self.new ≡ rules.sent_many 64 self.old) }
    {
        for _ in 0..SENDS {
            self.send_next(alloc)?;
        }
        Ok(())
    }
}
