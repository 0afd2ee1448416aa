//! Datagrams that were taken arrive.

ghost use Rattle.std.specs.Prelude.{◌≡◌, OnOk};
ghost use Rattle.serve_rules.specs.Turns as rules;

use crate::state::Server;
use device_core::destination;
use rdma_types::{Address, Answer, ArrivalEffect};
use std::alloc::{AllocError, Global};

/// Datagrams that arrive in a turn at most.
const ARRIVALS: usize = 64;

/// While so many datagrams wait to leave, none arrives.
const CROWD: usize = 256;

/// Whether an arrival did something.
fn is_heard(answer: &Answer) -> bool
    ensures { result ≡ rules.is_heard answer.now }
{
    match answer {
        Answer::Took {
            took: ArrivalEffect::Silent(_),
            ..
        } => false,
        _ => true,
    }
}

impl Server {
    /// The queue pair may have something to send, where the arrival did something. Errors: `AllocError` when out of memory.
    fn wake_if(&mut self, is_heard: bool, number: u32) -> Result<(), AllocError>
        ensures { OnOk result (self.new ≡ rules.woken_if is_heard self.old number) }
    {
        if is_heard { self.wake(number) } else { Ok(()) }
    }

    /// An arrival is counted, and its queue pair may have something to send. Errors: `AllocError` when out of memory.
    #[tactic(auto, unfolding(serve_rules::specs::Turns::noted))]
    fn note(&mut self, answer: &Answer, number: u32) -> Result<(), AllocError>
        ensures { OnOk result (self.new ≡ rules.noted self.old answer.now number) }
    {
        self.tallies.count_arrival(answer);
        self.wake_if(is_heard(answer), number)
    }

    /// A datagram arrives. Errors: `AllocError` when out of memory.
    #[tactic(auto, unfolding(serve_rules::specs::Turns::arrived))]
    pub(crate) fn arrive(
        &mut self,
        alloc: Global,
        from: Address,
        bytes: &[u8],
    ) -> Result<(), AllocError>
        ensures { OnOk result (self.new ≡ rules.arrived self.old from bytes.now) }
    {
        let outcome = self.advance_arrival(alloc, from, bytes)?;
        self.note(&outcome.answer, destination(bytes))?;
        self.queue(outcome.sent)
    }

    /// Whether so many datagrams wait to leave that none arrives.
    pub(crate) fn is_crowded(&self) -> bool
        ensures { result ≡ rules.is_crowded self.now }
    {
        self.outgoing.len() >= CROWD
    }

    /// The first datagram that was taken arrives, if there is one. Errors: `AllocError` when out of memory.
    fn arrive_first(&mut self, alloc: Global) -> Result<(), AllocError>
        ensures { OnOk result (self.new ≡ rules.arrived_first self.old self.old.inbox) }
    {
        match self.inbox.pop_front() {
            None => Ok(()),
            Some((from, bytes)) => self.arrive(alloc, from, bytes.as_slice()),
        }
    }

    /// One more arrives, unless too many wait to leave. Errors: `AllocError` when out of memory.
    #[tactic(auto, unfolding(serve_rules::specs::Turns::arrived_next))]
    fn arrive_next(&mut self, alloc: Global) -> Result<(), AllocError>
        ensures { OnOk result (self.new ≡ rules.arrived_next self.old) }
    {
        if self.is_crowded() {
            Ok(())
        } else {
            self.arrive_first(alloc)
        }
    }

    /// First part of a turn: up to 64 datagrams that were taken arrive. Errors: `AllocError` when out of memory.
    pub(crate) fn arrive_many(&mut self, alloc: Global) -> Result<(), AllocError>
        ensures { OnOk result (self.new ≡ rules.arrived_many 64 self.old) }
    {
        for _ in 0..ARRIVALS {
            self.arrive_next(alloc)?;
        }
        Ok(())
    }
}
