//! Steps of the device. The datagrams that they make wait to leave.

ghost use Rattle.std.specs.Prelude.{◌≡◌, IfOk, OnOk, OnErr};
ghost use Rattle.protocol.specs.Events.{IsLawfulEvent};
ghost use Rattle.serve_rules.specs.Server as rules;

use crate::state::Server;
use device_core::{Event, Outcome, Sent};
use rdma_types::{Address, Items, ObjName};
use std::alloc::{AllocError, Global};
use std::collections::VecDeque;

impl Server {
    /// Steps an event. Errors: `AllocError` when out of memory, and all is as before.
    #[tactic(auto, unfolding(serve_rules::specs::Server::after, serve_rules::specs::Server::outcome_of))]
    pub(crate) fn advance(&mut self, alloc: Global, event: &Event) -> Result<Outcome, AllocError>
        requires { IsLawfulEvent event.now }
        ensures server { OnOk result (self.new ≡ rules.after self.old event.now) }
        ensures outcome { IfOk result (λ o. o ≡ rules.outcome_of self.old event.now) }
        ensures err { OnErr result (self.new ≡ self.old) }
    {
        self.device.step(alloc, event)
    }

    /// .. the arrival of bytes. Errors: `AllocError` when out of memory, and all is as before.
    #[tactic(auto, unfolding(serve_rules::specs::Server::after, serve_rules::specs::Server::outcome_of))]
    pub(crate) fn advance_arrival(
        &mut self,
        alloc: Global,
        from: Address,
        bytes: &[u8],
    ) -> Result<Outcome, AllocError>
        ensures server { OnOk result (self.new ≡ rules.after self.old
            (Event.Arrive from bytes.now)) }
        ensures outcome { IfOk result (λ o. o ≡ rules.outcome_of self.old
            (Event.Arrive from bytes.now)) }
    {
        self.device.arrive(alloc, from, bytes)
    }

    /// Datagrams wait behind the others. Errors: `AllocError` when out of memory.
    #[tactic(auto, unfolding(serve_rules::specs::Server::queued))]
    pub(crate) fn queue(&mut self, sent: Items<Sent>) -> Result<(), AllocError>
        ensures { OnOk result (self.new ≡ rules.queued self.old sent) }
    {
        self.tallies.count_made(sent.len());
        let mut list = VecDeque::from_vec(sent.into_vec());
        self.outgoing.append(&mut list)?;
        self.device.give_back_list(list.into_vec());
        Ok(())
    }

    /// Steps an event, and its datagrams wait. Errors: `AllocError` when out of memory.
    fn step(&mut self, alloc: Global, event: &Event) -> Result<(), AllocError>
        requires { IsLawfulEvent event.now }
        ensures { OnOk result (self.new ≡ rules.stepped self.old event.now) }
    {
        let outcome = self.advance(alloc, event)?;
        self.queue(outcome.sent)
    }

    /// The RNR timer of a queue pair is over. Errors: `AllocError` when out of memory.
    pub(crate) fn end_wait(&mut self, alloc: Global, end: &ObjName) -> Result<(), AllocError>
        ensures { OnOk result (self.new ≡ rules.stepped self.old (Event.RnrOver end.now)) }
    {
        self.step(alloc, &Event::RnrOver { end: *end })
    }

    /// A queue pair expires. Errors: `AllocError` when out of memory.
    pub(crate) fn expire(&mut self, alloc: Global, end: &ObjName) -> Result<(), AllocError>
        ensures { OnOk result (self.new ≡ rules.stepped self.old (Event.Expire end.now)) }
    {
        self.step(alloc, &Event::Expire { end: *end })
    }

    /// A queue pair sends once, if it can, and whether it did. Errors: `AllocError` when out of memory.
    pub(crate) fn step_transmit(
        &mut self,
        alloc: Global,
        end: &ObjName,
    ) -> Result<Outcome, AllocError>
        ensures server { OnOk result (self.new ≡ rules.after self.old (Event.Transmit end.now)) }
        ensures outcome { IfOk result (λ o. o ≡ rules.outcome_of self.old
            (Event.Transmit end.now)) }
    {
        self.advance(alloc, &Event::Transmit { end: *end })
    }
}
