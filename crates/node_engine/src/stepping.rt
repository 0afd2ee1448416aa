//! Steps of the device, and the datagrams that they send.

ghost use Rattle.std.specs.Prelude.{◌≡◌, IfOk, IfSome, OnOk};
ghost use Rattle.node_rules.specs.Node as rules;
ghost use Rattle.protocol.specs.Events.{IsLawfulEvent};
ghost use Rattle.protocol.specs.Lawful.{IsLawful};
ghost use Rattle.node_engine.specs.Answered.{Does, DoesAll};
ghost use Rattle.node_engine.specs.Names.{stepping_pair, with_outcome};

use crate::NodeFault;
use crate::ports::Ports;
use crate::state::Node;
use device_core::{ContextImage, Event, Outcome, Sent};
use rdma_types::{Address, Items};
use std::alloc::{AllocError, Global};

/// Sends datagrams, one after the other.
fn send_all<P: Ports>(ports: &mut P, sent: &[Sent]) -> Result<(), NodeFault>
    ensures { DoesAll (rules.sending sent.now) (P.contents ports.old) result
        (P.contents ports.new) }
{
    for datagram in sent {
        ports.send(datagram.to, datagram.bytes.as_slice())?;
    }
    Ok(())
}

impl Node {
    /// Steps an event, and counts the datagrams that are to be sent. Errors: `AllocError` when out of memory.
    #[tactic(auto, unfolding(node_rules::specs::Node::node_after, node_rules::specs::Node::node_outcome))]
    fn advance(&mut self, alloc: Global, event: &Event) -> Result<Outcome, AllocError>
        requires { IsLawfulEvent event.now }
        ensures node { OnOk result (self.new ≡ rules.node_after self.old event.now) }
        ensures outcome { IfOk result (λ o. o ≡ rules.node_outcome self.old event.now) }
        ensures image { IfOk result (λ o. IfSome o.image (λ i. IsLawful i)) }
    {
        let outcome = self.device.step(alloc, event)?;
        self.sent = self.sent.saturating_add(outcome.sent.len() as u64);
        Ok(outcome)
    }

    /// .. the arrival of bytes.
    #[tactic(auto, unfolding(node_rules::specs::Node::node_after, node_rules::specs::Node::node_outcome))]
    fn advance_arrival(
        &mut self,
        alloc: Global,
        from: Address,
        bytes: &[u8],
    ) -> Result<Outcome, AllocError>
        ensures node { OnOk result (self.new ≡ rules.node_after self.old
            (Event.Arrive from bytes.now)) }
        ensures outcome { IfOk result (λ o. o ≡ rules.node_outcome self.old
            (Event.Arrive from bytes.now)) }
    {
        let outcome = self.device.arrive(alloc, from, bytes)?;
        self.sent = self.sent.saturating_add(outcome.sent.len() as u64);
        Ok(outcome)
    }

    /// .. the restore of an image.
    #[tactic(auto, unfolding(node_rules::specs::Node::node_after, node_rules::specs::Node::node_outcome))]
    fn advance_restore(
        &mut self,
        alloc: Global,
        image: &ContextImage,
    ) -> Result<Outcome, AllocError>
        requires { IsLawful image.now }
        ensures node { OnOk result (self.new ≡ rules.node_after self.old
            (Event.Restore image.now)) }
        ensures outcome { IfOk result (λ o. o ≡ rules.node_outcome self.old
            (Event.Restore image.now)) }
    {
        let outcome = self.device.restore(alloc, image)?;
        self.sent = self.sent.saturating_add(outcome.sent.len() as u64);
        Ok(outcome)
    }

    /// Steps an event, and sends its datagrams at once.
    pub(crate) fn step<P: Ports>(
        &mut self,
        alloc: Global,
        ports: &mut P,
        event: &Event,
    ) -> Result<Outcome, NodeFault>
        requires { IsLawfulEvent event.now }
        ensures image { IfOk result (λ o. IfSome o.image (λ i. IsLawful i)) }
        ensures stepped { Does (stepping_pair self.old event.now) (with_outcome self.new)
            (P.contents ports.old) result (P.contents ports.new) }
    {
        let outcome = self.advance(alloc, event)?;
        send_all(ports, outcome.sent.as_slice())?;
        Ok(outcome)
    }

    /// Steps the arrival of bytes, and sends its datagrams at once.
    pub(crate) fn step_arrival<P: Ports>(
        &mut self,
        alloc: Global,
        ports: &mut P,
        from: Address,
        bytes: &[u8],
    ) -> Result<Outcome, NodeFault>
        ensures { Does (stepping_pair self.old (Event.Arrive from bytes.now))
            (with_outcome self.new) (P.contents ports.old) result (P.contents ports.new) }
    {
        let outcome = self.advance_arrival(alloc, from, bytes)?;
        send_all(ports, outcome.sent.as_slice())?;
        Ok(outcome)
    }

    /// Steps the restore of an image, and sends its datagrams at once.
    pub(crate) fn step_restore<P: Ports>(
        &mut self,
        alloc: Global,
        ports: &mut P,
        image: &ContextImage,
    ) -> Result<Outcome, NodeFault>
        requires { IsLawful image.now }
        ensures { Does (stepping_pair self.old (Event.Restore image.now)) (with_outcome self.new)
            (P.contents ports.old) result (P.contents ports.new) }
    {
        let outcome = self.advance_restore(alloc, image)?;
        send_all(ports, outcome.sent.as_slice())?;
        Ok(outcome)
    }

    /// Hands the memory of datagrams that were sent back to the device, to be filled again.
    pub(crate) fn give_back(&mut self, sent: Items<Sent>)
        ensures { self.new ≡ self.old }
    {
        let mut list = sent.into_vec();
        for datagram in list.drain(..) {
            self.device.give_back(datagram.bytes);
        }
        self.device.give_back_list(list);
    }
}
