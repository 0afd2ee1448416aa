//! The network's events, and settling.

ghost use Rattle.std.specs.Prelude.{◌≡◌, IfErr, IfOk, OnErr};
ghost use Rattle.protocol.specs.Events.{IsLawfulWorldEvent};
ghost use Rattle.protocol.specs.Settle.{settled};
ghost use Rattle.mailbox_rules.specs.Calls as rules;
ghost use Rattle.mailbox_rules.specs.State as state;
ghost use Rattle.mailbox.specs.Steps.{ByFault, IsPartOfSettling, Replies, SettlesTo, Shows};

use crate::Mailbox;
use mailbox_rules::MailFault;
use rdma_types::Answer;
use std::alloc::{AllocError, Global};
use world_core::{Event, Quiet, Settler, WorldEvent};

/// Whether an event of a context is a transmission, an expiry or the end of an RNR timer.
fn is_turn(event: &Event) -> bool
    ensures { result ≡ rules.is_turn event.now }
{
    matches!(
        event,
        Event::Transmit { end: _ } | Event::Expire { end: _ } | Event::RnrOver { end: _ }
    )
}

/// Whether the network may have an event.
fn is_of_network(event: &WorldEvent) -> bool
    ensures { result ≡ rules.is_of_network event.now }
{
    match event {
        WorldEvent::Deliver { k: _ }
        | WorldEvent::Lose { k: _ }
        | WorldEvent::Wire { k: _ }
        | WorldEvent::Stop { context: _ }
        | WorldEvent::Restore {
            context: _,
            device: _,
        }
        | WorldEvent::Release {
            context: _,
            device: _,
        } => true,
        WorldEvent::At { event } => is_turn(event),
        _ => false,
    }
}

impl Mailbox {
    /// An event of the network: a delivery, a loss, a look at a datagram, a stop, a restore, a release, a transmission, an expiry or
    /// the end of an RNR timer.
    ///
    /// # Errors
    ///
    /// `NotNetwork` exactly where it is another one; or `OutOfMemory`. Nothing has changed then.
    pub fn network(&mut self, alloc: Global, event: &WorldEvent) -> Result<Answer, MailFault>
        requires { IsLawfulWorldEvent event.now }
        ensures ok { IfOk result (λ answer. (m : state.Mail) → Shows self.old m
            → Replies self.new (rules.Answers answer) (rules.calls m (rules.Network event.now))) }
        ensures err { IfErr result (λ why. ByFault why (self.new ≡ self.old) ((m : state.Mail)
            → Shows self.old m
            → Replies self.new (rules.Refused why) (rules.calls m (rules.Network event.now)))) }
    {
        if !is_of_network(event) {
            return Err(MailFault::NotNetwork);
        }
        Ok(self.world.step(alloc, event)?)
    }

    /// All settles. Errors: `AllocError` when out of memory, after the first events of the settling.
    pub fn settle<T: Settler>(&mut self, alloc: Global, settler: &T) -> Result<Quiet, AllocError>
        ensures ok { IfOk result (λ quiet. (m : state.Mail) → Shows self.old m
            → SettlesTo self.new quiet.unfinished m) }
        ensures rounds { IfOk result (λ quiet. quiet.rounds ≡ (settled self.old.world).rounds) }
        ensures cut { OnErr result ((m : state.Mail) → Shows self.old m
            → IsPartOfSettling self.new m) }
    {
        settler.settle(alloc, &mut self.world)
    }
}
