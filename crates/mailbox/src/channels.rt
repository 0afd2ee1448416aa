//! What is known of each connection.

ghost use Rattle.std.specs.Prelude.{◌≡◌, ◌-◌, ◌||◌, slice_get};
ghost use Rattle.mailbox_rules.specs.State as rules;
ghost use Rattle.mailbox_rules.specs.State.{fresh_channel};
ghost use Rattle.mailbox_rules.specs.Working as working;
ghost use Rattle.mailbox.specs.Steps.{changed};

use mailbox_rules::{Arrival, Side};
use std::alloc::Global;
use std::marker::Model;

/// The connection of one sender.
#[derive(Drop)]
pub(crate) struct Channel {
    /// The letters that arrived and are not taken, in order.
    pub(crate) arrived: Vec<Arrival>,
    /// The messages that were copied.
    pub(crate) receives: u64,
    /// The bodies that were copied.
    pub(crate) reads: u64,
    /// Whether the body in the slot may still be fetched.
    pub(crate) slot_in_use: bool,
    /// Whether a completion of that end had an error.
    pub(crate) receiver_ended: bool,
    pub(crate) sender_ended: bool,
}

impl Model for Channel {
    ghost use Rattle.mailbox_rules.specs.State as rules;

    ghost Value = { rules.Channel };

    ghost view = { λ c. record { arrived = c.arrived.items; receives = c.receives; reads = c.reads; slot_in_use = c.slot_in_use; receiver_ended = c.receiver_ended; sender_ended = c.sender_ended } };
}

impl Channel {
    /// A connection before the first letter.
    pub(crate) fn fresh(alloc: Global) -> Channel
        ensures { result ≡ fresh_channel }
    {
        Channel {
            arrived: Vec::new(alloc),
            receives: 0,
            reads: 0,
            slot_in_use: false,
            receiver_ended: false,
            sender_ended: false,
        }
    }

    /// Whether a completion of that end with an error was polled.
    pub(crate) fn has_ended(&self, side: Side) -> bool
        ensures { result ≡ rules.has_ended side self.now }
    {
        match side {
            Side::AtReceiver => self.receiver_ended,
            Side::AtSender => self.sender_ended,
        }
    }

    /// A completion of that end with an error was polled.
    pub(crate) fn end(&mut self, side: Side)
        ensures { self.new ≡ rules.ending side self.old }
    {
        match side {
            Side::AtReceiver => self.receiver_ended = true,
            Side::AtSender => self.sender_ended = true,
        }
    }

    /// A letter is sent, whose body stands in the slot or not.
    fn use_slot(&mut self, is_stored: bool)
        ensures { self.new ≡ record self.old { slot_in_use = self.old.slot_in_use || is_stored } }
    {
        self.slot_in_use = self.slot_in_use || is_stored;
    }

    /// The slot is free.
    pub(crate) fn free_slot(&mut self)
        ensures { self.new ≡ working.freeing self.old }
    {
        self.slot_in_use = false;
    }
}

/// The place of sender `i` in the list.
pub(crate) fn place_of(i: u8) -> usize
    ensures { result ≡ i - 1 }
{
    usize::from(i).saturating_sub(1)
}

/// Whether a completion of one end of connection `i` with an error was polled.
pub(crate) fn has_ended_at(channels: &[Channel], side: Side, i: u8) -> bool
    ensures { result ≡ rules.has_ended side (rules.or_fresh (slice_get channels.now (i - 1))) }
{
    match channels.get(place_of(i)) {
        Some(channel) => channel.has_ended(side),
        None => false,
    }
}

/// Whether the body in the slot of sender `i` may still be fetched.
pub(crate) fn is_slot_used(channels: &[Channel], i: u8) -> bool
    ensures { result ≡ (rules.or_fresh (slice_get channels.now (i - 1))).slot_in_use }
{
    match channels.get(place_of(i)) {
        Some(channel) => channel.slot_in_use,
        None => false,
    }
}

/// A completion of one end of connection `i` with an error was polled.
pub(crate) fn end_at(channels: &mut Vec<Channel>, side: Side, i: u8)
    ensures { channels.new.items ≡ changed channels.old.items i (rules.ending side) }
{
    let place = place_of(i);
    if place < channels.len() {
        channels[place].end(side);
    }
}

/// The slot of sender `i` is free.
pub(crate) fn free_at(channels: &mut Vec<Channel>, i: u8)
    ensures { channels.new.items ≡ changed channels.old.items i working.freeing }
{
    let place = place_of(i);
    if place < channels.len() {
        channels[place].free_slot();
    }
}

/// One more letter of sender `i` is sent, whose body stands in the slot or not.
pub(crate) fn use_slot_at(channels: &mut Vec<Channel>, i: u8, is_stored: bool)
    ensures { channels.new.items ≡ changed channels.old.items i
        (λ c. record c { slot_in_use = c.slot_in_use || is_stored }) }
{
    let place = place_of(i);
    if place < channels.len() {
        channels[place].use_slot(is_stored);
    }
}
