//! Orders of the steps of devices that threads share, and what is true of each such order (this project's choice).
#![tactic(auto)]

ghost use Rattle.order_rules.specs.Bridge.{CopiesStand};
ghost use Rattle.order_rules.specs.Openings.{AreOpenedApart};

use protocol::{Event, Outcome};

/// What a worker holds of a step that it asked of a device.
#[derive(Drop)]
pub struct Receipt {
    pub worker: u32,
    /// The device's id.
    pub device: u8,
    /// Which step of that device it was, counted from 0.
    pub place: u64,
    pub event: Event,
    pub outcome: Outcome,
}

/// A step in the order of all devices' steps.
#[derive(Clone, Copy, Debug, PartialEq, Eq)]
pub struct OrderEntry {
    /// The device's id.
    pub device: u8,
    /// Which step of that device it was, counted from 0.
    pub place: u64,
    /// The number of the first datagram that the step sent, and of the next one where it sent none.
    pub first: u64,
    /// How many it sent.
    pub count: u64,
}

/// A datagram that was sent may be sent again, and the world stands for the same state of the packetless machine.
pub fn copies_stand()
    ensures { CopiesStand }
{}

/// Each opening device comes by events of its own, without a world.
pub fn devices_open_apart()
    ensures { AreOpenedApart }
{}
