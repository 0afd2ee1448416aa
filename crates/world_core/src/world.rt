//! A world, and its steps.

ghost use Rattle.std.specs.Prelude.{◌≡◌, ◌<◌, ◌^◌, length, None, IfOk, IsOk, OnErr};
ghost use Rattle.protocol.specs.Events.{IsLawfulWorldEvent};
ghost use Rattle.protocol.specs.declared.events.Event.TheVariants as event;
ghost use Rattle.protocol.specs.declared.events.WorldEvent.TheVariants as world_event;
ghost use Rattle.protocol.specs.State.{empty_world};
ghost use Rattle.protocol.specs.WorldStep.{world_step};
ghost use Rattle.law_kept_datagrams.specs.Alike.{with_kept_datagrams};
ghost use Rattle.world_core.specs.Causes.{world_refusal};
ghost use Rattle.world_core.specs.Delivered.{DeliversWithin};
ghost use Rattle.world_core.specs.Followed.{IsFollowed};
ghost use Rattle.world_core.specs.Kept.{IsReady, Makes, TakesNoMemory};
ghost use Rattle.world_core.specs.Places.{HaveOwnIds};

use crate::laws::steps_are_followed;
use crate::stops::Stops;
use device_core::{Device, Draft};
use fabric::Fabric;
use indexmap::IndexMap;
use protocol::WorldEvent;
use rdma_types::{Answer, Name, ObjName};
use std::alloc::{AllocError, Global};
use std::marker::Model;

/// The largest number that a step may give the next datagram; where that number is larger, the step answers that it is out of memory.
const MOST_SENT: u64 = 1 << 62;

/// Devices, the network between them, and the carried images of stopped contexts. Contracts see every datagram ever
/// sent, where those that the network keeps no more are blank.
#[derive(Drop)]
pub struct World {
    pub(crate) devices: Vec<Device>,
    /// The place of the device with an id.
    pub(crate) ids: IndexMap<u8, usize>,
    /// The place of the device with an IP address and a port.
    pub(crate) ports: IndexMap<(u32, u16), usize>,
    /// The place of the device where a context lives.
    pub(crate) homes: IndexMap<Name, usize>,
    pub(crate) fabric: Fabric,
    pub(crate) stops: Stops,
    /// What a step of a device sends, and memory for datagrams.
    pub(crate) draft: Draft,
}

impl Model for World {
    ghost use Rattle.std.specs.Prelude.{bytes_eq, nat_eq};
    ghost use Rattle.indexmap.specs.IndexMap.{get};
    ghost use Rattle.protocol.specs.State as state;
    ghost use Rattle.world_core.specs.Places.{AreParts, port_eq};

    ghost Value = { state.World };

    ghost view = { λ w. record { devices = w.devices.items; sent = w.fabric; carried = w.stops.carried; stopped = w.stops.stopped } };

    ghost invariant = { λ w. AreParts w.devices.items w.stops.carried (λ k. get nat_eq w.ids k) (λ a. get port_eq w.ports a) (λ n. get bytes_eq w.homes n) };
}

impl World {
    /// A world with no device, no datagram and no image. Errors: `AllocError` when out of memory.
    pub fn make(alloc: Global) -> Result<World, AllocError>
        ensures { IfOk result (λ w. w ≡ empty_world) }
    {
        let fabric = Fabric::make(alloc)?;
        Ok(World {
            devices: Vec::new(alloc),
            ids: IndexMap::new(alloc),
            ports: IndexMap::new(alloc),
            homes: IndexMap::new(alloc),
            fabric,
            stops: Stops::make(alloc),
            draft: Draft::make(alloc)?,
        })
    }

    /// What an event does: the first refusal in its order, or its answer. In an answer the first datagram sent has its
    /// number in the network, counted from 1. A delivery changes no byte of a region but those that its datagram may change
    /// on the device that has its address.
    ///
    /// # Errors
    ///
    /// `AllocError` when out of memory, and then no refusal is due, or where 2^62 datagrams were sent; nothing has changed. No
    /// memory is taken for a connection, a loss and a release, for what takes none on a device (`Device::step`), and for the
    /// delivery of a datagram that is gone, lost or aged, or does nothing where it comes.
    pub fn step(&mut self, alloc: Global, event: &WorldEvent) -> Result<Answer, AllocError>
        requires { IsLawfulWorldEvent event.now }
        ensures ok { IfOk result (λ answer. Makes (world_step self.old event.now) answer self.new) }
        ensures followed { IfOk result (λ answer. IsFollowed self.old event.now answer self.new) }
        ensures touched { IfOk result (λ answer. DeliversWithin event.now self.old self.new) }
        ensures kept { with_kept_datagrams self.old ≡ self.old }
        ensures ids { HaveOwnIds self.old.devices }
        ensures never_out_of_memory { TakesNoMemory self.old event.now
            → length self.old.sent < 2 ^ 62 → IsOk result }
        ensures refused_first { length self.old.sent < 2 ^ 62
            → OnErr result (world_refusal self.old event.now ≡ None) }
        ensures err { OnErr result (self.new ≡ self.old) }
    {
        steps_are_followed();
        if self.fabric.next() > MOST_SENT {
            return Err(AllocError);
        }
        self.act(alloc, event)
    }

    /// The step on the event that an end transmits: its next packet, where it may send one. A refusal is an answer.
    ///
    /// # Errors
    ///
    /// `AllocError` when out of memory, and then no refusal is due, or where 2^62 datagrams were sent; nothing has changed.
    pub fn transmit(&mut self, alloc: Global, end: &ObjName) -> Result<Answer, AllocError>
        ensures ok { IfOk result (λ answer. Makes
            (world_step self.old (world_event.At (event.Transmit end.now))) answer self.new) }
        ensures kept { with_kept_datagrams self.old ≡ self.old }
        ensures ids { HaveOwnIds self.old.devices }
        ensures refused_first { length self.old.sent < 2 ^ 62
            → OnErr result (world_refusal self.old (world_event.At (event.Transmit end.now))
            ≡ None) }
        ensures err { OnErr result (self.new ≡ self.old) }
    {
        if self.fabric.next() > MOST_SENT {
            return Err(AllocError);
        }
        self.transmit_at(alloc, end)
    }

    /// What an event does, where the network has numbers for it.
    fn act(&mut self, alloc: Global, event: &WorldEvent) -> Result<Answer, AllocError>
        requires lawful { IsLawfulWorldEvent event.now }
        requires ready { IsReady self.old }
        ensures ok { IfOk result (λ answer. Makes (world_step self.old event.now) answer self.new) }
        ensures touched { IfOk result (λ answer. DeliversWithin event.now self.old self.new) }
        ensures never_out_of_memory { TakesNoMemory self.old event.now → IsOk result }
        ensures refused_first { OnErr result (world_refusal self.old event.now ≡ None) }
        ensures err { OnErr result (self.new ≡ self.old) }
    {
        match event {
            WorldEvent::AddDevice { id, address } => self.add_device(alloc, *id, *address),
            WorldEvent::MakeContext { name, device } => self.make_context(alloc, *name, *device),
            WorldEvent::At { event } => self.step_at(alloc, event),
            WorldEvent::Connect { one, two, terms } => Ok(self.connect(alloc, one, two, terms)),
            WorldEvent::Deliver { k } => self.deliver(alloc, *k),
            WorldEvent::Lose { k } => Ok(self.lose(*k)),
            WorldEvent::Wire { k } => self.wire(alloc, *k),
            WorldEvent::Stop { context } => self.stop(alloc, *context),
            WorldEvent::Restore { context, device } => self.restore(alloc, *context, *device),
            WorldEvent::Release { context, device } => self.release(alloc, *context, *device),
        }
    }
}
