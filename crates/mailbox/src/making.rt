//! The world that letters begin in.

ghost use Rattle.std.specs.Prelude.{◌≡◌, ◌+◌, ◌≤◌, ◌^◌, ◌∷◌, [], replicate, IfOk, OnOk, Some};
ghost use Rattle.rdma_types.specs.Limits.{most_bytes, most_region_bytes};
ghost use Rattle.protocol.specs.Events.{IsHandedOn, IsLawfulEvent};
ghost use Rattle.protocol.specs.State.{empty_world};
ghost use Rattle.protocol.specs.declared.events.Event.TheVariants as event;
ghost use Rattle.protocol.specs.declared.events.WorldEvent.TheVariants as world_event;
ghost use Rattle.mailbox_rules.specs.Opening as opening;
ghost use Rattle.mailbox_rules.specs.State as state;
ghost use Rattle.mailbox.specs.Steps.{IsMadeOf, Shows};

use crate::Mailbox;
use crate::channels::Channel;
use crate::events::{STAGING, place_address, receiver_receives, sender_receives};
use crate::names::{
    domain, queue, receiver, receiver_end, receiver_region, sender, sender_end, sender_region,
};
use rdma_types::{Address, Name, ObjName, Rights, Terms};
use std::alloc::{AllocError, Global};
use world_core::{Event, World, WorldEvent};

/// Bytes of the receiver's region for a sender: sixteen places and a landing place.
const RECEIVER_BYTES: u32 = 1_114_112;

/// Bytes of a sender's region: the staging bytes and the slot.
const SENDER_BYTES: u32 = 1_052_672;

/// Requests and receives that each end may have.
const DEPTH: u8 = 16;

/// The terms of each connection.
const TERMS: Terms = Terms {
    mtu: 1024,
    own_start: 0,
    peer_start: 0,
    retry: 7,
    rnr: 7,
    reads: 4,
};

/// A thing of a context is made.
fn make(alloc: Global, world: &mut World, event: Event) -> Result<(), AllocError>
    requires { IsHandedOn event × IsLawfulEvent event }
    ensures { OnOk result (IsMadeOf world.old world.new (opening.at event ∷ [])) }
{
    world.step(alloc, &WorldEvent::At { event })?;
    Ok(())
}

/// Device `id` at 10.0.0.id.
fn add_device(alloc: Global, world: &mut World, id: u8) -> Result<(), AllocError>
    requires { 1 ≤ id }
    ensures { OnOk result (IsMadeOf world.old world.new (opening.device id ∷ [])) }
{
    let address = Address {
        ip: 0x0a00_0000 + u32::from(id),
        port: 4791,
    };
    world.step(alloc, &WorldEvent::AddDevice { id, address })?;
    Ok(())
}

/// The domain of a context.
fn make_domain(context: Name) -> Event
    ensures event { opening.at result ≡ opening.at
        (event.MakeDomain (opening.object context opening.domain_name)) }
    ensures lawful { IsHandedOn result × IsLawfulEvent result }
{
    let name = ObjName {
        context,
        name: domain(),
    };
    Event::MakeDomain { name }
}

/// The completion queue of a context.
fn make_queue(context: Name, capacity: u32) -> Event
    requires { (1 ≤ capacity) × (capacity ≤ 512) }
    ensures event { opening.at result ≡ opening.at
        (event.MakeCq (opening.object context opening.queue_name) capacity) }
    ensures lawful { IsHandedOn result × IsLawfulEvent result }
{
    let name = ObjName {
        context,
        name: queue(),
    };
    Event::MakeCq { name, capacity }
}

/// A context is made.
fn make_context(alloc: Global, world: &mut World, name: Name, device: u8) -> Result<(), AllocError>
    ensures { OnOk result (IsMadeOf world.old world.new
        (world_event.MakeContext name device ∷ [])) }
{
    world.step(alloc, &WorldEvent::MakeContext { name, device })?;
    Ok(())
}

/// A context with its domain and its completion queue.
fn add_context(
    alloc: Global,
    world: &mut World,
    context: Name,
    device: u8,
    capacity: u32,
) -> Result<(), AllocError>
    requires { (1 ≤ capacity) × (capacity ≤ 512) }
    ensures { OnOk result (IsMadeOf world.old world.new
        (opening.context_events context device capacity)) }
{
    make_context(alloc, world, context, device)?;
    make(alloc, world, make_domain(context))?;
    make(alloc, world, make_queue(context, capacity))
}

/// A region, with its rights.
fn region(name: ObjName, base: u64, length: u32, rights: Rights) -> Event
    requires base { base ≤ 2 ^ 63 }
    requires length { (1 ≤ length) × (length ≤ most_region_bytes) }
    requires rights { rights.0 ≤ 15 }
    ensures event { result ≡ event.MakeRegion name (Some opening.domain_name) base length rights }
    ensures lawful { IsHandedOn result × IsLawfulEvent result }
{
    Event::MakeRegion {
        name,
        domain: Some(domain()),
        base,
        length,
        rights,
    }
}

/// The receiver's region for sender `i`.
fn places(i: u8) -> Event
    ensures event { opening.at result ≡ opening.region_event (opening.receiver_region i)
        (opening.place_address i 0) (65536 + most_bytes) 1 }
    ensures lawful { IsHandedOn result × IsLawfulEvent result }
{
    region(
        receiver_region(i),
        place_address(i, 0),
        RECEIVER_BYTES,
        Rights(1),
    )
}

/// The region of sender `i`.
fn slot(i: u8) -> Event
    ensures event { opening.at result ≡ opening.region_event
        (opening.sender_region i) opening.staging_address (4096 + most_bytes) 5 }
    ensures lawful { IsHandedOn result × IsLawfulEvent result }
{
    region(sender_region(i), STAGING, SENDER_BYTES, Rights(5))
}

/// An end, whose requests and receives complete in the context's one queue.
fn end(name: ObjName) -> Event
    ensures event { opening.at result ≡ opening.end_event name }
    ensures lawful { IsHandedOn result × IsLawfulEvent result }
{
    Event::MakeQp {
        name,
        domain: Some(domain()),
        send_cq: Some(queue()),
        recv_cq: Some(queue()),
        send_depth: u32::from(DEPTH),
        recv_depth: u32::from(DEPTH),
    }
}

/// The two ends of connection `i` are connected.
fn connect(alloc: Global, world: &mut World, i: u8) -> Result<(), AllocError>
    ensures { OnOk result (IsMadeOf world.old world.new
        (world_event.Connect (opening.receiver_end i) (opening.sender_end i) opening.terms ∷ [])) }
{
    let event = WorldEvent::Connect {
        one: receiver_end(i),
        two: sender_end(i),
        terms: TERMS,
    };
    world.step(alloc, &event)?;
    Ok(())
}

/// The regions and the ends of connection `i`, and the connection.
fn join(alloc: Global, world: &mut World, i: u8) -> Result<(), AllocError>
    ensures { OnOk result (IsMadeOf world.old world.new (opening.joining_events most_bytes i)) }
{
    make(alloc, world, places(i))?;
    make(alloc, world, slot(i))?;
    make(alloc, world, end(receiver_end(i)))?;
    make(alloc, world, end(sender_end(i)))?;
    connect(alloc, world, i)
}

/// All receives of connection `i` are posted.
fn post_receives(alloc: Global, world: &mut World, i: u8) -> Result<(), AllocError>
    ensures { OnOk result (IsMadeOf world.old world.new (opening.receives_events i opening.depth)) }
{
    for k in 0..DEPTH {
        make(alloc, world, receiver_receives(i, k))?;
        make(alloc, world, sender_receives(i, k))?;
    }
    Ok(())
}

/// Sender `i` and its connection, with all receives posted.
fn add_sender(alloc: Global, world: &mut World, i: u8) -> Result<(), AllocError>
    ensures { OnOk result (IsMadeOf world.old world.new (opening.sender_events most_bytes i)) }
{
    add_context(alloc, world, sender(i), 2, 64)?;
    join(alloc, world, i)?;
    post_receives(alloc, world, i)
}

/// So many senders.
fn add_senders(alloc: Global, world: &mut World, peers: u8) -> Result<(), AllocError>
    ensures { OnOk result (IsMadeOf world.old world.new (opening.senders_events most_bytes peers)) }
{
    for i in 0..peers {
        add_sender(alloc, world, i + 1)?;
    }
    Ok(())
}

/// Three devices, and the receiver on the first.
fn open(alloc: Global, world: &mut World) -> Result<(), AllocError>
    ensures { OnOk result (IsMadeOf world.old world.new opening.first_events) }
{
    add_device(alloc, world, 1)?;
    add_device(alloc, world, 2)?;
    add_device(alloc, world, 3)?;
    add_context(alloc, world, receiver(), 1, 512)
}

/// So many connections before the first letter.
fn fresh_channels(alloc: Global, peers: u8) -> Result<Vec<Channel>, AllocError>
    ensures { IfOk result (λ channels. channels.items ≡ replicate peers state.fresh_channel) }
{
    let mut channels = Vec::new(alloc);
    for _made in 0..peers {
        channels.push(Channel::fresh(alloc))?;
    }
    Ok(channels)
}

impl Mailbox {
    /// A mailbox of so many senders, 1 to 8. Errors: `AllocError` when out of memory.
    pub fn make(alloc: Global, peers: u8) -> Result<Mailbox, AllocError>
        requires { (1 ≤ peers) × (peers ≤ 8) }
        ensures { IfOk result (λ mail. Shows mail (state.made peers)) }
    {
        let mut world = World::make(alloc)?;
        open(alloc, &mut world)?;
        add_senders(alloc, &mut world, peers)?;
        Ok(Mailbox {
            world,
            channels: fresh_channels(alloc, peers)?,
            owed: Vec::new(alloc),
        })
    }
}
