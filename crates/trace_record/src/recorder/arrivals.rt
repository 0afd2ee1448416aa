//! A datagram that is delivered.
#![tactic(auto)]

ghost use Rattle.std.specs.Prelude.{◌≡◌, ◌≤◌, ◌+◌, ◌++◌, ℕ, Bool, length, OnOk, IfOk};
ghost use Rattle.packetless_machine.specs.Legal.{IsRun};
ghost use Rattle.packetless_machine.specs.Machine.{end_of};
ghost use Rattle.law_simulation.specs.Carries as carries;
ghost use Rattle.law_simulation.specs.Named as named;
ghost use Rattle.law_simulation.specs.Packets.{aeth_class, class_of, nak_class};
ghost use Rattle.roce_headers.specs.Packets.{packet};
ghost use Rattle.trace_record.specs.Steps.{HasDue, HasNumbers};
ghost use Rattle.trace_record.specs.Arrivals as rules;
ghost use Rattle.trace_record.specs.Arrivals.{HasItsNumbers, IsArrival, IsArrivalAt, IsBeside, arrival_steps, is_live_state, is_paused_state, sort_of};

use crate::trace_steps::{acknowledge, bytes_of, land, land_old, request};
use packetless_machine::{MachineStep, PacketlessMachine};
use rdma_types::{ArrivalEffect, EndState, ObjName};
use roce_headers::opcodes::{ACKNOWLEDGE, ATOMIC_ACKNOWLEDGE, is_read_response, is_request};
use roce_headers::{Aeth, Datagram, Syndrome, decode};
use std::alloc::AllocError;
use world_core::World;

/// What may be done by a datagram that comes to an end in Rts, before that end took it.
#[derive(Clone, Copy)]
pub(crate) enum Arrival {
    Nothing,
    /// Request `n` of the end `q`, with so many bytes.
    Request {
        q: ObjName,
        n: u64,
        bytes: u32,
    },
    /// READ response `n` to the end `q`, and the place of its offer where it has bytes.
    Read {
        q: ObjName,
        n: u64,
        offer: Option<usize>,
    },
    /// The answer to the atomic `n` of the end `q`.
    Old {
        q: ObjName,
        n: u64,
    },
    /// An acknowledgement to the end `q` of all numbers below a limit, or a NAK.
    Acknowledge {
        q: ObjName,
        limit: u64,
    },
}

/// The sorts of datagrams that differ in the steps that they cause.
#[derive(Clone, Copy)]
pub(crate) enum DatagramKind {
    Request,
    ReadResponse,
    AtomicResponse,
    Ack,
    /// A sequence error, a refusal, or a receiver that is not ready.
    Nak,
    /// A message of moving.
    Other,
}

/// The sort of a NAK with a code.
#[tactic(auto, using(crate::proofs::Sorts::small_nak, crate::proofs::Sorts::large_nak))]
fn sort_of_nak(code: u8) -> DatagramKind
    ensures { (count : ℕ) → result ≡ sort_of (nak_class code count) }
{
    if code <= 2 {
        DatagramKind::Nak
    } else {
        DatagramKind::Other
    }
}

/// The sort of a datagram with an acknowledge header.
#[tactic(auto, unfolding(law_simulation::specs::Packets::aeth_class, law_simulation::specs::Packets::syndrome_class))]
fn sort_of_aeth(aeth: Option<Aeth>) -> DatagramKind
    ensures { result ≡ sort_of (aeth_class aeth) }
{
    let Some(aeth) = aeth else {
        return DatagramKind::Other;
    };
    match aeth.syndrome {
        Syndrome::Ack => DatagramKind::Ack,
        Syndrome::Rnr => DatagramKind::Nak,
        Syndrome::Nak(code) => sort_of_nak(code),
    }
}

/// The sort of a datagram.
fn sort_of(d: &Datagram<'_>) -> DatagramKind
    ensures { result ≡ sort_of (class_of (packet d.now)) }
{
    if is_request(d.opcode) {
        return DatagramKind::Request;
    }
    if is_read_response(d.opcode) {
        return DatagramKind::ReadResponse;
    }
    if d.opcode == ATOMIC_ACKNOWLEDGE {
        return DatagramKind::AtomicResponse;
    }
    if d.opcode == ACKNOWLEDGE {
        return sort_of_aeth(d.aeth);
    }
    DatagramKind::Other
}

/// Request `n` of the peer of an end.
fn request_arrival(
    machine: &PacketlessMachine,
    q: &ObjName,
    is_paused: bool,
    n: u64,
    bytes: &[u8],
) -> Arrival
    requires peer { HasDue (end_of machine.now (end_of machine.now q.now).peer) }
    requires short { length bytes.now ≤ 4096 }
    ensures named { IsArrivalAt machine.now is_paused q.now n bytes.now DatagramKind.Request
        result }
    ensures numbers { HasItsNumbers machine.now result }
{
    if is_paused {
        return Arrival::Nothing;
    }
    Arrival::Request {
        q: machine.peer(q),
        n,
        bytes: bytes.len() as u32,
    }
}

/// READ response `n` to an end. Errors: `AllocError` where an offset is 2^32 or more.
fn read_arrival(
    machine: &PacketlessMachine,
    q: &ObjName,
    n: u64,
    bytes: &[u8],
) -> Result<Arrival, AllocError>
    requires { HasNumbers (end_of machine.now q.now) }
    ensures named { IfOk result (λ a. (paused : Bool)
        → IsArrivalAt machine.now paused q.now n bytes.now DatagramKind.ReadResponse a) }
    ensures numbers { IfOk result (HasItsNumbers machine.now) }
{
    if bytes.len() == 0 {
        return Ok(Arrival::Read {
            q: *q,
            n,
            offer: None,
        });
    }
    let place = machine.place_of(q, n);
    let offset = bytes_of(place.1, machine.mtu(q))?;
    let offer = machine.offer_place(q, place.0, offset, bytes);
    Ok(Arrival::Read {
        q: *q,
        n,
        offer: Some(offer),
    })
}

/// The lesser of a number and that of the first Read or atomic of an end that is not told.
fn before_barrier(machine: &PacketlessMachine, q: &ObjName, n: u64) -> u64
    requires { HasNumbers (end_of machine.now q.now) }
    ensures { result ≡ carries.before_barrier machine.now q.now n }
{
    let Some(barrier) = machine.barrier(*q) else {
        return 0;
    };
    n.min(barrier)
}

/// The lesser of the number behind `n` and that of the first Read or atomic of an end that is not told.
fn past_before_barrier(machine: &PacketlessMachine, q: &ObjName, n: u64) -> u64
    requires { HasNumbers (end_of machine.now q.now) }
    ensures { result ≡ carries.before_barrier machine.now q.now (n + 1) }
{
    before_barrier(machine, q, n.saturating_add(1))
}

/// What a datagram with a true number may do at an end in Rts. Errors: `AllocError` where an offset is 2^32 or more.
fn arrival_at(
    machine: &PacketlessMachine,
    q: &ObjName,
    is_paused: bool,
    n: u64,
    d: &Datagram<'_>,
) -> Result<Arrival, AllocError>
    requires numbers { HasNumbers (end_of machine.now q.now) }
    requires peer { HasDue (end_of machine.now (end_of machine.now q.now).peer) }
    requires short { length d.now.payload.now ≤ 4096 }
    ensures named { IfOk result (IsArrivalAt machine.now is_paused q.now n d.now.payload.now
        (sort_of (class_of (packet d.now)))) }
    ensures numbers { IfOk result (HasItsNumbers machine.now) }
{
    let sort = sort_of(d);
    match sort {
        DatagramKind::Request => Ok(request_arrival(machine, q, is_paused, n, d.payload)),
        DatagramKind::ReadResponse => read_arrival(machine, q, n, d.payload),
        DatagramKind::AtomicResponse => Ok(Arrival::Old { q: *q, n }),
        DatagramKind::Ack => Ok(Arrival::Acknowledge {
            q: *q,
            limit: past_before_barrier(machine, q, n),
        }),
        DatagramKind::Nak => Ok(Arrival::Acknowledge {
            q: *q,
            limit: before_barrier(machine, q, n),
        }),
        DatagramKind::Other => Ok(Arrival::Nothing),
    }
}

/// The state of an end in Rts.
fn is_live(state: EndState) -> bool
    ensures { result ≡ is_live_state state }
{
    match state {
        EndState::Init | EndState::Error => false,
        EndState::Running | EndState::Paused | EndState::Resuming => true,
    }
}

/// The state of an end that is Paused.
fn is_paused(state: EndState) -> bool
    ensures { result ≡ is_paused_state state }
{
    match state {
        EndState::Paused => true,
        _ => false,
    }
}

/// What datagram `k` may do where it is delivered now. Errors: `AllocError` where an offset is 2^32 or more.
pub(crate) fn arrival_of(
    world: &World,
    machine: &PacketlessMachine,
    k: u64,
) -> Result<Arrival, AllocError>
    requires { IsBeside world.now machine.now }
    ensures named { IfOk result (IsArrival world.now machine.now k) }
    ensures numbers { IfOk result (HasItsNumbers machine.now) }
{
    let Some(datagram) = world.flight(k) else {
        return Ok(Arrival::Nothing);
    };
    let Some(n) = datagram.sent.number else {
        return Ok(Arrival::Nothing);
    };
    let Ok(d) = decode(datagram.sent.bytes.as_slice()) else {
        return Ok(Arrival::Nothing);
    };
    let Some(end) = world.end_reached(datagram.sent.to, d.dest) else {
        return Ok(Arrival::Nothing);
    };
    let live = is_live(end.state);
    if !live {
        return Ok(Arrival::Nothing);
    }
    arrival_at(machine, &end.name, is_paused(end.state), n, &d)
}

/// Whether a response landed.
#[tactic(auto, unfolding(law_simulation::specs::Named::is_landed))]
fn is_landed(took: ArrivalEffect) -> bool
    ensures { result ≡ named.is_landed took }
{
    match took {
        ArrivalEffect::Landed => true,
        _ => false,
    }
}

/// Adds the steps of a READ response, where it landed. Errors: `AllocError` when out of memory.
fn land_read(
    machine: &PacketlessMachine,
    q: &ObjName,
    n: u64,
    offer: Option<usize>,
    took: ArrivalEffect,
    steps: &mut Vec<MachineStep>,
) -> Result<(), AllocError>
    requires { HasNumbers (end_of machine.now q.now) }
    ensures { OnOk result (steps.new.items ≡ steps.old.items
        ++ arrival_steps machine.now (Arrival.Read q.now n offer) took) }
{
    if !is_landed(took) {
        return Ok(());
    }
    land(machine, q, n, offer, steps)
}

/// Adds the steps of an old value, where it landed. Errors: `AllocError` when out of memory.
fn land_value(
    machine: &PacketlessMachine,
    q: &ObjName,
    n: u64,
    took: ArrivalEffect,
    steps: &mut Vec<MachineStep>,
) -> Result<(), AllocError>
    requires { HasNumbers (end_of machine.now q.now) }
    ensures { OnOk result (steps.new.items ≡ steps.old.items
        ++ arrival_steps machine.now (Arrival.Old q.now n) took) }
{
    if !is_landed(took) {
        return Ok(());
    }
    land_old(machine, q, n, steps)
}

/// Adds the steps of a datagram by what the end took it for. Errors: `AllocError` when out of memory.
pub(crate) fn arrive(
    machine: &PacketlessMachine,
    arrival: Arrival,
    took: ArrivalEffect,
    steps: &mut Vec<MachineStep>,
) -> Result<(), AllocError>
    requires { HasItsNumbers machine.now arrival }
    ensures { IsRun machine.now (arrival_steps machine.now arrival took)
        → OnOk result (steps.new.items ≡ steps.old.items
        ++ arrival_steps machine.now arrival took) }
{
    match arrival {
        Arrival::Nothing => Ok(()),
        Arrival::Request { q, n, bytes } => request(machine, &q, n, bytes, steps),
        Arrival::Read { q, n, offer } => land_read(machine, &q, n, offer, took, steps),
        Arrival::Old { q, n } => land_value(machine, &q, n, took, steps),
        Arrival::Acknowledge { q, limit } => acknowledge(machine, &q, limit, took, steps),
    }
}
