//! A request that arrives.
#![tactic(auto, using(std::proofs::lemmas::List::append_assoc))]

ghost use Rattle.std.specs.Prelude.{◌≡◌, ◌++◌, ◌-◌, ◌*◌, min, OnOk, IfOk};
ghost use Rattle.packetless_machine.specs.Legal.{IsRun};
ghost use Rattle.packetless_machine.specs.Machine.{end_of};
ghost use Rattle.packetless_machine.specs.Steps.{may_refuse};
ghost use Rattle.law_simulation.specs.Carries.{due_steps, offers_of, piece_at, repeat_steps, request_at, request_steps};
ghost use Rattle.trace_record.specs.Steps as rules;
ghost use Rattle.trace_record.specs.Steps.{HasDue, turn_offers};

use crate::trace_steps::learning::{bytes_of, short_place};
use packetless_machine::{MachineStep, PacketlessMachine};
use rdma_types::{ObjName, RefusalReason};
use std::alloc::AllocError;

/// A refusal of the current request of an end.
fn refusal(q: &ObjName, why: RefusalReason) -> MachineStep
    ensures { result ≡ MachineStep.Refuse q.now why }
{
    MachineStep::Refuse { q: *q, why }
}

/// Whether the current request of an end is refused for this reason.
fn is_refused(machine: &PacketlessMachine, q: &ObjName, why: RefusalReason) -> bool
    ensures { result ≡ may_refuse machine.now q.now why }
{
    machine.may_make(&refusal(q, why))
}

/// What the peer makes of the expected request of an end: it acts or has its turn, or is refused, or finds no receive.
#[tactic(auto, unfolding(crate::specs::Steps::due_step))]
fn due_step(machine: &PacketlessMachine, q: &ObjName, n: u32) -> MachineStep
    ensures { result ≡ rules.due_step machine.now q.now n }
{
    match () {
        _ if machine.may_make(&MachineStep::Run { q: *q, n }) => MachineStep::Run { q: *q, n },
        _ if machine.may_make(&MachineStep::Atom { q: *q }) => MachineStep::Atom { q: *q },
        _ if machine.may_make(&MachineStep::ReadTurn { q: *q }) => MachineStep::ReadTurn { q: *q },
        _ if is_refused(machine, q, RefusalReason::Invalid) => refusal(q, RefusalReason::Invalid),
        _ if is_refused(machine, q, RefusalReason::Access) => refusal(q, RefusalReason::Access),
        _ if is_refused(machine, q, RefusalReason::Length) => refusal(q, RefusalReason::Length),
        _ => MachineStep::Dry { q: *q },
    }
}

/// Whether a Read has its turn.
fn is_turn(step: &MachineStep) -> bool
    ensures { result ≡ rules.is_turn step.now }
{
    match step {
        MachineStep::ReadTurn { .. } => true,
        _ => false,
    }
}

/// The offer of a piece of Read `i`, of so many bytes. Errors: `AllocError` where a number is 2^32 or more.
fn piece_offer(
    q: &ObjName,
    i: usize,
    piece: u64,
    mtu: u32,
    length: u32,
) -> Result<MachineStep, AllocError>
    ensures { IfOk result (λ s. s ≡ MachineStep.Offer q.now i (piece * mtu)
        (min mtu (length - piece * mtu))) }
{
    let i = short_place(i)?;
    let off = bytes_of(piece, mtu)?;
    Ok(MachineStep::Offer {
        q: *q,
        i,
        off,
        n: mtu.min(length.saturating_sub(off)),
    })
}

/// Adds one offer for each response of Read `i` of an end, from a piece on. Errors: `AllocError` when out of memory.
fn offer(
    machine: &PacketlessMachine,
    q: &ObjName,
    i: usize,
    from: u64,
    steps: &mut Vec<MachineStep>,
) -> Result<(), AllocError>
    requires { HasDue (end_of machine.now q.now) }
    ensures { OnOk result (steps.new.items ≡ steps.old.items
        ++ offers_of q.now (end_of machine.now q.now) i from) }
{
    let mtu = machine.mtu(q);
    let length = machine.length_at(q, i);
    for piece in from..machine.span_at(q, i) {
        steps.push(piece_offer(q, i, piece, mtu, length)?)?;
    }
    Ok(())
}

/// Adds the offers of the Read that has its turn. Errors: `AllocError` when out of memory.
fn offer_turn(
    machine: &PacketlessMachine,
    q: &ObjName,
    has_turn: bool,
    steps: &mut Vec<MachineStep>,
) -> Result<(), AllocError>
    requires { HasDue (end_of machine.now q.now) }
    ensures { OnOk result (steps.new.items ≡ steps.old.items
        ++ turn_offers machine.now q.now has_turn) }
{
    if !has_turn {
        return Ok(());
    }
    offer(machine, q, machine.acted(q), 0, steps)
}

/// Adds the steps of the expected request. Errors: `AllocError` when out of memory.
#[tactic(auto, using(std::proofs::lemmas::List::append_assoc, crate::proofs::Due::due_split))]
fn act(
    machine: &PacketlessMachine,
    q: &ObjName,
    bytes: u32,
    steps: &mut Vec<MachineStep>,
) -> Result<(), AllocError>
    requires { HasDue (end_of machine.now q.now) }
    ensures { OnOk result (steps.new.items ≡ steps.old.items ++ due_steps machine.now q.now bytes) }
{
    let step = due_step(machine, q, bytes);
    let has_turn = is_turn(&step);
    steps.push(step)?;
    offer_turn(machine, q, has_turn, steps)
}

/// Whether all that is left of request `i` of an end, from a piece on, may be offered at once. Errors: `AllocError` where a
/// number is 2^32 or more.
fn may_offer_rest(
    machine: &PacketlessMachine,
    q: &ObjName,
    i: usize,
    piece: u64,
) -> Result<bool, AllocError>
    ensures { IfOk result (λ b. b ≡ rules.may_offer_rest machine.now q.now i piece) }
{
    let i_short = short_place(i)?;
    let off = bytes_of(piece, machine.mtu(q))?;
    let n = machine.length_at(q, i).saturating_sub(off);
    Ok(machine.may_make(&MachineStep::Offer {
        q: *q,
        i: i_short,
        off,
        n,
    }))
}

/// Adds the offers of request `i` of an end, from a piece on, where it is a Read whose rest is granted now. Errors:
/// `AllocError` when out of memory.
fn offer_again(
    machine: &PacketlessMachine,
    q: &ObjName,
    i: usize,
    piece: u64,
    steps: &mut Vec<MachineStep>,
) -> Result<(), AllocError>
    requires { HasDue (end_of machine.now q.now) }
    ensures { IsRun machine.now (repeat_steps machine.now q.now i piece)
        → OnOk result (steps.new.items ≡ steps.old.items
        ++ repeat_steps machine.now q.now i piece) }
{
    let is_read = machine.is_read_at(q, i);
    if !is_read {
        return Ok(());
    }
    let granted = may_offer_rest(machine, q, i, piece)?;
    if !granted {
        return Ok(());
    }
    offer(machine, q, i, piece, steps)
}

/// Adds the steps of request `n`, which comes again: the offers of a Read, where the rest asked for is granted now.
/// Errors: `AllocError` when out of memory.
fn repeat(
    machine: &PacketlessMachine,
    q: &ObjName,
    n: u64,
    steps: &mut Vec<MachineStep>,
) -> Result<(), AllocError>
    requires { HasDue (end_of machine.now q.now) }
    ensures { IsRun machine.now (repeat_steps machine.now q.now (request_at (end_of machine.now q.now) n) (piece_at (end_of machine.now q.now) n))
        → OnOk result (steps.new.items ≡ steps.old.items ++ repeat_steps machine.now q.now (request_at (end_of machine.now q.now) n) (piece_at (end_of machine.now q.now) n)) }
{
    let place = machine.place_of(q, n);
    offer_again(machine, q, place.0, place.1, steps)
}

/// Adds the steps of request `n` of an end, with so many bytes, that arrives at its peer. Errors: `AllocError` when out
/// of memory.
#[tactic(auto, using(crate::proofs::Learns::added_none), unfolding(law_simulation::specs::Carries::request_steps))]
pub fn request(
    machine: &PacketlessMachine,
    q: &ObjName,
    n: u64,
    bytes: u32,
    steps: &mut Vec<MachineStep>,
) -> Result<(), AllocError>
    requires { HasDue (end_of machine.now q.now) }
    ensures { IsRun machine.now (request_steps machine.now q.now n bytes)
        → OnOk result (steps.new.items ≡ steps.old.items
        ++ request_steps machine.now q.now n bytes) }
{
    let Some(due) = machine.due(*q) else {
        return Ok(());
    };
    if n == due {
        return act(machine, q, bytes, steps);
    }
    if n < due {
        return repeat(machine, q, n, steps);
    }
    Ok(())
}
