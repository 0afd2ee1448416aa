//! What the owner of an end learns.
#![tactic(auto, using(std::proofs::lemmas::List::append_assoc))]

ghost use Rattle.std.specs.Prelude.{◌≡◌, ◌++◌, ◌*◌, OnOk, IfOk};
ghost use Rattle.packetless_machine.specs.Machine.{end_of};
ghost use Rattle.law_simulation.specs.Named.{known_bytes, learning, tells};
ghost use Rattle.trace_record.specs.Steps.{HasNumbers};

use packetless_machine::{MachineStep, PacketlessMachine};
use rdma_types::ObjName;
use std::alloc::AllocError;

/// The place of a request or an offer, as a step has it. Errors: `AllocError` where it is 2^32 or more.
pub fn short_place(place: usize) -> Result<u32, AllocError>
    ensures { IfOk result (λ short. short ≡ place) }
{
    match u32::try_from(place) {
        Ok(short) => Ok(short),
        Err(_) => Err(AllocError),
    }
}

/// The bytes of so many whole packets. Errors: `AllocError` where they are 2^32 or more.
pub fn bytes_of(packets: u64, mtu: u32) -> Result<u32, AllocError>
    ensures { IfOk result (λ bytes. bytes ≡ packets * mtu) }
{
    match packets.checked_mul(u64::from(mtu)) {
        Some(bytes) if bytes <= u64::from(u32::MAX) => Ok(bytes as u32),
        _ => Err(AllocError),
    }
}

/// Adds that so many requests are finished for the owner.
fn tell(q: &ObjName, count: usize, steps: &mut Vec<MachineStep>) -> Result<(), AllocError>
    ensures { OnOk result (steps.new.items ≡ steps.old.items ++ tells q.now count) }
{
    for told in 0..count {
        steps.push(MachineStep::Tell { q: *q })?;
    }
    Ok(())
}

/// Adds that bytes of the next request are known to be in place, where there are any.
fn know(q: &ObjName, m: u32, steps: &mut Vec<MachineStep>) -> Result<(), AllocError>
    ensures { OnOk result (steps.new.items ≡ steps.old.items ++ known_bytes q.now m) }
{
    if m == 0 {
        return Ok(());
    }
    steps.push(MachineStep::Known { q: *q, m })?;
    Ok(())
}

/// Adds what the owner of an end learns where all numbers below `n` are in place: that requests are finished, and then
/// that bytes of the next one are there. Errors: `AllocError` when out of memory.
#[tactic(auto, using(std::proofs::lemmas::List::append_assoc), unfolding(law_simulation::specs::Named::learning))]
pub fn learn(
    machine: &PacketlessMachine,
    q: &ObjName,
    n: u64,
    steps: &mut Vec<MachineStep>,
) -> Result<(), AllocError>
    requires { HasNumbers (end_of machine.now q.now) }
    ensures { OnOk result (steps.new.items ≡ steps.old.items
        ++ learning q.now (end_of machine.now q.now) n) }
{
    let Some(oldest) = machine.oldest(*q) else {
        return Ok(());
    };
    if n <= oldest {
        return Ok(());
    }
    let (request, piece) = machine.place_of(q, n);
    let m = bytes_of(piece, machine.mtu(q))?;
    tell(q, request.saturating_sub(machine.told(q)), steps)?;
    know(q, m, steps)
}
