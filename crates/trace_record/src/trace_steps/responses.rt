//! A response that arrives.
#![tactic(auto, using(std::proofs::lemmas::List::append_assoc, crate::proofs::Learns::added_none, crate::proofs::Learns::added_one))]

ghost use Rattle.std.specs.Prelude.{◌≡◌, ◌++◌, OnOk};
ghost use Rattle.packetless_machine.specs.Machine.{end_of};
ghost use Rattle.law_simulation.specs.Carries.{tell_steps};
ghost use Rattle.law_simulation.specs.Named as named;
ghost use Rattle.law_simulation.specs.Named.{acknowledged_steps, learning, old_steps};
ghost use Rattle.trace_record.specs.Steps.{HasNumbers, landing_at};

use crate::trace_steps::learning::{learn, short_place};
use packetless_machine::{MachineStep, PacketlessMachine};
use rdma_types::{ArrivalEffect, ObjName, WcStatus};
use std::alloc::AllocError;

/// Adds the landing of an offer, where there is one. Errors: `AllocError` when out of memory.
fn land_offer(
    q: &ObjName,
    offer: Option<usize>,
    steps: &mut Vec<MachineStep>,
) -> Result<(), AllocError>
    ensures { OnOk result (steps.new.items ≡ steps.old.items ++ landing_at q.now offer) }
{
    let Some(offer) = offer else {
        return Ok(());
    };
    let o = short_place(offer)?;
    steps.push(MachineStep::Land { q: *q, o })?;
    Ok(())
}

/// Adds that a Read is finished, where `n` is its last response. Errors: `AllocError` when out of memory.
#[tactic(auto, using(crate::proofs::Learns::added_none, crate::proofs::Learns::added_one), unfolding(law_simulation::specs::Carries::tell_steps))]
fn tell_last(
    machine: &PacketlessMachine,
    q: &ObjName,
    n: u64,
    steps: &mut Vec<MachineStep>,
) -> Result<(), AllocError>
    requires { HasNumbers (end_of machine.now q.now) }
    ensures { OnOk result (steps.new.items ≡ steps.old.items
        ++ tell_steps q.now (end_of machine.now q.now) n) }
{
    let (request, piece) = machine.place_of(q, n);
    let left = machine.span_at(q, request).saturating_sub(piece);
    if left != 1 {
        return Ok(());
    }
    steps.push(MachineStep::Tell { q: *q })?;
    Ok(())
}

/// Adds the steps of READ response `n` that landed: what the owner learns before it, the landing of an offer where there
/// are bytes, and after the last piece that the Read is finished. Errors: `AllocError` when out of memory.
pub fn land(
    machine: &PacketlessMachine,
    q: &ObjName,
    n: u64,
    offer: Option<usize>,
    steps: &mut Vec<MachineStep>,
) -> Result<(), AllocError>
    requires { HasNumbers (end_of machine.now q.now) }
    ensures { OnOk result (steps.new.items ≡ steps.old.items
        ++ (learning q.now (end_of machine.now q.now) n
        ++ (landing_at q.now offer ++ tell_steps q.now (end_of machine.now q.now) n))) }
{
    learn(machine, q, n, steps)?;
    land_offer(q, offer, steps)?;
    tell_last(machine, q, n, steps)
}

/// Adds the steps of an old value that landed. Errors: `AllocError` when out of memory.
#[tactic(auto, using(std::proofs::lemmas::List::append_assoc), unfolding(law_simulation::specs::Named::old_steps))]
pub fn land_old(
    machine: &PacketlessMachine,
    q: &ObjName,
    n: u64,
    steps: &mut Vec<MachineStep>,
) -> Result<(), AllocError>
    requires { HasNumbers (end_of machine.now q.now) }
    ensures { OnOk result (steps.new.items ≡ steps.old.items
        ++ old_steps q.now (end_of machine.now q.now) n) }
{
    learn(machine, q, n, steps)?;
    steps.push(MachineStep::Tell { q: *q })?;
    Ok(())
}

/// Whether an acknowledgement moved the oldest number, or sent the requester back.
#[tactic(auto, unfolding(law_simulation::specs::Named::is_learned))]
fn is_learned(took: ArrivalEffect) -> bool
    ensures { result ≡ named.is_learned took }
{
    match took {
        ArrivalEffect::Acked
        | ArrivalEffect::Rewound
        | ArrivalEffect::Waits
        | ArrivalEffect::Ended(_) => true,
        _ => false,
    }
}

/// Adds a wait that is counted, or the end of the requester. Errors: `AllocError` when out of memory.
#[tactic(auto, using(crate::proofs::Learns::added_none, crate::proofs::Learns::added_one), unfolding(law_simulation::specs::Named::last_step, law_simulation::specs::Named::ending))]
fn end(q: &ObjName, took: ArrivalEffect, steps: &mut Vec<MachineStep>) -> Result<(), AllocError>
    ensures { OnOk result (steps.new.items ≡ steps.old.items ++ named.last_step q.now took) }
{
    let step = match took {
        ArrivalEffect::Waits | ArrivalEffect::Ended(WcStatus::RnrExceeded) => MachineStep::Wait {
            q: *q,
        },
        ArrivalEffect::Ended(_) => MachineStep::Bounce { q: *q },
        _ => return Ok(()),
    };
    steps.push(step)?;
    Ok(())
}

/// Adds the steps of an acknowledgement of all numbers below a limit, by what it was taken for. Errors: `AllocError` when
/// out of memory.
#[tactic(auto, using(std::proofs::lemmas::List::append_assoc, crate::proofs::Learns::added_none, crate::proofs::Learns::added_one), unfolding(law_simulation::specs::Named::acknowledged_steps))]
pub fn acknowledge(
    machine: &PacketlessMachine,
    q: &ObjName,
    limit: u64,
    took: ArrivalEffect,
    steps: &mut Vec<MachineStep>,
) -> Result<(), AllocError>
    requires { HasNumbers (end_of machine.now q.now) }
    ensures { OnOk result (steps.new.items ≡ steps.old.items
        ++ acknowledged_steps machine.now q.now limit took) }
{
    if !is_learned(took) {
        return Ok(());
    }
    learn(machine, q, limit, steps)?;
    end(q, took, steps)
}
