//! What a worker does.

ghost use Rattle.std.specs.Prelude.{◌≤◌};

use crate::events::{Side, StepEffect, expires, polls, transmits};
use crate::gate::Gate;
use crate::hand::Stepper;
use shared_device::StationGuard;
use std::alloc::Global;
use std::sync::Wait;
use thread_plan::{PlanFault, addition};

/// The id of the device of a.
pub const OF_A: u8 = 1;

/// Posts additions, at most so many, until all are posted or one is refused; `posted` counts those that were accepted.
fn post_all<R: Wait, G: Gate>(
    rt: &R,
    alloc: Global,
    hand: &mut Stepper<'_, G>,
    guard: &mut StationGuard<'_>,
    worker: u32,
    adds: u32,
    posted: &mut u32,
    most: u32,
) -> Result<(), PlanFault>
    requires { (1 ≤ worker) × (worker ≤ 8) × (adds ≤ 10000) }
{
    for j in *posted..adds.min(posted.saturating_add(most)) {
        if hand.call(rt, alloc, guard, addition(worker, j + 1))? != StepEffect::Accepted {
            break;
        }
        *posted = j + 1;
    }
    Ok(())
}

/// Sends, at most so many packets, until the own end has nothing to send now.
fn send_all<R: Wait, G: Gate>(
    rt: &R,
    alloc: Global,
    hand: &mut Stepper<'_, G>,
    guard: &mut StationGuard<'_>,
    worker: u32,
    most: u32,
) -> Result<(), PlanFault>
    requires { worker ≤ 8 }
{
    for _ in 0..most {
        if hand.call(rt, alloc, guard, transmits(Side::A, worker))? != StepEffect::Sent {
            break;
        }
    }
    Ok(())
}

/// What a worker does at the device of a in a turn: it delivers there what came back, polls if something came and `does_poll`,
/// posts and sends. An answer makes room for one addition and for one packet, so where answers came it tries no more than these,
/// and else until it may not go on.
fn fill<R: Wait, G: Gate>(
    rt: &R,
    alloc: Global,
    hand: &mut Stepper<'_, G>,
    worker: u32,
    adds: u32,
    posted: &mut u32,
    does_poll: bool,
) -> Result<(), PlanFault>
    requires { (1 ≤ worker) × (worker ≤ 8) × (adds ≤ 10000) }
{
    let mut guard = hand.lock(rt, OF_A)?;
    let came = hand.bring_all(rt, alloc, &mut guard)?;
    let most = if came == 0 { u32::MAX } else { came };
    if does_poll && came != 0 {
        hand.call(rt, alloc, &mut guard, polls())?;
    }
    post_all(rt, alloc, hand, &mut guard, worker, adds, posted, most)?;
    send_all(rt, alloc, hand, &mut guard, worker, most)
}

/// Whether a worker whose end told so at its expiry is through: it is in Error, or nothing is in flight and nothing is to be
/// sent.
fn is_through<R: Wait, G: Gate>(
    rt: &R,
    alloc: Global,
    hand: &mut Stepper<'_, G>,
    guard: &mut StationGuard<'_>,
    worker: u32,
    told: StepEffect,
) -> Result<bool, PlanFault>
    requires { worker ≤ 8 }
{
    match told {
        StepEffect::Ended => Ok(true),
        StepEffect::NothingInFlight => {
            let sent = hand.call(rt, alloc, guard, transmits(Side::A, worker))?;
            Ok(sent == StepEffect::Idle)
        }
        _ => Ok(false),
    }
}

/// Lets the own end expire, and says whether the worker is through, where it `has_posted` all.
fn expire<R: Wait, G: Gate>(
    rt: &R,
    alloc: Global,
    hand: &mut Stepper<'_, G>,
    worker: u32,
    has_posted: bool,
) -> Result<bool, PlanFault>
    requires { worker ≤ 8 }
{
    let mut guard = hand.lock(rt, OF_A)?;
    let told = hand.call(rt, alloc, &mut guard, expires(worker))?;
    Ok(has_posted && is_through(rt, alloc, hand, &mut guard, worker, told)?)
}

/// One turn: posts, sends and delivers all that it can; where that was nothing, lets the own end expire. Says whether the
/// worker is through.
fn push_on<R: Wait, G: Gate>(
    rt: &R,
    alloc: Global,
    hand: &mut Stepper<'_, G>,
    worker: u32,
    adds: u32,
    posted: &mut u32,
    does_poll: bool,
) -> Result<bool, PlanFault>
    requires { (1 ≤ worker) × (worker ≤ 8) × (adds ≤ 10000) }
{
    fill(rt, alloc, hand, worker, adds, posted, does_poll)?;
    hand.deliver(rt, alloc, Some(OF_A))?;
    if hand.has_worked() {
        return Ok(false);
    }
    expire(rt, alloc, hand, worker, *posted >= adds)
}

/// All turns of a worker, who polls where `does_poll`: it ends when all its additions are posted and none is in flight, or
/// where all was halted.
fn take_turns<R: Wait, G: Gate>(
    rt: &R,
    alloc: Global,
    hand: &mut Stepper<'_, G>,
    worker: u32,
    adds: u32,
    does_poll: bool,
) -> Result<(), PlanFault>
    requires { (1 ≤ worker) × (worker ≤ 8) × (adds ≤ 10000) }
{
    let mut posted = 0;
    for _ in rt.forever() {
        let seen = hand.end_turn(rt);
        if push_on(rt, alloc, hand, worker, adds, &mut posted, does_poll)? {
            break;
        }
        if !hand.wait_for_news(rt, seen) {
            break;
        }
    }
    hand.end_turn(rt);
    Ok(())
}

/// All turns of a worker who polls: it ends when all its additions are posted and none is in flight, or where all was halted.
pub fn work<R: Wait, G: Gate>(
    rt: &R,
    alloc: Global,
    hand: &mut Stepper<'_, G>,
    worker: u32,
    adds: u32,
) -> Result<(), PlanFault>
    requires { (1 ≤ worker) × (worker ≤ 8) × (adds ≤ 10000) }
{
    take_turns(rt, alloc, hand, worker, adds, true)
}

/// The same of a worker who leaves it to another to poll.
pub fn pump<R: Wait, G: Gate>(
    rt: &R,
    alloc: Global,
    hand: &mut Stepper<'_, G>,
    worker: u32,
    adds: u32,
) -> Result<(), PlanFault>
    requires { (1 ≤ worker) × (worker ≤ 8) × (adds ≤ 10000) }
{
    take_turns(rt, alloc, hand, worker, adds, false)
}

/// Polls the queue until it is empty.
pub fn drain<R: Wait, G: Gate>(
    rt: &R,
    alloc: Global,
    hand: &mut Stepper<'_, G>,
) -> Result<(), PlanFault> {
    let mut guard = hand.lock(rt, OF_A)?;
    for _ in rt.forever() {
        if hand.call(rt, alloc, &mut guard, polls())? != StepEffect::Polled {
            break;
        }
    }
    Ok(())
}
