//! What the mover does.

ghost use Rattle.std.specs.Prelude.{◌≤◌, IfOk, IfSome};
ghost use Rattle.protocol.specs.Events.{IsLawfulEvent};

use crate::events::{Side, StepEffect, releases, restore_of, stops, transmits};
use crate::gate::Gate;
use crate::hand::Stepper;
use protocol::Event;
use std::alloc::Global;
use std::sync::Wait;
use thread_plan::PlanFault;

/// Lets each end of b send, and says whether none had anything to send.
fn are_idle<R: Wait, G: Gate>(
    rt: &R,
    alloc: Global,
    hand: &mut Stepper<'_, G>,
    id: u8,
    workers: u32,
) -> Result<bool, PlanFault>
    requires { workers ≤ 8 }
{
    let mut guard = hand.lock(rt, id)?;
    let mut idle = true;
    for i in 0..workers {
        let told = hand.call(rt, alloc, &mut guard, transmits(Side::B, i + 1))?;
        if told != StepEffect::Idle {
            idle = false;
        }
    }
    Ok(idle)
}

/// Waits until no end of b has anything to send, and delivers what is pending meanwhile. The answer is whether to go on, and
/// not where all was halted.
fn settle<R: Wait, G: Gate>(
    rt: &R,
    alloc: Global,
    hand: &mut Stepper<'_, G>,
    id: u8,
    workers: u32,
) -> Result<bool, PlanFault>
    requires { workers ≤ 8 }
{
    for _ in rt.forever() {
        let seen = hand.end_turn(rt);
        if are_idle(rt, alloc, hand, id, workers)? {
            return Ok(true);
        }
        hand.deliver(rt, alloc, None)?;
        if !hand.wait_for_news(rt, seen) {
            break;
        }
    }
    Ok(false)
}

/// Stops b on the device with that id; the answer is the event that restores its image.
fn stop<R: Wait, G: Gate>(
    rt: &R,
    alloc: Global,
    hand: &mut Stepper<'_, G>,
    id: u8,
) -> Result<Option<Event>, PlanFault>
    ensures { IfOk result (λ event. IfSome event (λ e. IsLawfulEvent e)) }
{
    let mut guard = hand.lock(rt, id)?;
    let receipt = hand.ask(rt, alloc, &mut guard, stops())?;
    let event = restore_of(alloc, receipt.outcome())?;
    hand.keep(receipt)?;
    Ok(event)
}

/// Moves b from one device to another; `has_husk` says that b was there before.
fn move_to<R: Wait, G: Gate>(
    rt: &R,
    alloc: Global,
    hand: &mut Stepper<'_, G>,
    from: u8,
    to: u8,
    has_husk: bool,
) -> Result<(), PlanFault> {
    let Some(restore) = stop(rt, alloc, hand, from)? else {
        return Err(PlanFault::NotAsPlanned);
    };
    let mut guard = hand.lock(rt, to)?;
    if has_husk {
        hand.call(rt, alloc, &mut guard, releases())?;
    }
    hand.call(rt, alloc, &mut guard, restore)?;
    Ok(())
}

/// Moves b from device 2 to 3, back to 2 and so on. It starts each move, and ends, when no end of b has anything to send;
/// or it ends where all was halted.
pub fn move_all<R: Wait, G: Gate>(
    rt: &R,
    alloc: Global,
    hand: &mut Stepper<'_, G>,
    workers: u32,
    moves: u32,
) -> Result<(), PlanFault>
    requires { workers ≤ 8 }
{
    let (mut from, mut to) = (2, 3);
    for i in 0..moves {
        if !settle(rt, alloc, hand, from, workers)? {
            return Ok(());
        }
        move_to(rt, alloc, hand, from, to, i > 0)?;
        (from, to) = (to, from);
    }
    settle(rt, alloc, hand, from, workers)?;
    hand.end_turn(rt);
    Ok(())
}
