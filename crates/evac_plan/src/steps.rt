//! The steps of an evacuation.

ghost use Rattle.std.specs.Prelude.{◌≡◌, IfOk, OnErr, OnOk};
ghost use Rattle.protocol.specs.Script as script;
ghost use Rattle.protocol.specs.WorldStep.{is_done, world_step};
ghost use Rattle.protocol.specs.declared.events.WorldEvent.TheVariants as event;
ghost use Rattle.evac_rules.specs.Evacuation as rules;
ghost use Rattle.evac_rules.specs.Evacuation.{Evacuation};
ghost use Rattle.evac_plan.specs.Steps.{IsCut, Shows};

use evac_rules::StayReason;
use rdma_types::{Answer, Name, Refusal};
use std::alloc::{AllocError, Global};
use world_core::{Settler, World, WorldEvent};

/// Why a context stays, by the answer to its stop.
fn stay_why(answer: &Answer) -> Option<StayReason>
    ensures { result ≡ rules.stay_of answer.now }
{
    match answer {
        Answer::Refused(Refusal::PeerMoving) => Some(StayReason::PeerMoving),
        Answer::Refused(Refusal::TooMany) => Some(StayReason::TooMany),
        _ => None,
    }
}

/// A context is stopped; or why it stays.
pub(crate) fn stop(
    alloc: Global,
    world: &mut World,
    context: Name,
) -> Result<Option<StayReason>, AllocError>
    ensures ok { IfOk result (λ why. (s : Evacuation) → Shows world.old s
        → (why ≡ rules.stay_of (world_step s.world (event.Stop context)).answer)
        × Shows world.new (rules.doing s (rules.stop context))) }
    ensures err { OnErr result (world.new ≡ world.old) }
{
    let answer = world.step(alloc, &WorldEvent::Stop { context })?;
    Ok(stay_why(&answer))
}

/// The husk of a context on a device is forgotten.
pub(crate) fn release(
    alloc: Global,
    world: &mut World,
    context: Name,
    device: u8,
) -> Result<(), AllocError>
    ensures ok { OnOk result ((s : Evacuation) → Shows world.old s
        → Shows world.new (rules.doing s (rules.release context device))) }
    ensures err { OnErr result (world.new ≡ world.old) }
{
    world.step(alloc, &WorldEvent::Release { context, device })?;
    Ok(())
}

/// All settles.
pub(crate) fn settle<T: Settler>(
    alloc: Global,
    world: &mut World,
    settler: &T,
) -> Result<(), AllocError>
    ensures ok { OnOk result ((s : Evacuation) → Shows world.old s
        → Shows world.new (rules.doing s script.Settles)) }
    ensures cut { OnErr result ((s : Evacuation) → Shows world.old s
        → IsCut s (rules.doing s script.Settles) world.new) }
{
    settler.settle(alloc, world)?;
    Ok(())
}

/// Whether a step is done.
fn is_done(answer: &Answer) -> bool
    ensures { result ≡ is_done answer.now }
{
    matches!(answer, Answer::Done)
}

/// A carried context is restored on a device; and whether it was taken. Otherwise nothing is changed.
pub(crate) fn restore(
    alloc: Global,
    world: &mut World,
    context: Name,
    device: u8,
) -> Result<bool, AllocError>
    ensures ok { IfOk result (λ taken. (s : Evacuation) → Shows world.old s
        → (taken ≡ rules.takes s.world context device)
        × Shows world.new (rules.doing s (rules.restore context device))) }
    ensures err { OnErr result (world.new ≡ world.old) }
{
    let answer = world.step(alloc, &WorldEvent::Restore { context, device })?;
    Ok(is_done(&answer))
}
