//! One context moves.

ghost use Rattle.std.specs.Prelude.{◌≡◌, IfOk, OnErr, OnOk};
ghost use Rattle.evac_rules.specs.Evacuation as rules;
ghost use Rattle.evac_rules.specs.Evacuation.{Evacuation};
ghost use Rattle.evac_plan.specs.Steps.{Becomes, IsCut, Shows};

use crate::steps::{release, restore, settle, stop};
use evac_rules::StayReason;
use rdma_types::Name;
use std::alloc::{AllocError, Global};
use world_core::{Settler, World};

/// What became of a context that was to move.
#[derive(Clone, Copy)]
pub(crate) enum Place {
    /// It lives on this target.
    On(u8),
    Stays(StayReason),
}

/// A carried context is restored on the first target that takes it.
fn try_each(
    alloc: Global,
    world: &mut World,
    context: Name,
    targets: &[u8],
) -> Result<Option<u8>, AllocError>
    ensures ok { IfOk result (λ target. (s : Evacuation) → Shows world.old s
        → (target ≡ (rules.tries s context targets.now).target)
        × Shows world.new (rules.tries s context targets.now).state) }
    ensures cut { OnErr result ((s : Evacuation) → Shows world.old s
        → IsCut s (rules.tries s context targets.now).state world.new) }
{
    for target in targets {
        if restore(alloc, world, context, *target)? {
            return Ok(Some(*target));
        }
    }
    Ok(None)
}

/// A carried context that no target took is put back where it was: its husk there is forgotten, and it is restored.
fn take_back<T: Settler>(
    alloc: Global,
    world: &mut World,
    settler: &T,
    from: u8,
    context: Name,
) -> Result<(), AllocError>
    ensures ok { OnOk result ((s : Evacuation) → Shows world.old s
        → Shows world.new (rules.returned s from context)) }
    ensures cut { OnErr result ((s : Evacuation) → Shows world.old s
        → IsCut s (rules.returned s from context) world.new) }
{
    release(alloc, world, context, from)?;
    let _taken = restore(alloc, world, context, from)?;
    settle(alloc, world, settler)
}

/// A stopped context is put on a target, or taken back.
fn put<T: Settler>(
    alloc: Global,
    world: &mut World,
    settler: &T,
    from: u8,
    targets: &[u8],
    context: Name,
) -> Result<Place, AllocError>
    ensures ok { IfOk result (λ place. (s : Evacuation) → Shows world.old s
        → Shows world.new (rules.placed s from targets.now context)
        × Becomes place context s (rules.placed s from targets.now context)) }
    ensures cut { OnErr result ((s : Evacuation) → Shows world.old s
        → IsCut s (rules.placed s from targets.now context) world.new) }
{
    match try_each(alloc, world, context, targets)? {
        Some(target) => {
            settle(alloc, world, settler)?;
            Ok(Place::On(target))
        }
        None => {
            take_back(alloc, world, settler, from, context)?;
            Ok(Place::Stays(StayReason::NoTarget))
        }
    }
}

/// A context is stopped and put on a target.
pub(crate) fn shift<T: Settler>(
    alloc: Global,
    world: &mut World,
    settler: &T,
    from: u8,
    targets: &[u8],
    context: Name,
) -> Result<Place, AllocError>
    ensures ok { IfOk result (λ place. (s : Evacuation) → Shows world.old s
        → Shows world.new (rules.moves s from targets.now context)
        × Becomes place context s (rules.moves s from targets.now context)) }
    ensures cut { OnErr result ((s : Evacuation) → Shows world.old s
        → IsCut s (rules.moves s from targets.now context) world.new) }
{
    match stop(alloc, world, context)? {
        Some(why) => Ok(Place::Stays(why)),
        None => put(alloc, world, settler, from, targets, context),
    }
}
