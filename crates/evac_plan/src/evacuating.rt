//! All contexts of a device move.

ghost use Rattle.std.specs.Prelude.{◌≡◌, [], true, None, IfErr, IfOk};
ghost use Rattle.rdma_types.specs.Lists.{has_word};
ghost use Rattle.rdma_types.specs.declared.names.Name as name_of;
ghost use Rattle.protocol.specs.State as state;
ghost use Rattle.packetless_machine.specs.Machine.{Machine};
ghost use Rattle.law_kept_datagrams.specs.Alike.{with_kept_datagrams};
ghost use Rattle.law_simulation.specs.Stands.{Stands, names_of};
ghost use Rattle.law_moves.specs.Evacuated.{IsEvacuated, IsSomewhere};
ghost use Rattle.evac_rules.specs.Evacuation as rules;
ghost use Rattle.evac_rules.specs.Evacuation.{AreTargets, Evacuation};
ghost use Rattle.evac_plan.specs.Answers.{IfNoSuch, IsFault, IsFaultOf, IsFollowed, IsKept};
ghost use Rattle.evac_plan.specs.Steps.{Ends, IsFresh, Shows};

use crate::EvacFault;
use crate::asking::{are_devices, names_on};
use crate::moving::{Place, shift};
use crate::steps::settle;
use evac_rules::Shifted;
use law_moves::evacuation::{
    devices_are_emptied, devices_keep_the_rest, evacuations_are_followed, nothing_is_lost,
};
use law_settling::steps::{settling_follows, settling_is_named};
use rdma_types::Name;
use std::alloc::Global;
use world_core::{Settler, World};

/// These contexts move one after the other, until one stays.
fn move_each<T: Settler>(
    alloc: Global,
    world: &mut World,
    settler: &T,
    from: u8,
    targets: &[u8],
    names: &[Name],
) -> Result<Vec<Shifted>, EvacFault>
    ensures ok { IfOk result (λ moved. (s : Evacuation) → Shows world.old s → IsFresh s
        → Ends (rules.moving s from targets.now names.now) moved.items None world.new) }
    ensures err { IfErr result (λ fault. (s : Evacuation) → Shows world.old s → IsFresh s
        → IsFaultOf fault s (rules.moving s from targets.now names.now) world.new) }
    ensures told { IfErr result (IfNoSuch ⊥) }
{
    let mut moved = Vec::new(alloc);
    for name in names {
        let context = *name;
        moved.reserve(1)?;
        match shift(alloc, world, settler, from, targets, context)? {
            Place::On(target) => moved.push_reserved(Shifted { context, target }),
            Place::Stays(why) => {
                return Err(EvacFault::Stays {
                    moved,
                    context,
                    why,
                });
            }
        }
    }
    Ok(moved)
}

/// All settles, and the contexts of a device move, where it and the targets are there.
fn empty<T: Settler>(
    alloc: Global,
    world: &mut World,
    settler: &T,
    from: u8,
    targets: &[u8],
) -> Result<Vec<Shifted>, EvacFault>
    ensures ok { IfOk result (λ moved. (w : state.World) → world.old ≡ with_kept_datagrams w
        → Ends (rules.evacuation w from targets.now) moved.items None world.new) }
    ensures err { IfErr result (λ fault. (w : state.World) → world.old ≡ with_kept_datagrams w
        → IsFault fault w from targets.now world.new) }
    ensures unchanged { IfErr result (IfNoSuch (world.new ≡ world.old)) }
{
    if !are_devices(alloc, world, from, targets)? {
        return Err(EvacFault::NoSuch);
    }
    let names = names_on(alloc, world, from)?;
    settle(alloc, world, settler)?;
    move_each(alloc, world, settler, from, targets, names.as_slice())
}

/// Empties a device: all settles; then each context that lives there is stopped, in order of making, and restored on the first
/// target that takes it, and all settles before the next one leaves. Gives each context with the device on which it then lives.
/// Targets that are none of 1 to 15 different ids, or that name the device itself, are tried all the same.
///
/// # Errors
///
/// `NoSuch` exactly where the device or a target is not there; nothing has changed. `Stays` where the stop of a context was
/// refused, or where every target refused it: its husk is then forgotten, it is restored where it was, and all settles.
/// `OutOfMemory` after a prefix of these steps.
pub fn evacuate<T: Settler>(
    alloc: Global,
    world: &mut World,
    settler: &T,
    from: u8,
    targets: &[u8],
) -> Result<Vec<Shifted>, EvacFault>
    ensures kept { with_kept_datagrams world.old ≡ world.old }
    ensures ok { IfOk result (λ moved. (w : state.World) → world.old ≡ with_kept_datagrams w
        → Ends (rules.evacuation w from targets.now) moved.items None world.new) }
    ensures err { IfErr result (λ fault. (w : state.World) → world.old ≡ with_kept_datagrams w
        → IsFault fault w from targets.now world.new) }
    ensures unchanged { IfErr result (IfNoSuch (world.new ≡ world.old)) }
    ensures followed { (w : state.World) (m : Machine) → world.old ≡ with_kept_datagrams w
        → Stands w m → IsFollowed w m from targets.now world.new }
    ensures emptied { IfOk result (λ moved. (w : state.World) (m : Machine)
        → world.old ≡ with_kept_datagrams w → Stands w m → AreTargets from targets.now
        → IsEvacuated w from targets.now (rules.evacuation w from targets.now).steps world.new
        moved.items) }
    ensures stays { IfErr result (λ fault. (w : state.World) (m : Machine)
        → world.old ≡ with_kept_datagrams w → Stands w m → AreTargets from targets.now
        → IsKept fault w from targets.now world.new) }
    ensures not_lost { (w : state.World) (m : Machine) (n : name_of.Name)
        → world.old ≡ with_kept_datagrams w → Stands w m → has_word n (names_of w) ≡ true
        → IsSomewhere world.new n }
{
    evacuations_are_followed();
    devices_are_emptied();
    devices_keep_the_rest();
    nothing_is_lost();
    settling_follows();
    settling_is_named();
    let _next = world.next();
    empty(alloc, world, settler, from, targets)
}
