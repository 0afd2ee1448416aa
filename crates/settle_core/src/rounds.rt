//! Rounds of settling.

ghost use Rattle.std.specs.Prelude.{◌≡◌, ◌*◌, ◌≤◌, ◌||◌, not, map, IfOk, IfSome, OnErr, OnOk};
ghost use Rattle.protocol.specs.Settle.{Settling, begun, load_of, round, rounds_of};
ghost use Rattle.protocol.specs.State as state;
ghost use Rattle.law_settling.specs.Events.{round_events, rounds_events};
ghost use Rattle.settle_core.specs.Loads.{view_load, view_numbers};
ghost use Rattle.settle_core.specs.Quieted.{IsQuieted};
ghost use Rattle.settle_core.specs.Shown.{Cuts, Ends, Settles, Shows};
ghost use Rattle.world_core.specs.Lives.{live_list};
ghost use Rattle.world_core.specs.Settled.{IsLeft, IsSettled};

use crate::idle::are_idle;
use crate::laws::settled_worlds_are_quiet;
use crate::leaving::unfinished;
use crate::notes::{Notes, known_ends};
use indexmap::IndexMap;
use rdma_types::{Items, ObjName};
use std::alloc::{AllocError, Global};
use world_core::{LiveEnd, Quiet, Settler, World};

/// As many rounds for each unit of the load.
const ROUNDS: u64 = 32;

/// Settles a world by rounds of draining, sending and timers, until one in which nothing changes.
///
/// It takes at most 32 rounds for each unit of the load: the posted numbers that are not acknowledged, of the live ends in
/// Rts, the number of the live ends, and one. As long as a round has no change, each delivery, expiry and end of an RNR timer
/// looks at all live ends.
#[derive(Clone, Copy, Debug)]
pub struct Rounds;

/// The posted numbers of an end that are not acknowledged.
fn unacknowledged(end: &LiveEnd) -> u64
    ensures { result ≡ view_numbers end.now }
{
    match &end.link {
        Some(link) if !link.ended => link.last.saturating_sub(link.una),
        _ => 0,
    }
}

/// The names of these ends.
fn names_of(alloc: Global, ends: &[LiveEnd]) -> Result<Vec<ObjName>, AllocError>
    ensures { IfOk result (λ names. names.items ≡ map (λ e. e.name) ends.now) }
{
    let mut names = Vec::with_capacity(alloc, ends.len())?;
    for end in ends {
        names.push(end.name)?;
    }
    Ok(names)
}

/// The load of these ends, where it fits.
fn load(ends: &[LiveEnd]) -> Option<u64>
    ensures { IfSome result (λ load. load ≡ view_load ends.now) }
{
    let mut load = 1_u64;
    for end in ends {
        let more = load.checked_add(unacknowledged(end))?;
        load = more.checked_add(1)?;
    }
    Some(load)
}

/// The most rounds that a settling of a world with these live ends takes; an error where they do not fit.
fn most_rounds(ends: &[LiveEnd]) -> Result<u64, AllocError>
    ensures { IfOk result (λ most. most ≡ 32 * view_load ends.now) }
{
    let load = load(ends).ok_or(AllocError)?;
    load.checked_mul(ROUNDS).ok_or(AllocError)
}

impl Notes {
    /// One round: drain, send, and where nothing changed in this round the timers. Where nothing is pending and all live ends
    /// are idle, it changes nothing, and ends at once. It takes the live ends where they were listed since the last step, and
    /// leaves them only if it made none.
    fn round(
        &mut self,
        alloc: Global,
        world: &mut World,
        listed: &mut Option<Items<LiveEnd>>,
    ) -> Result<(), AllocError>
        requires { IfSome listed.old (λ ends. ends ≡ live_list world.old) }
        ensures ok { OnOk result (Settles round world.old self.old world.new self.new) }
        ensures listed { OnOk result (IfSome listed.new (λ ends. ends ≡ live_list world.new)) }
        ensures cut { OnErr result (Cuts (λ s. round_events s) world.old self.old world.new) }
    {
        let live = known_ends(alloc, world, listed.take())?;
        if world.pending().is_none() && are_idle(live.as_slice()) {
            *listed = Some(live);
            return Ok(());
        }
        let ends = names_of(alloc, live.as_slice())?;
        self.seen = Some(live);
        self.drain(alloc, world)?;
        self.send_each(alloc, world, ends.as_slice())?;
        if self.changed {
            return Ok(());
        }
        self.step_or_expire(alloc, world, ends.as_slice())
    }

    /// Whether nothing changed and no timer was stepped in this round.
    fn is_quiet(&self) -> bool
        ensures { result ≡ not (self.now.changed || self.now.stepped) }
    {
        !self.changed && !self.stepped
    }

    /// A new round.
    fn begin(&mut self)
        ensures { (w : state.World) (s : Settling) → Shows w self.old s
            → Shows w self.new (begun s) }
    {
        self.changed = false;
        self.stepped = false;
        self.seen = None;
    }

    /// Rounds until one in which nothing changed and nothing was stepped, and how many; at most `most`. It takes and leaves the
    /// live ends as a round does.
    fn go_round(
        &mut self,
        alloc: Global,
        world: &mut World,
        most: u64,
        listed: &mut Option<Items<LiveEnd>>,
    ) -> Result<u64, AllocError>
        requires { IfSome listed.old (λ ends. ends ≡ live_list world.old) }
        ensures ok { IfOk result (λ rounds. (s : Settling) → Shows world.old self.old s
            → Ends (rounds_of most 0 s) world.new rounds) }
        ensures bounded { IfOk result (λ rounds. rounds ≤ most) }
        ensures listed { OnOk result (IfSome listed.new (λ ends. ends ≡ live_list world.new)) }
        ensures cut { OnErr result (Cuts (λ s. rounds_events most s) world.old self.old world.new) }
    {
        for rounds in 0..most {
            self.round(alloc, world, listed)?;
            if self.is_quiet() {
                return Ok(rounds + 1);
            }
            self.begin();
        }
        Ok(most)
    }
}

impl Settler for Rounds {
    /// Settles a world by rounds, at most 32 for each unit of the load. Where the world stands for a state of the packetless
    /// machine, nothing changes in the last of them and no timer is stepped (`law_settling::bound::settling_ends`). The packetless
    /// machine follows it, and the world is then quiet: nothing is pending, and each end with untold requests is listed with
    /// the first reason that holds. That is so of every settler ([`settled_worlds_are_quiet`]).
    ///
    /// # Errors
    ///
    /// `AllocError` when out of memory, or where the most rounds do not fit in 64 bits. The world is then the one that the first
    /// events of this settling lead to, in their order, and the rest were not made.
    fn settle(&self, alloc: Global, world: &mut World) -> Result<Quiet, AllocError>
        ensures settled { IfOk result (λ quiet. IsSettled world.old world.new quiet) }
        ensures bounded { IfOk result (λ quiet. quiet.rounds ≤ 32 * load_of world.old) }
        ensures quiet { IfOk result (λ quiet. IsQuieted world.old world.new quiet.unfinished) }
        ensures left { OnErr result (IsLeft world.old world.new) }
    {
        settled_worlds_are_quiet();
        let _next = world.next();
        let live = world.live_ends(alloc)?;
        let most = most_rounds(live.as_slice())?;
        let mut listed = Some(live);
        let mut notes = Notes {
            changed: false,
            stepped: false,
            waited: IndexMap::new(alloc),
            seen: None,
        };
        let rounds = notes.go_round(alloc, world, most, &mut listed)?;
        let unfinished = unfinished(alloc, world, listed)?;
        Ok(Quiet { rounds, unfinished })
    }
}
