//! What a settling remembers besides the world, and one step of it.

ghost use Rattle.std.specs.Prelude.{◌≡◌, ◌∷◌, [], map, IfOk, IfSome, OnErr, OnOk};
ghost use Rattle.protocol.specs.Events.{IsLawfulWorldEvent};
ghost use Rattle.protocol.specs.Settle.{Settling, marks, same_marks, settle_step, transmit};
ghost use Rattle.protocol.specs.WorldStep.{world_step};
ghost use Rattle.settle_core.specs.Shown.{Cuts, Settles, Shows};
ghost use Rattle.settle_core.specs.Marks.{same_mark, view_code, view_mark};
ghost use Rattle.world_core.specs.Lives.{live_list};
ghost use Rattle.world_core.specs.Places.{HaveOwnIds};

use indexmap::IndexMap;
use rdma_types::{Answer, Items, ObjName};
use std::alloc::{AllocError, Global};
use world_core::{LinkView, LiveEnd, World, WorldEvent};

/// The last step of an end's RNR timer in a settling: where its oldest unacknowledged number was, and whether its partner
/// was in Error.
#[derive(Clone, Copy)]
pub(crate) struct Wait {
    pub(crate) una: u64,
    pub(crate) partner_ended: bool,
}

/// What a settling remembers besides the world.
#[derive(Drop)]
pub(crate) struct Notes {
    /// An oldest unacknowledged number or a state changed in this round, even if a later change undid it.
    pub(crate) changed: bool,
    /// A timer was stepped in this round.
    pub(crate) stepped: bool,
    /// The last step of each end's RNR timer.
    pub(crate) waited: IndexMap<ObjName, Wait>,
    /// The live ends as this round began or after its last compared step, where they were listed. As long as the round has
    /// no change, their marks are those of the world's live ends.
    pub(crate) seen: Option<Items<LiveEnd>>,
}

impl Notes {
    /// One step of the world, with a note of changes. As long as the round has no change, the marks of all live ends
    /// are compared with those that were seen last.
    #[inline(always)]
    pub(crate) fn step(
        &mut self,
        alloc: Global,
        world: &mut World,
        event: &WorldEvent,
    ) -> Result<(), AllocError>
        requires { IsLawfulWorldEvent event.now }
        ensures ok { OnOk result (Settles (λ s. settle_step s event.now) world.old self.old
            world.new self.new) }
        ensures cut { OnErr result (Cuts (λ s. event.now ∷ []) world.old self.old world.new) }
    {
        if self.changed {
            let _answer = world.step(alloc, event)?;
            return Ok(());
        }
        let before = known_ends(alloc, world, self.seen.take())?;
        let _answer = world.step(alloc, event)?;
        let after = world.live_ends(alloc)?;
        self.changed = !are_same(before.as_slice(), after.as_slice());
        self.seen = Some(after);
        Ok(())
    }
}

/// One transmission. It changes no mark, so nothing is noted or compared.
pub(crate) fn transmit(
    alloc: Global,
    world: &mut World,
    end: &ObjName,
) -> Result<Answer, AllocError>
    ensures ok { OnOk result ((n : Notes)
        → Settles (λ s. settle_step s (transmit end.now)) world.old n world.new n) }
    ensures answer { IfOk result (λ answer. (n : Notes) (s : Settling) → Shows world.old n s
        → answer ≡ (world_step s.world (transmit end.now)).answer) }
    ensures ids { HaveOwnIds world.old.devices }
    ensures err { OnErr result (world.new ≡ world.old) }
{
    world.transmit(alloc, end)
}

/// The live ends that were listed, where they were, or else as the world lists them. So they are the world's, or have the
/// world's marks, where those that were listed are so.
pub(crate) fn known_ends(
    alloc: Global,
    world: &World,
    listed: Option<Items<LiveEnd>>,
) -> Result<Items<LiveEnd>, AllocError>
    ensures live { IfOk result (λ ends. IfSome listed (λ s. s ≡ live_list world.now)
        → ends ≡ live_list world.now) }
    ensures marked { IfOk result (λ ends. IfSome listed (λ s. map view_mark s ≡ marks world.now)
        → map view_mark ends ≡ marks world.now) }
{
    match listed {
        Some(ends) => Ok(ends),
        None => world.live_ends(alloc),
    }
}

/// The state of a connected end as a number.
fn state_code(link: &LinkView) -> u8
    ensures { result ≡ view_code link.now }
{
    if link.ended {
        return 4;
    }
    if link.paused {
        return 2;
    }
    if link.resuming { 3 } else { 1 }
}

/// Whether the oldest unacknowledged number and the state of two ends are the same.
fn is_same(one: &LiveEnd, two: &LiveEnd) -> bool
    ensures { result ≡ same_mark (view_mark one.now) (view_mark two.now) }
{
    match (&one.link, &two.link) {
        (None, None) => true,
        (Some(one), Some(two)) => one.una == two.una && state_code(one) == state_code(two),
        _ => false,
    }
}

/// Whether no mark differs.
fn are_same(before: &[LiveEnd], after: &[LiveEnd]) -> bool
    ensures { result ≡ same_marks (map view_mark before.now) (map view_mark after.now) }
{
    if before.len() != after.len() {
        return false;
    }
    for i in 0..before.len() {
        if !is_same(&before[i], &after[i]) {
            return false;
        }
    }
    true
}
