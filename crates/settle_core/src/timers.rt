//! Timers: where nothing changed in a round, the ends that wait for their RNR timers are let go on, and else retransmission
//! timeouts expire.

ghost use Rattle.std.specs.Prelude.{◌≡◌, true, if◌then◌else◌, Some, OnErr, OnOk};
ghost use Rattle.protocol.specs.Settle.{expire_visit, rnr_visit, timers, visiting};
ghost use Rattle.rdma_types.specs.Lists.{same_object};
ghost use Rattle.indexmap.specs.IndexMap.{get};
ghost use Rattle.law_settling.specs.Events.{expire_events, rnr_events, timer_events, visiting_events};
ghost use Rattle.settle_core.specs.Shown.{Cuts, Settles};
ghost use Rattle.settle_core.specs.Waits.{may_wait, view_expires};

use crate::notes::{Notes, Wait};
use rdma_types::ObjName;
use std::alloc::{AllocError, Global};
use world_core::{Event, LinkView, World, WorldEvent};

/// The rnr of an end that waits for receives without limit.
const ENDLESS: u8 = 7;

/// Whether the retransmission timeout of an end may expire: of a Running one that has numbers in flight and does not wait.
pub(crate) fn may_expire(link: &LinkView) -> bool
    ensures { result ≡ view_expires link.now }
{
    !link.ended && !link.paused && !link.resuming && !link.rnr_wait && link.una < link.next
}

impl Notes {
    /// Whether the RNR timer of an end may be stepped: with rnr 7 only where it had no such step in this settling, its
    /// oldest unacknowledged number changed since, or its partner went to Error since.
    fn may_step(&self, end: &ObjName, link: &LinkView, partner_ended: bool) -> bool
        ensures { result ≡ may_wait link.now partner_ended
            (get same_object self.now.waited end.now) }
    {
        match self.waited.get(end) {
            None => true,
            Some(wait) => {
                link.rnr != ENDLESS
                    || wait.una != link.una
                    || (partner_ended && !wait.partner_ended)
            }
        }
    }

    /// Notes the step of an end's RNR timer.
    fn note(&mut self, end: &ObjName, wait: Wait) -> Result<(), AllocError>
        ensures waited { OnOk result ((o : ObjName)
            → get same_object self.new.waited o
            ≡ (if same_object end.now o then Some wait else get same_object self.old.waited o)) }
        ensures changed { self.new.changed ≡ self.old.changed }
        ensures seen { self.new.seen ≡ self.old.seen }
        ensures stepped { OnOk result (self.new.stepped ≡ true) }
    {
        self.waited.insert(*end, wait)?;
        self.stepped = true;
        Ok(())
    }

    /// The RNR timer of one end.
    fn step_timer(
        &mut self,
        alloc: Global,
        world: &mut World,
        end: &ObjName,
    ) -> Result<(), AllocError>
        ensures ok { OnOk result (Settles (λ s. rnr_visit s end.now) world.old self.old world.new
            self.new) }
        ensures cut { OnErr result (Cuts (λ s. rnr_events s end.now) world.old self.old world.new) }
    {
        let Some(link) = world.link_at(end) else {
            return Ok(());
        };
        if !link.rnr_wait {
            return Ok(());
        }
        let partner_ended = world.has_ended(link.peer);
        if !self.may_step(end, &link, partner_ended) {
            return Ok(());
        }
        let event = Event::RnrOver { end: *end };
        self.step(alloc, world, &WorldEvent::At { event })?;
        let una = link.una;
        self.note(end, Wait { una, partner_ended })
    }

    /// The retransmission timeout of one end.
    fn expire(&mut self, alloc: Global, world: &mut World, end: &ObjName) -> Result<(), AllocError>
        ensures ok { OnOk result (Settles (λ s. expire_visit s end.now) world.old self.old world.new
            self.new) }
        ensures cut { OnErr result (Cuts (λ s. expire_events s end.now) world.old self.old
            world.new) }
    {
        let Some(link) = world.link_at(end) else {
            return Ok(());
        };
        if !may_expire(&link) {
            return Ok(());
        }
        let event = Event::Expire { end: *end };
        self.step(alloc, world, &WorldEvent::At { event })?;
        self.stepped = true;
        Ok(())
    }

    /// The RNR timer of each end in order.
    fn step_timers(
        &mut self,
        alloc: Global,
        world: &mut World,
        ends: &[ObjName],
    ) -> Result<(), AllocError>
        ensures ok { OnOk result (Settles (λ s. visiting rnr_visit s ends.now) world.old self.old
            world.new self.new) }
        ensures cut { OnErr result (Cuts (λ s. visiting_events rnr_visit rnr_events s ends.now)
            world.old self.old world.new) }
    {
        for end in ends {
            self.step_timer(alloc, world, end)?;
        }
        Ok(())
    }

    /// The retransmission timeout of each end in order.
    fn expire_each(
        &mut self,
        alloc: Global,
        world: &mut World,
        ends: &[ObjName],
    ) -> Result<(), AllocError>
        ensures ok { OnOk result (Settles (λ s. visiting expire_visit s ends.now) world.old self.old
            world.new self.new) }
        ensures cut { OnErr result
            (Cuts (λ s. visiting_events expire_visit expire_events s ends.now) world.old self.old
            world.new) }
    {
        for end in ends {
            self.expire(alloc, world, end)?;
        }
        Ok(())
    }

    /// RNR timers, and expiries only where no RNR timer was stepped.
    pub(crate) fn step_or_expire(
        &mut self,
        alloc: Global,
        world: &mut World,
        ends: &[ObjName],
    ) -> Result<(), AllocError>
        ensures ok { OnOk result (Settles (λ s. timers s ends.now) world.old self.old world.new
            self.new) }
        ensures cut { OnErr result (Cuts (λ s. timer_events s ends.now) world.old self.old
            world.new) }
    {
        self.step_timers(alloc, world, ends)?;
        if self.stepped {
            return Ok(());
        }
        self.expire_each(alloc, world, ends)
    }
}
