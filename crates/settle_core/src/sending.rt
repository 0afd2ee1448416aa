//! Sending: each end transmits until it has nothing to send now.

ghost use Rattle.std.specs.Prelude.{◌≡◌, ◌<◌, ◌^◌, IfOk, OnErr, OnOk};
ghost use Rattle.protocol.specs.Settle.{Settling, drained, is_sent, sends_all, sends_if_running, settle_step, transmit, visited, visiting};
ghost use Rattle.protocol.specs.WorldStep.{world_step};
ghost use Rattle.law_settling.specs.Events.{running_events, send_all_events, visit_events, visiting_events};
ghost use Rattle.settle_core.specs.Shown.{Cuts, Settles, Shows};
ghost use Rattle.settle_core.specs.Steps.{IsLinkAt, announce_events, once_events, sent_once, view_may_send, view_resumes, view_runs};

use crate::notes::{Notes, transmit};
use rdma_types::{Answer, ObjName};
use std::alloc::{AllocError, Global};
use world_core::{LinkView, World};

/// Whether a link is in Rts and Running.
pub(crate) fn is_running(link: &LinkView) -> bool
    ensures { result ≡ view_runs link.now }
{
    !link.ended && !link.paused && !link.resuming
}

/// Whether a link is in Rts and Resuming.
pub(crate) fn is_resuming(link: &LinkView) -> bool
    ensures { result ≡ view_resumes link.now }
{
    !link.ended && link.resuming
}

/// Whether an end with this link may have a packet to send: it does not wait for its RNR timer, and not all was sent.
pub(crate) fn may_send(link: &LinkView) -> bool
    ensures { result ≡ view_may_send link.now }
{
    !link.rnr_wait && link.next != link.last
}

/// Whether a datagram was sent.
fn is_sent(answer: &Answer) -> bool
    ensures { result ≡ is_sent answer.now }
{
    matches!(answer, Answer::Sent { .. })
}

impl Notes {
    /// An end transmits once, and what it sent is drained; and whether it sent anything. Otherwise nothing is changed.
    fn send(&mut self, alloc: Global, world: &mut World, end: &ObjName) -> Result<bool, AllocError>
        ensures ok { IfOk result (λ sent. (s : Settling) → Shows world.old self.old s
            → (sent ≡ is_sent (world_step s.world (transmit end.now)).answer)
            × Shows world.new self.new (sent_once sent s end.now)) }
        ensures cut { OnErr result (Cuts (λ s. once_events s end.now) world.old self.old
            world.new) }
    {
        let answer = transmit(alloc, world, end)?;
        if !is_sent(&answer) {
            return Ok(false);
        }
        self.drain(alloc, world)?;
        Ok(true)
    }

    /// An end with this link transmits until it answers otherwise, at most as often as it may in one round.
    fn send_all(
        &mut self,
        alloc: Global,
        world: &mut World,
        end: &ObjName,
        link: &LinkView,
    ) -> Result<(), AllocError>
        requires link { IsLinkAt world.old end.now link.now }
        requires bounded { link.now.last < 2 ^ 62 }
        ensures ok { OnOk result (Settles (λ s. sends_all s end.now) world.old self.old world.new
            self.new) }
        ensures cut { OnErr result (Cuts (λ s. send_all_events s end.now) world.old self.old
            world.new) }
    {
        let most = 2 * link.last.saturating_sub(link.una) + 2;
        for turn in 0..most {
            if !self.send(alloc, world, end)? {
                return Ok(());
            }
        }
        Ok(())
    }

    /// Only a Running end goes on, and it is not asked where it has nothing to send.
    fn send_if_running(
        &mut self,
        alloc: Global,
        world: &mut World,
        end: &ObjName,
        link: &LinkView,
    ) -> Result<(), AllocError>
        requires link { IsLinkAt world.old end.now link.now }
        requires bounded { link.now.last < 2 ^ 62 }
        ensures ok { OnOk result (Settles (λ s. sends_if_running s end.now) world.old self.old
            world.new self.new) }
        ensures cut { OnErr result (Cuts (λ s. running_events s end.now) world.old self.old
            world.new) }
    {
        if is_running(link) && may_send(link) {
            return self.send_all(alloc, world, end, link);
        }
        Ok(())
    }

    /// A Resuming end transmits once, and goes on only if it then is Running.
    fn announce(
        &mut self,
        alloc: Global,
        world: &mut World,
        end: &ObjName,
    ) -> Result<(), AllocError>
        ensures ok { OnOk result (Settles (λ s. sends_if_running
            (drained (settle_step s (transmit end.now))) end.now) world.old self.old world.new
            self.new) }
        ensures cut { OnErr result (Cuts (λ s. announce_events s end.now) world.old self.old
            world.new) }
    {
        let _answer = transmit(alloc, world, end)?;
        self.drain(alloc, world)?;
        let Some(link) = world.link_at(end) else {
            return Ok(());
        };
        self.send_if_running(alloc, world, end, &link)
    }

    /// One end sends what it can.
    fn visit(&mut self, alloc: Global, world: &mut World, end: &ObjName) -> Result<(), AllocError>
        ensures ok { OnOk result (Settles (λ s. visited s end.now) world.old self.old world.new
            self.new) }
        ensures cut { OnErr result (Cuts (λ s. visit_events s end.now) world.old self.old
            world.new) }
    {
        let Some(link) = world.link_at(end) else {
            return Ok(());
        };
        if is_resuming(&link) {
            return self.announce(alloc, world, end);
        }
        self.send_if_running(alloc, world, end, &link)
    }

    /// Each end in order sends what it can.
    pub(crate) fn send_each(
        &mut self,
        alloc: Global,
        world: &mut World,
        ends: &[ObjName],
    ) -> Result<(), AllocError>
        ensures ok { OnOk result (Settles (λ s. visiting visited s ends.now) world.old self.old
            world.new self.new) }
        ensures cut { OnErr result (Cuts (λ s. visiting_events visited visit_events s ends.now)
            world.old self.old world.new) }
    {
        for end in ends {
            self.visit(alloc, world, end)?;
        }
        Ok(())
    }
}
