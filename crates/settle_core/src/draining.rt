//! Draining: what is pending is delivered until nothing is.

ghost use Rattle.std.specs.Prelude.{◌-◌, OnErr, OnOk};
ghost use Rattle.protocol.specs.Settle.{drained, pass};
ghost use Rattle.law_settling.specs.Events.{drain_events, pass_events};
ghost use Rattle.settle_core.specs.Shown.{Cuts, Settles};
ghost use Rattle.settle_core.specs.Steps.{deliver_events, delivered_at, sweep_events, sweeping};

use crate::notes::Notes;
use std::alloc::{AllocError, Global};
use world_core::{World, WorldEvent};

impl Notes {
    /// Delivers datagram `k` where it is pending. It may be gone since the pass began.
    fn deliver(&mut self, alloc: Global, world: &mut World, k: u64) -> Result<(), AllocError>
        ensures ok { OnOk result (Settles (λ s. delivered_at s k) world.old self.old world.new
            self.new) }
        ensures cut { OnErr result (Cuts (λ s. deliver_events s k) world.old self.old world.new) }
    {
        if !world.is_pending(k) {
            return Ok(());
        }
        self.step(alloc, world, &WorldEvent::Deliver { k })
    }

    /// Delivers each datagram from number `first` to before `end` that is pending as its turn comes.
    fn sweep(
        &mut self,
        alloc: Global,
        world: &mut World,
        first: u64,
        end: u64,
    ) -> Result<(), AllocError>
        ensures ok { OnOk result (Settles (λ s. sweeping s first (end - first)) world.old self.old
            world.new self.new) }
        ensures cut { OnErr result (Cuts (λ s. sweep_events s first (end - first)) world.old
            self.old world.new) }
    {
        for k in first..end {
            self.deliver(alloc, world, k)?;
        }
        Ok(())
    }

    /// Delivers the datagrams that are pending now, least number first.
    fn pass(&mut self, alloc: Global, world: &mut World) -> Result<(), AllocError>
        ensures ok { OnOk result (Settles pass world.old self.old world.new self.new) }
        ensures cut { OnErr result (Cuts (λ s. pass_events s) world.old self.old world.new) }
    {
        let Some(first) = world.pending() else {
            return Ok(());
        };
        self.sweep(alloc, world, first, world.next())
    }

    /// Delivers the least pending datagram until none is pending: a request is answered, the answer may be answered by a
    /// husk, and nothing answers a husk, so three passes do.
    pub(crate) fn drain(&mut self, alloc: Global, world: &mut World) -> Result<(), AllocError>
        ensures ok { OnOk result (Settles drained world.old self.old world.new self.new) }
        ensures cut { OnErr result (Cuts (λ s. drain_events s) world.old self.old world.new) }
    {
        self.pass(alloc, world)?;
        self.pass(alloc, world)?;
        self.pass(alloc, world)?;
        Ok(())
    }
}
