//! The state of a run.

ghost use Rattle.std.specs.Prelude.{◌≡◌, ◌≤◌, OnOk, IfOk};
ghost use Rattle.serve_rules.specs.Server as rules;

use device_core::{Device, Sent};
use indexmap::IndexMap;
use rdma_types::{Address, EndView, Items, Name};
use serve_rules::{Pending, Tallies, Timer};
use std::alloc::{AllocError, Global};
use std::collections::VecDeque;
use std::marker::Model;

/// A served device, and what is known of its queue pairs. Contracts see it as the rules do.
#[derive(Drop)]
pub(crate) struct Server {
    pub(crate) device: Device,
    /// The base of the timers, in milliseconds.
    pub(crate) base: u64,
    /// The clock's last answer.
    pub(crate) clock: u64,
    /// The timers of queue pairs, by their numbers.
    pub(crate) timers: IndexMap<u32, Timer>,
    /// The numbers of queue pairs that may have something to send, each once.
    pub(crate) ready: VecDeque<u32>,
    /// Datagrams that were taken and have not arrived yet, the oldest first.
    pub(crate) inbox: VecDeque<(Address, Items<u8>)>,
    /// Datagrams that wait to leave, the oldest first.
    pub(crate) outgoing: VecDeque<Sent>,
    /// The numbers of queue pairs that left from here, each with its context.
    pub(crate) gone: Vec<(Name, u32)>,
    /// What the next line waits for.
    pub(crate) pending: Pending,
    pub(crate) tallies: Tallies,
}

impl Model for Server {
    ghost use Rattle.serve_rules.specs.Server as rules;

    ghost Value = { rules.Server };

    ghost view = { λ s. record { device = s.device; base = s.base; clock = s.clock; timers = s.timers.entries; ready = s.ready.items; inbox = s.inbox.items; outgoing = s.outgoing.items; gone = s.gone.items; pending = s.pending; tallies = s.tallies } };
}

impl Server {
    /// A device with nothing on it. Errors: `AllocError` when out of memory.
    pub(crate) fn make(alloc: Global, id: u8, own: Address, base: u64) -> Result<Server, AllocError>
        requires { 1 ≤ id }
        ensures { IfOk result (λ s. s ≡ rules.new_server id own base) }
    {
        Ok(Server {
            device: Device::make(alloc, id, own)?,
            base,
            clock: 0,
            timers: IndexMap::new(alloc),
            ready: VecDeque::new(alloc),
            inbox: VecDeque::new(alloc),
            outgoing: VecDeque::new(alloc),
            gone: Vec::new(alloc),
            pending: Pending::Line,
            tallies: Tallies::none(),
        })
    }

    /// The queue pair with this number may have something to send. Errors: `AllocError` when out of memory.
    #[tactic(auto, unfolding(serve_rules::specs::Server::woken))]
    pub(crate) fn wake(&mut self, number: u32) -> Result<(), AllocError>
        ensures { OnOk result (self.new ≡ rules.woken self.old number) }
    {
        if self.ready.contains(&number) {
            return Ok(());
        }
        self.ready.push_back(number)?;
        Ok(())
    }

    /// .. where it is there. Errors: `AllocError` when out of memory.
    pub(crate) fn wake_view(&mut self, view: &Option<EndView>) -> Result<(), AllocError>
        ensures { OnOk result (self.new ≡ rules.woken_view self.old view.now) }
    {
        match view {
            Some(view) => self.wake(view.number),
            None => Ok(()),
        }
    }
}
