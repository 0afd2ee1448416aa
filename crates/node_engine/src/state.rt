//! The state of a run.

ghost use Rattle.std.specs.Prelude.{◌≡◌, ◌≤◌, [], IfOk};
ghost use Rattle.node_rules.specs.Node.{new_node};
ghost use Rattle.node_rules.specs.Serve.{serving};
ghost use Rattle.host_ports.specs.Memory.{counted};

use device_core::Device;
use indexmap::IndexMap;
use rdma_types::Address;
use std::alloc::{AllocError, Global};
use std::marker::Model;

/// A device in a run, and what is known of its turns. Contracts see it as the rules of a node do.
#[derive(Drop)]
pub(crate) struct Node {
    pub(crate) device: Device,
    /// The datagrams that this run sent.
    pub(crate) sent: u64,
    /// The moment of the last active turn of each queue pair that had one, by its number.
    pub(crate) moments: IndexMap<u32, u64>,
    /// The clock's answer in the first turn of this `serve`.
    pub(crate) begun: Option<u64>,
    /// The datagrams that were taken in this `serve`.
    pub(crate) taken: u64,
    /// The queue pairs that were active in this turn.
    pub(crate) active: Vec<u32>,
}

impl Model for Node {
    ghost use Rattle.node_rules.specs.Node as rules;

    ghost Value = { rules.Node };

    ghost view = { λ n. record { device = n.device; sent = n.sent; moments = n.moments.entries; begun = n.begun; taken = n.taken; active = n.active.items } };
}

impl Node {
    /// A device with nothing on it. Errors: `AllocError` when out of memory.
    pub(crate) fn make(alloc: Global, id: u8, own: Address) -> Result<Node, AllocError>
        requires { 1 ≤ id }
        ensures { IfOk result (λ n. n ≡ new_node id own) }
    {
        Ok(Node {
            device: Device::make(alloc, id, own)?,
            sent: 0,
            moments: IndexMap::new(alloc),
            begun: None,
            taken: 0,
            active: Vec::new(alloc),
        })
    }
    /// Before the first turn of a `serve`.
    pub(crate) fn begin_serving(&mut self)
        ensures { self.new ≡ serving self.old }
    {
        self.begun = None;
        self.taken = 0;
        self.active.clear();
    }

    /// Before a turn: no end was active in it.
    pub(crate) fn begin_turn(&mut self)
        ensures { self.new ≡ record self.old { active = [] } }
    {
        self.active.clear();
    }

    /// One datagram more was taken.
    pub(crate) fn count_taken(&mut self)
        ensures { self.new ≡ record self.old { taken = counted self.old.taken } }
    {
        self.taken = self.taken.saturating_add(1);
    }
    /// The datagrams that this run sent.
    pub(crate) fn sent_count(&self) -> u64
        ensures { result ≡ self.now.sent }
    {
        self.sent
    }

    /// The datagrams that were taken in this `serve`.
    pub(crate) fn taken_count(&self) -> u64
        ensures { result ≡ self.now.taken }
    {
        self.taken
    }
}
