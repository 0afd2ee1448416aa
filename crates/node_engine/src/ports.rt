//! What a run speaks to, as one: the link, the clock, the depot and the output.

ghost use Rattle.std.specs.Prelude.{◌≡◌, ◌≤◌, length, IfOk, option_map};
ghost use Rattle.host_ports.specs.Links.{FitsIn, got_of, longest_datagram};
ghost use Rattle.node_rules.specs.Parts.{IsMadeWhole};
ghost use Rattle.node_rules.specs.Plan as plan;
ghost use Rattle.node_engine.specs.Answered.{Does, DoesAll};

use crate::NodeFault;
use host_ports::{Depot, DepotFault, Failed, Got, Link, Sink, Ticks, WriteFault, write_all_of};
use rdma_types::{Address, Name};
use std::alloc::Global;

/// The outside of a run. Each call is one of the plan of its script.
pub(crate) trait Ports {
    ghost use Rattle.node_rules.specs.Told.{Contents};

    // What the objects tell that they hold, and the faults that they counted.
    ghost contents: { Self → Contents };

    /// Starts the link.
    fn start(&mut self, own: Address) -> Result<(), NodeFault>
        ensures { DoesAll (plan.Starts own) (contents self.old) result (contents self.new) };

    /// Takes a datagram from the link.
    fn take(&mut self, out: &mut [u8]) -> Result<Got, NodeFault>
        requires { longest_datagram ≤ length out.old }
        ensures fits { IfOk result (λ g. FitsIn (length out.old) g) }
        ensures taken { Does plan.Takes (λ g. got_of g out.new) (contents self.old) result (contents self.new) };

    /// Sends a datagram over the link.
    fn send(&mut self, to: Address, bytes: &[u8]) -> Result<(), NodeFault>
        ensures { DoesAll (plan.Sends (to, bytes.now)) (contents self.old) result (contents self.new) };

    /// Asks the clock.
    fn now(&mut self) -> u64
        ensures { IsMadeWhole plan.Asks result (contents self.old) (contents self.new) };

    /// Puts bytes in the depot.
    fn put(&mut self, alloc: Global, name: Name, bytes: &[u8]) -> Result<(), NodeFault>
        ensures { DoesAll (plan.Puts name bytes.now) (contents self.old) result (contents self.new) };

    /// The bytes in the depot; None where nothing is held under the name.
    fn look(&mut self, alloc: Global, name: Name) -> Result<Option<Vec<u8>>, NodeFault>
        ensures { Does (plan.Looks name) (option_map (λ bytes. bytes.items)) (contents self.old) result (contents self.new) };

    /// Takes bytes out of the depot; None where nothing is held under the name.
    fn remove(&mut self, alloc: Global, name: Name) -> Result<Option<Vec<u8>>, NodeFault>
        ensures { Does (plan.Removes name) (option_map (λ bytes. bytes.items)) (contents self.old) result (contents self.new) };

    /// Writes a text whole.
    fn write(&mut self, text: &[u8]) -> Result<(), NodeFault>
        ensures { DoesAll (plan.Writes text.now) (contents self.old) result (contents self.new) };
}

/// The objects that a run speaks to.
#[derive(Drop)]
pub struct NodePorts<L, K, D, C> {
    pub link: L,
    pub output: K,
    pub depot: D,
    pub ticks: C,
}

impl<L: Link, K: Sink, D: Depot, C: Ticks> Ports for NodePorts<L, K, D, C> {
    ghost contents = { λ p. record { waiting = L.waiting p.link; sent = L.sent p.link; to_come = C.to_come p.ticks; held = D.held p.depot; written = K.held p.output; faults = record { link = L.faults p.link; depot = D.faults p.depot; output = K.faults p.output } } };

    fn start(&mut self, own: Address) -> Result<(), NodeFault> {
        match self.link.start(own) {
            Ok(()) => Ok(()),
            Err(Failed) => Err(NodeFault::LinkFault),
        }
    }

    fn take(&mut self, out: &mut [u8]) -> Result<Got, NodeFault> {
        match self.link.take(out) {
            Ok(got) => Ok(got),
            Err(Failed) => Err(NodeFault::LinkFault),
        }
    }

    fn send(&mut self, to: Address, bytes: &[u8]) -> Result<(), NodeFault> {
        match self.link.send_to(to, bytes) {
            Ok(()) => Ok(()),
            Err(Failed) => Err(NodeFault::LinkFault),
        }
    }

    fn now(&mut self) -> u64 {
        self.ticks.now()
    }

    fn put(&mut self, alloc: Global, name: Name, bytes: &[u8]) -> Result<(), NodeFault> {
        match self.depot.put(alloc, name, bytes) {
            Ok(()) => Ok(()),
            Err(DepotFault::Missing) => Err(NodeFault::Missing(name)),
            Err(DepotFault::Failed) => Err(NodeFault::DepotFault),
            Err(DepotFault::OutOfMemory) => Err(NodeFault::OutOfMemory),
        }
    }

    fn look(&mut self, alloc: Global, name: Name) -> Result<Option<Vec<u8>>, NodeFault> {
        match self.depot.look(alloc, name) {
            Ok(bytes) => Ok(Some(bytes)),
            Err(DepotFault::Missing) => Ok(None),
            Err(DepotFault::Failed) => Err(NodeFault::DepotFault),
            Err(DepotFault::OutOfMemory) => Err(NodeFault::OutOfMemory),
        }
    }

    fn remove(&mut self, alloc: Global, name: Name) -> Result<Option<Vec<u8>>, NodeFault> {
        match self.depot.take(alloc, name) {
            Ok(bytes) => Ok(Some(bytes)),
            Err(DepotFault::Missing) => Ok(None),
            Err(DepotFault::Failed) => Err(NodeFault::DepotFault),
            Err(DepotFault::OutOfMemory) => Err(NodeFault::OutOfMemory),
        }
    }

    fn write(&mut self, text: &[u8]) -> Result<(), NodeFault> {
        match write_all_of(&mut self.output, text) {
            Ok(()) => Ok(()),
            Err(WriteFault) => Err(NodeFault::WriteFault),
        }
    }
}
