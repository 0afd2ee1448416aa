//! A whole script.

ghost use Rattle.std.specs.Prelude.{◌≡◌, ◌≤◌};
ghost use Rattle.node_rules.specs.Script.{node_plan, reading_does};
ghost use Rattle.script_lang.specs.Lines.{node_reading_of};
ghost use Rattle.node_engine.specs.Answered.{Answers, Does};
ghost use Rattle.node_engine.specs.Counting.{Counted};
ghost use Rattle.node_engine.specs.LineFaults.{fault_at_line};

use crate::NodeFault;
use crate::ports::{NodePorts, Ports};
use crate::state::Node;
use host_ports::{Depot, Link, Sink, Ticks};
use rdma_types::Address;
use script_lang::{LineFault, Lines, parse_node_line};
use std::alloc::Global;

/// Why a run stops where the line of this number was not read.
fn fault_at(number: u64, fault: LineFault) -> NodeFault
    ensures { result ≡ fault_at_line number fault }
{
    match fault {
        LineFault::Bad { column, why } => NodeFault::BadLine {
            line: number,
            column,
            why,
        },
        LineFault::OutOfMemory => NodeFault::OutOfMemory,
    }
}

impl Node {
    /// Reads the line of this number, and does what it says.
    fn read_line<P: Ports>(
        &mut self,
        alloc: Global,
        ports: &mut P,
        number: u64,
        line: &[u8],
    ) -> Result<(), NodeFault>
        ensures { Does (reading_does number self.old (node_reading_of line.now)) (λ done. self.new)
            (P.contents ports.old) result (P.contents ports.new) }
    {
        match parse_node_line(alloc, line) {
            Ok(line) => self.do_line(alloc, ports, line),
            Err(fault) => Err(fault_at(number, fault)),
        }
    }
}

/// Runs a script over the outside.
fn run<P: Ports>(
    alloc: Global,
    id: u8,
    own: Address,
    input: &[u8],
    ports: &mut P,
) -> Result<(), NodeFault>
    requires { 1 ≤ id }
    ensures { Answers (node_plan id own input.now) (P.contents ports.old) result
        (P.contents ports.new) }
{
    ports.start(own)?;
    let mut node = Node::make(alloc, id, own)?;
    let mut lines = Lines::new(input);
    let mut number = 0u64;
    while let Some(line) = lines.next_line() {
        number += 1;
        node.read_line(alloc, ports, number, line)?;
    }
    Ok(())
}

/// Runs a script of a node on a new device with this id and address, over a link that is started first: each line is answered
/// before the next one is done, in one write.
///
/// # Errors
///
/// The first bad line, or bytes in the depot that are no dump, or a name under which it holds nothing, where all before it is
/// done; a fault of the link, the depot or the output; or `OutOfMemory`.
pub fn run_node<L: Link, K: Sink, D: Depot, C: Ticks>(
    alloc: Global,
    id: u8,
    own: Address,
    input: &[u8],
    ports: &mut NodePorts<L, K, D, C>,
) -> Result<(), NodeFault>
    requires { 1 ≤ id }
    ensures run { Answers (node_plan id own input.now)
        (record { waiting = L.waiting ports.old.link; sent = L.sent ports.old.link; to_come = C.to_come ports.old.ticks; held = D.held ports.old.depot; written = K.held ports.old.output; faults = record { link = L.faults ports.old.link; depot = D.faults ports.old.depot; output = K.faults ports.old.output } })
        result
        (record { waiting = L.waiting ports.new.link; sent = L.sent ports.new.link; to_come = C.to_come ports.new.ticks; held = D.held ports.new.depot; written = K.held ports.new.output; faults = record { link = L.faults ports.new.link; depot = D.faults ports.new.depot; output = K.faults ports.new.output } }) }
    ensures faults { Counted
        (record { link = L.faults ports.old.link; depot = D.faults ports.old.depot; output = K.faults ports.old.output })
        result
        (record { link = L.faults ports.new.link; depot = D.faults ports.new.depot; output = K.faults ports.new.output }) }
{
    run(alloc, id, own, input, ports)
}
