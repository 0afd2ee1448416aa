//! How a run of a node ended.

use node_engine::NodeFault;
use rdma_types::{Address, Name};

/// The address of the partner: 10.0.0.1 and the port of RoCEv2.
pub(crate) const ONE: Address = Address {
    ip: 0x0a00_0001,
    port: 4791,
};

/// The address of the node.
pub(crate) const TWO: Address = Address {
    ip: 0x0a00_0002,
    port: 4791,
};

/// How a run ended: the line and column of a bad line, the place of a fault in a dump, the name of a missing one.
#[derive(Clone, Copy, Debug, PartialEq, Eq)]
pub(crate) enum Ending {
    Answered,
    BadLine(u64, usize),
    BadDump(usize),
    Missing(Name),
    WriteFault,
    LinkFault,
    DepotFault,
    OutOfMemory,
}

/// How a run ended that answered this.
pub(crate) fn end_of(answer: &Result<(), NodeFault>) -> Ending {
    match answer {
        Ok(()) => Ending::Answered,
        Err(NodeFault::BadLine { line, column, .. }) => Ending::BadLine(*line, *column),
        Err(NodeFault::BadDump { place, .. }) => Ending::BadDump(*place),
        Err(NodeFault::Missing(name)) => Ending::Missing(*name),
        Err(NodeFault::WriteFault) => Ending::WriteFault,
        Err(NodeFault::LinkFault) => Ending::LinkFault,
        Err(NodeFault::DepotFault) => Ending::DepotFault,
        Err(NodeFault::OutOfMemory) => Ending::OutOfMemory,
    }
}

/// The ending of a run that finds nothing under the name `f`.
pub(crate) fn missing() -> Option<Ending> {
    Name::read(b"f").map(Ending::Missing)
}
