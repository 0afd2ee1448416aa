//! What lines say.

use rdma_types::{Name, ObjName};
use script_lang::NodeLine;

/// What an end is waited for.
#[derive(Clone, Copy, Debug, PartialEq, Eq)]
pub enum Goal {
    /// All its posted work is told.
    Idle,
    /// It is connected, and neither Paused nor Resuming.
    Running,
}

/// What a line says.
#[derive(Drop)]
pub enum ServeLine {
    /// Any line of a node but `NodeLine::Serve`.
    Node(NodeLine),
    /// The next line follows after so many milliseconds, at most 3,600,000.
    Wait(u64),
    /// The next line follows once the end has come so far or is in Error, or after so many milliseconds, 1 to 3,600,000.
    Until {
        end: ObjName,
        goal: Goal,
        limit: u64,
    },
    ShowEnd(ObjName),
    ShowContext(Name),
    Show,
}
