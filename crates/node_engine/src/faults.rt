//! Why a script of a node was not answered to its end.

ghost use Rattle.std.specs.Prelude.{◌≡◌};
ghost use Rattle.node_engine.specs.declared.faults.NodeFault.TheVariants as fault;
ghost use Rattle.node_engine.specs.Faults.{fault_of_dump};

use dump_reader::DumpFault;
use protocol::DumpWhy;
use rdma_types::Name;
use script_lang::LineWhy;
use std::alloc::AllocError;
use thiserror::Error;

/// Why a run stopped before the end of its script.
#[derive(Clone, Copy, Debug, Error)]
pub enum NodeFault {
    /// The line of this number, counted from 1, is in no form. The column, counted in bytes from 1, is that of its first
    /// word that is wrong, or one past its end where a word is missing.
    #[error("a line is in no form")]
    BadLine {
        line: u64,
        column: usize,
        why: LineWhy,
    },
    /// The bytes under a name in the depot are no dump: at that place, for that reason.
    #[error("the bytes under a name are no dump")]
    BadDump {
        place: usize,
        why: DumpWhy,
    },
    #[error("the output could not be written")]
    WriteFault,
    #[error("the link failed")]
    LinkFault,
    #[error("the depot failed")]
    DepotFault,
    /// The depot holds nothing under the name.
    #[error("nothing is held under a name")]
    Missing(Name),
    #[error("out of memory")]
    OutOfMemory,
}

impl From<AllocError> for NodeFault {
    ghost from_gives = { λ _ e. e ≡ fault.OutOfMemory };

    fn from(_e: AllocError) -> NodeFault {
        NodeFault::OutOfMemory
    }
}

impl From<DumpFault> for NodeFault {
    ghost from_gives = { λ f e. e ≡ fault_of_dump f };

    fn from(fault: DumpFault) -> NodeFault {
        match fault {
            DumpFault::BadDump { place, why } => NodeFault::BadDump { place, why },
            DumpFault::OutOfMemory => NodeFault::OutOfMemory,
        }
    }
}
