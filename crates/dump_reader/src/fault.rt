//! Why no image was read.

ghost use Rattle.std.specs.Prelude.{◌≡◌};
ghost use Rattle.dump_reader.specs.Faults.{fault_of};
ghost use Rattle.dump_reader.specs.declared.fault.DumpFault.TheVariants.{OutOfMemory};

use crate::cursor::Offence;
use protocol::DumpWhy;
use std::alloc::AllocError;

/// Why no image was read.
#[derive(Clone, Copy, Debug, PartialEq, Eq)]
pub enum DumpFault {
    /// The bytes are no dump: at that place, for that reason.
    BadDump { place: usize, why: DumpWhy },
    /// There was no memory.
    OutOfMemory,
}

impl From<Offence> for DumpFault {
    ghost from_gives = { λ offence fault. fault ≡ fault_of offence };

    fn from(offence: Offence) -> DumpFault {
        DumpFault::BadDump {
            place: offence.place,
            why: offence.why,
        }
    }
}

impl From<AllocError> for DumpFault {
    ghost from_gives = { λ _ fault. fault ≡ OutOfMemory };

    fn from(_error: AllocError) -> DumpFault {
        DumpFault::OutOfMemory
    }
}
