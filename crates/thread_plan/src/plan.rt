//! A plan, and why there is no run of it.

use run_check::RunFault;
use std::alloc::AllocError;
use thiserror::Error;

/// What threads are to do: 1 to 8 workers make 1 to 10,000 additions each, while one context is moved at most 8 times.
#[derive(Clone, Copy, Debug, PartialEq, Eq)]
pub struct ThreadPlan {
    pub workers: u32,
    /// Additions of each worker.
    pub adds: u32,
    pub moves: u32,
}

/// Why there is no run as planned.
#[derive(Clone, Copy, Debug, PartialEq, Eq, Error)]
pub enum PlanFault {
    /// The steps that were made are not those of the plan, or do not agree.
    #[error("the run is not as planned")]
    NotAsPlanned,
    #[error("out of memory")]
    OutOfMemory,
}

impl From<AllocError> for PlanFault {
    ghost use Rattle.std.specs.Prelude.{◌≡◌};
    ghost use Rattle.thread_plan.specs.declared.plan.PlanFault.TheVariants.{OutOfMemory};

    ghost from_gives = { λ _ fault. fault ≡ OutOfMemory };

    fn from(_: AllocError) -> PlanFault {
        PlanFault::OutOfMemory
    }
}

impl From<RunFault> for PlanFault {
    ghost use Rattle.std.specs.Prelude.{◌≡◌};
    ghost use Rattle.thread_plan.specs.Planned.{plan_fault_of};

    ghost from_gives = { λ fault given. given ≡ plan_fault_of fault };

    fn from(fault: RunFault) -> PlanFault {
        match fault {
            RunFault::Disagree { .. } => PlanFault::NotAsPlanned,
            RunFault::OutOfMemory => PlanFault::OutOfMemory,
        }
    }
}
