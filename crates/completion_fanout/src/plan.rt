//! What is to be handed out.

ghost use Rattle.std.specs.Prelude.{◌≡◌};
ghost use Rattle.completion_fanout.specs.HandedOut.{one_worker as planned_worker};

use thread_workers::ThreadPlan;

/// The pump's number among the workers.
pub const PUMP: u32 = 1;
/// The drainer's number.
pub const DRAINER: u32 = 2;

/// 1 to 4 consumers, 1 to 10,000 additions, and a queue of 1 to 1,024 places; it has a place for each consumer at least, also
/// where `capacity` is less.
#[derive(Clone, Copy, Debug, PartialEq, Eq)]
pub struct FanPlan {
    pub consumers: u32,
    pub adds: u32,
    pub capacity: u32,
}

/// The plan of the run in which the completions come: one worker makes the additions, and nothing moves.
pub fn one_worker(plan: &FanPlan) -> ThreadPlan
    ensures { result ≡ planned_worker plan.now }
{
    ThreadPlan {
        workers: 1,
        adds: plan.adds,
        moves: 0,
    }
}
