//! Additions of a worker, accepted in their order.

ghost use Rattle.std.specs.Prelude.{◌≡◌, ◌≤◌, ◌<◌, IfSome, IsTrue};
ghost use Rattle.order_rules.specs.Openings.{adds as adds_here};
ghost use Rattle.thread_plan.specs.Planned.{IsPlan, adds_of as planned_adds, all_adds as all_planned};
ghost use Rattle.thread_plan.specs.Tables.{IsNextMade};

use crate::additions::addition;
use crate::plan::ThreadPlan;
use crate::tallies::accepts;
use shared_device::Receipt;
use step_differences::event_difference;

/// How many additions all workers make.
pub fn all_adds(plan: &ThreadPlan) -> u64
    requires { IsPlan plan.now }
    ensures { result ≡ all_planned plan.now }
{
    u64::from(plan.workers) * u64::from(plan.adds)
}

/// How many additions a worker is to make.
pub fn adds_of(plan: &ThreadPlan, worker: u32) -> u32
    ensures { result ≡ planned_adds plan.now worker }
{
    if worker == 0 || worker > plan.workers {
        0
    } else {
        plan.adds
    }
}

/// Whether a receipt is of addition j of a worker.
fn is_its(receipt: &Receipt, worker: u32, j: u32) -> bool
    requires { (1 ≤ worker) × (worker ≤ 9) }
    ensures { IsTrue result → receipt.now.event ≡ adds_here worker j }
{
    event_difference(receipt.event(), &addition(worker, j)).is_none()
}

/// How many additions of a worker are accepted after one more receipt; None where it is of another accepted addition, or
/// of more than there are to be.
pub fn next_made(receipt: &Receipt, worker: u32, made: u32, adds: u32) -> Option<u32>
    requires worker { 0 < adds → (1 ≤ worker) × (worker ≤ 8) }
    requires made { made ≤ adds }
    ensures next { IfSome result (λ n. IsNextMade worker made receipt.now n) }
    ensures most { IfSome result (λ n. n ≤ adds) }
{
    if !accepts(receipt) {
        return Some(made);
    }
    if made < adds && is_its(receipt, worker, made + 1) {
        return Some(made + 1);
    }
    None
}
