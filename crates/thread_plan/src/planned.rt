//! The check that a run is as planned.

ghost use Rattle.std.specs.Prelude.{◌≡◌, IfOk};
ghost use Rattle.thread_plan.specs.Planned.{IsPlan, IsPlanned};

use crate::adding::all_adds;
use crate::findings::are_done;
use crate::opening::open_so;
use crate::plan::{PlanFault, ThreadPlan};
use law_orders::{fair_orders_are_legal, work_is_fair};
use rdma_types::Items;
use run_check::{Run, gather};
use shared_device::{Book, OrderBook, Receipt};
use std::alloc::Global;

/// The run that books, the order of their steps and the receipts of the numbers from 0 to `last` tell of, where it is as
/// planned; `alone` says whose run it is.
///
/// # Errors
///
/// `PlanFault::NotAsPlanned` where the books did not open as those of the plan, where books, order and receipts do not
/// agree, or where what they tell of is not what was planned; and `PlanFault::OutOfMemory`.
#[tactic(auto, using(crate::proofs::Whole::planned))]
pub fn planned_run(
    alloc: Global,
    plan: &ThreadPlan,
    last: u32,
    alone: bool,
    books: Vec<Book>,
    order: OrderBook,
    receipts: Vec<Items<Receipt>>,
) -> Result<Run, PlanFault>
    requires { IsPlan plan.now }
    ensures planned { IfOk result (IsPlanned plan.now last alone) }
    ensures receipts { IfOk result (λ run. run.receipts ≡ receipts.items) }
{
    work_is_fair();
    fair_orders_are_legal();
    let is_opened = open_so(alloc, plan.workers, books.as_slice())?;
    if !is_opened || receipts.len() != last as usize + 1 {
        return Err(PlanFault::NotAsPlanned);
    }
    if !are_done(alloc, plan, receipts.as_slice())? {
        return Err(PlanFault::NotAsPlanned);
    }
    let mut run = gather(alloc, books, order, receipts)?;
    if run.word != all_adds(plan) || run.completions != all_adds(plan) {
        return Err(PlanFault::NotAsPlanned);
    }
    run.alone = alone;
    Ok(run)
}
