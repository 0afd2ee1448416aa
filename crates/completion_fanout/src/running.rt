//! Runs that are checked, or made by the caller.

ghost use Rattle.std.specs.Prelude.{◌≡◌, IfOk};
ghost use Rattle.completion_fanout.specs.HandedOut.{IsFanPlan, IsFannedRun};

use crate::FanEntry;
use crate::dealing::deal;
use crate::fanning::fan_out;
use crate::plan::{DRAINER, FanPlan, one_worker};
use crate::told::told_by;
use rdma_types::{Completion, Items};
use std::alloc::Global;
use std::sync::Wait;
use std::thread::Threads;
use thread_plan::planned_run;
use thread_workers::{Gate, PlanFault, Run, run_alone};

/// Completions that were handed out, and the run in which they came.
#[derive(Drop)]
pub struct FannedRun {
    pub run: Run,
    pub drained: Items<Completion>,
    /// What each consumer has.
    pub taken: Items<Items<FanEntry>>,
    pub left: Items<FanEntry>,
}

/// A run by threads that is as planned.
#[tactic(auto, using(crate::proofs::FannedRuns::by_threads, crate::proofs::FannedRuns::is_plan))]
fn planned_by_threads<R: Threads + Wait + Sync, G: Gate + Sync>(
    rt: &R,
    alloc: Global,
    plan: &FanPlan,
    gate: &G,
) -> Result<FannedRun, PlanFault>
    requires { IsFanPlan plan.now }
    ensures { IfOk result (IsFannedRun plan.now) }
{
    let fan = fan_out(rt, alloc, plan, gate)?;
    let worker = one_worker(plan);
    let run = planned_run(
        alloc,
        &worker,
        DRAINER,
        false,
        fan.books,
        fan.order,
        fan.receipts,
    )?;
    Ok(FannedRun {
        run,
        drained: fan.drained,
        taken: fan.taken,
        left: fan.left,
    })
}

/// The caller's own run, whose completions it deals out.
#[tactic(auto, using(crate::proofs::FannedRuns::by_caller, crate::proofs::FannedRuns::is_plan))]
fn by_caller(alloc: Global, plan: &FanPlan) -> Result<FannedRun, PlanFault>
    requires { IsFanPlan plan.now }
    ensures { IfOk result (IsFannedRun plan.now) }
{
    let run = run_alone(alloc, &one_worker(plan), DRAINER)?;
    let Some(held) = run.receipts.as_slice().get(DRAINER as usize) else {
        return Err(PlanFault::NotAsPlanned);
    };
    let drained = told_by(alloc, held.as_slice())?;
    if drained.len() != plan.adds as usize {
        return Err(PlanFault::NotAsPlanned);
    }
    let taken = deal(alloc, plan.consumers, drained.as_slice())?;
    Ok(FannedRun {
        run,
        drained: Items::new(drained),
        taken: Items::new(taken),
        left: Items::new(Vec::new(alloc)),
    })
}

/// Hands completions out by threads, and checks the run in which they came. Where it is not as planned, the caller makes the
/// run itself and deals the completions out, and `run.alone` tells so. Each completion is taken once either way. It may wait.
///
/// # Errors
///
/// `PlanFault::OutOfMemory`, and `PlanFault::NotAsPlanned` where the caller's own run is not as planned either.
pub fn run_fan_out<R: Threads + Wait + Sync, G: Gate + Sync>(
    rt: &R,
    alloc: Global,
    plan: &FanPlan,
    gate: &G,
) -> Result<FannedRun, PlanFault>
    requires { IsFanPlan plan.now }
    ensures { IfOk result (IsFannedRun plan.now) }
{
    match planned_by_threads(rt, alloc, plan, gate) {
        Err(PlanFault::NotAsPlanned) => by_caller(alloc, plan),
        other => other,
    }
}
