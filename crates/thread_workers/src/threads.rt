//! A run by threads.

ghost use Rattle.std.specs.Prelude.{◌≤◌, IfOk};
ghost use Rattle.thread_plan.specs.Planned.{IsPlan, IsRunByThreads};

use crate::alone::run_alone;
use crate::gate::Gate;
use crate::hand::Stepper;
use crate::moving::move_all;
use crate::site::SharedDevices;
use crate::working::{drain, work};
use rdma_types::Items;
use run_check::Run;
use shared_device::{Book, OrderBook, Receipt};
use std::alloc::{AllocError, Global};
use std::collections::VecDeque;
use std::sync::Wait;
use std::thread;
use std::thread::{JoinHandle, Threads};
use thread_plan::{PlanFault, ThreadPlan, planned_run};

/// What became of one of them: its receipts, and why it failed.
#[derive(Drop)]
struct Served {
    receipts: Items<Receipt>,
    fault: Option<PlanFault>,
}

/// What one of them does: number 0 moves, and each other one works. Where it fails, all is halted.
fn serve<R: Wait, G: Gate>(
    rt: &R,
    alloc: Global,
    plan: &ThreadPlan,
    site: &SharedDevices,
    gate: &G,
    number: u32,
) -> Served
    requires { IsPlan plan.now × (number ≤ plan.now.workers) }
{
    let mut hand = Stepper::new(site, gate, number, Items::new(Vec::new(alloc)));
    let done = if number == 0 {
        move_all(rt, alloc, &mut hand, plan.workers, plan.moves)
    } else {
        work(rt, alloc, &mut hand, number, plan.adds)
    };
    if done.is_err() {
        site.orders.halt(rt);
    }
    Served {
        receipts: hand.into_receipts(),
        fault: done.err(),
    }
}

/// What became of those whose threads could not be started: the caller does their work, one after the other.
fn serve_rest<R: Wait, G: Gate>(
    rt: &R,
    alloc: Global,
    plan: &ThreadPlan,
    site: &SharedDevices,
    gate: &G,
    started: &[Option<JoinHandle<Served>>],
) -> Result<VecDeque<Served>, AllocError>
    requires { IsPlan plan.now }
{
    let mut own = VecDeque::with_capacity(alloc, started.len())?;
    for number in 0..plan.workers + 1 {
        if let Some(None) = started.get(number as usize) {
            own.push_back(serve(rt, alloc, plan, site, gate, number))?;
        }
    }
    Ok(own)
}

/// What became of all, by their numbers, when the threads have ended.
fn join_all<R: Threads>(
    rt: &R,
    alloc: Global,
    started: Vec<Option<JoinHandle<Served>>>,
    mut own: VecDeque<Served>,
) -> Result<Vec<Served>, AllocError> {
    let mut all = Vec::with_capacity(alloc, started.len())?;
    for handle in started {
        let served = match handle {
            Some(handle) => Some(handle.join(rt)),
            None => own.pop_front(),
        };
        if let Some(served) = served {
            all.push(served)?;
        }
    }
    Ok(all)
}

/// What became of each, in a thread of its own; one that cannot be started is run by the caller once the others are started.
fn serve_all<R: Threads + Wait + Sync, G: Gate + Sync>(
    rt: &R,
    alloc: Global,
    plan: &ThreadPlan,
    site: &SharedDevices,
    gate: &G,
) -> Result<Vec<Served>, AllocError>
    requires { IsPlan plan.now }
{
    thread::scope(
        thread::scope_env(),
        rt,
        move |scope| -> Result<Vec<Served>, AllocError>
            requires { IsPlan plan.now }
        {
            let count = plan.workers + 1;
            let mut started = Vec::with_capacity(alloc, count as usize)?;
            for number in 0..count {
                let handle = scope.spawn(
                    move ||
                        requires { IsPlan plan.now × (number ≤ plan.now.workers) }
                    { serve(rt, alloc, plan, site, gate, number) },
                );
                started.push(handle.ok())?;
            }
            let own = serve_rest(rt, alloc, plan, site, gate, started.as_slice())?;
            join_all(rt, alloc, started, own)
        },
    )
}

/// Why the first of them failed that did.
fn first_fault(all: &[Served]) -> Option<PlanFault> {
    all.iter().find_map(|served| served.fault)
}

/// The receipts of all.
fn receipts_of(alloc: Global, all: Vec<Served>) -> Result<Vec<Items<Receipt>>, AllocError> {
    let mut lists = Vec::with_capacity(alloc, all.len())?;
    for served in all {
        lists.push(served.receipts)?;
    }
    Ok(lists)
}

/// Polls what is left as number 0, whose receipts are the first list.
fn finish<R: Wait, G: Gate>(
    rt: &R,
    alloc: Global,
    site: &SharedDevices,
    gate: &G,
    receipts: &mut Vec<Items<Receipt>>,
) -> Result<(), PlanFault> {
    let Some(first) = receipts.first_mut() else {
        return Err(PlanFault::NotAsPlanned);
    };
    let held = std::mem::replace(first, Items::new(Vec::new(alloc)));
    let mut hand = Stepper::new(site, gate, 0, held);
    drain(rt, alloc, &mut hand)?;
    *first = hand.into_receipts();
    Ok(())
}

/// The books, the order and the receipts of a run by threads.
fn by_threads<R: Threads + Wait + Sync, G: Gate + Sync>(
    rt: &R,
    alloc: Global,
    plan: &ThreadPlan,
    gate: &G,
) -> Result<(Vec<Book>, OrderBook, Vec<Items<Receipt>>), PlanFault>
    requires { IsPlan plan.now }
{
    let site = SharedDevices::open(alloc, plan.workers)?;
    let all = serve_all(rt, alloc, plan, &site, gate)?;
    if let Some(fault) = first_fault(all.as_slice()) {
        return Err(fault);
    }
    let mut receipts = receipts_of(alloc, all)?;
    finish(rt, alloc, &site, gate, &mut receipts)?;
    let (books, order) = site.into_books(alloc)?;
    Ok((books, order, receipts))
}

/// A run by threads that is as planned.
fn planned_by_threads<R: Threads + Wait + Sync, G: Gate + Sync>(
    rt: &R,
    alloc: Global,
    plan: &ThreadPlan,
    gate: &G,
) -> Result<Run, PlanFault>
    requires { IsPlan plan.now }
    ensures { IfOk result (IsRunByThreads plan.now) }
{
    let (books, order, receipts) = by_threads(rt, alloc, plan, gate)?;
    planned_run(alloc, plan, plan.workers, false, books, order, receipts)
}

/// A run of the plan by threads, one for each worker and one for the mover: each worker adds on its own queue pair, and the
/// mover moves b from device to device. After all have ended, the run is checked; where it is not as planned, the caller
/// makes the run itself, and `alone` tells so.
///
/// # Errors
///
/// `PlanFault::OutOfMemory`, and `PlanFault::NotAsPlanned` where the caller's own run is not as planned either.
pub fn run_threads<R: Threads + Wait + Sync, G: Gate + Sync>(
    rt: &R,
    alloc: Global,
    plan: &ThreadPlan,
    gate: &G,
) -> Result<Run, PlanFault>
    requires { IsPlan plan.now }
    ensures { IfOk result (IsRunByThreads plan.now) }
{
    match planned_by_threads(rt, alloc, plan, gate) {
        Err(PlanFault::NotAsPlanned) => run_alone(alloc, plan, 0),
        other => other,
    }
}
