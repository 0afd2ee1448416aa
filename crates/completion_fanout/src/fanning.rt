//! A run by threads that drains completions and hands them out.

ghost use Rattle.std.specs.Prelude.{◌≡◌, ◌≤◌, [], IfOk, IsTrue, Some, length, slice_get};
ghost use Rattle.completion_fanout.specs.Fanned.{IsFanned};
ghost use Rattle.run_check.specs.Gathered.{drained_by};
ghost use Rattle.completion_fanout.specs.HandedOut.{IsFanPlan, IsHandedOut};

use crate::drainer::{Drained, Drainer};
use crate::plan::FanPlan;
use crate::pumping::{Pumped, join_pump, start_pump};
use crate::told::are_told;
use crate::{FanEntry, HandedOut, PopGate, hand_out};
use rdma_types::{Completion, Items};
use shared_device::{Book, OrderBook, Receipt};
use std::alloc::{AllocError, Global};
use std::sync::Wait;
use std::thread;
use std::thread::{Scope, Threads};
use thread_workers::{Gate, PlanFault, SharedDevices};

/// Completions that were handed out, with all that the check of the run takes.
#[derive(Drop)]
pub struct FanRun {
    /// What the drainer polled, in its order.
    pub drained: Items<Completion>,
    /// What consumers 101, 102 and so on took.
    pub taken: Items<Items<FanEntry>>,
    pub left: Items<FanEntry>,
    pub books: Vec<Book>,
    pub order: OrderBook,
    /// The receipts of the numbers 0, who asked for nothing, 1, the pump, and 2, the drainer.
    pub receipts: Vec<Items<Receipt>>,
}

/// The gate of workers, for consumers.
#[derive(Drop)]
struct AtGate<'a, G>(&'a G);

impl<'a, G: Gate> PopGate for AtGate<'a, G> {
    fn pass(&self, consumer: u32) {
        self.0.pass(consumer);
    }
}

/// All who have ended.
#[derive(Drop)]
struct Ended {
    out: HandedOut,
    drained: Drained,
    pumped: Option<Pumped>,
}

/// Runs pump, drainer and consumers in a scope, each in a thread of its own, and joins them. Where the start of the pump or of
/// the drainer is refused, all is halted. A consumer whose start is refused is run by the caller once the others are started.
/// The queue has a place for each end mark, also where fewer places are planned, so that the caller can put them all for a
/// drainer without a thread. Errors: out of memory; all is then halted.
fn run_in<'s, E, R: Threads + Wait + Sync, G: Gate + Sync>(
    scope: &'s Scope<'s, E>,
    rt: &'s R,
    alloc: Global,
    plan: &FanPlan,
    site: &'s SharedDevices,
    gate: &'s G,
    drainer: Drainer<'s, G>,
) -> Result<Ended, AllocError>
    requires plan { IsFanPlan plan.now }
    requires drainer { drainer.drained ≡ [] }
    ensures fanned { IfOk result (λ e. IsFanned e.drained.completions e.out.taken e.out.left) }
    ensures lists { IfOk result (λ e. length e.out.taken ≡ plan.now.consumers) }
    ensures none { IfOk result (λ e. e.out.left ≡ []) }
{
    let FanPlan {
        consumers,
        adds,
        capacity,
    } = *plan;
    let pops = AtGate(gate);
    let started = start_pump(scope, rt, alloc, site, gate, adds);
    let is_refused = started.is_none();
    let most = adds as usize + 1;
    let beside = move |is_alone: bool| {
        if is_refused || is_alone {
            site.orders.halt(rt);
        }
    };
    let handed = hand_out(
        rt,
        alloc,
        consumers,
        capacity as usize,
        most,
        &pops,
        drainer,
        beside,
    );
    if handed.is_err() {
        site.orders.halt(rt);
    }
    let (out, drainer, ()) = handed?;
    Ok(Ended {
        out,
        drained: drainer.end(),
        pumped: join_pump(rt, started),
    })
}

/// The same in a scope of its own.
fn run_all<R: Threads + Wait + Sync, G: Gate + Sync>(
    rt: &R,
    alloc: Global,
    plan: &FanPlan,
    site: &SharedDevices,
    gate: &G,
) -> Result<Ended, AllocError>
    requires { IsFanPlan plan.now }
    ensures fanned { IfOk result (λ e. IsFanned e.drained.completions e.out.taken e.out.left) }
    ensures lists { IfOk result (λ e. length e.out.taken ≡ plan.now.consumers) }
    ensures none { IfOk result (λ e. e.out.left ≡ []) }
{
    let drainer = Drainer::make(alloc, site, gate, plan.adds)?;
    thread::scope(
        thread::scope_env(),
        rt,
        move |scope| -> Result<Ended, AllocError>
            requires { IsFanPlan plan.now × (drainer.drained ≡ []) }
            ensures { IfOk result (λ e. IsFanned e.drained.completions e.out.taken e.out.left
                × (length e.out.taken ≡ plan.entry.now.consumers) × (e.out.left ≡ [])) }
        { run_in(scope, rt, alloc, plan, site, gate, drainer) },
    )
}

/// Whether there are that many completions, and they are those that the receipts tell of.
fn are_drained(
    alloc: Global,
    plan: &FanPlan,
    held: &[Receipt],
    completions: &[Completion],
) -> Result<bool, AllocError>
    ensures { IfOk result (λ b. IsTrue b → (length completions.now ≡ plan.now.adds)
        × (completions.now ≡ drained_by held.now)) }
{
    if completions.len() != plan.adds as usize {
        return Ok(false);
    }
    are_told(alloc, held, completions)
}

/// The receipts of the numbers 0 to 2, of whom 0 has none.
fn lists(
    alloc: Global,
    pumped: Items<Receipt>,
    drained: Items<Receipt>,
) -> Result<Vec<Items<Receipt>>, AllocError>
    ensures { IfOk result (λ lists. slice_get lists.items 2 ≡ Some drained) }
{
    let mut lists = Vec::with_capacity(alloc, 3)?;
    lists.push(Items::new(Vec::new(alloc)))?;
    lists.push(pumped)?;
    lists.push(drained)?;
    Ok(lists)
}

/// A run of the plan by threads: one worker makes the additions and delivers datagrams, one drains their completions, and
/// the consumers take these. Each completion is taken by one consumer, and none is left. A consumer whose start is refused is
/// run by the caller once the others are started. It may wait.
///
/// # Errors
///
/// `PlanFault::OutOfMemory`, and `PlanFault::NotAsPlanned` where the start of the worker or of the one who drains is refused,
/// where there are more or fewer completions than additions, or where they are not those that the drainer's receipts tell of.
#[tactic(auto, using(crate::proofs::FannedRuns::handed_out))]
pub fn fan_out<R: Threads + Wait + Sync, G: Gate + Sync>(
    rt: &R,
    alloc: Global,
    plan: &FanPlan,
    gate: &G,
) -> Result<FanRun, PlanFault>
    requires { IsFanPlan plan.now }
    ensures { IfOk result (λ run. IsHandedOut plan.now run.receipts.items run.drained run.taken
        run.left) }
{
    let site = SharedDevices::open(alloc, 1)?;
    let Ended {
        out,
        drained,
        pumped,
    } = run_all(rt, alloc, plan, &site, gate)?;
    let Some(pumped) = pumped else {
        return Err(PlanFault::NotAsPlanned);
    };
    if let Some(fault) = pumped.fault.or(drained.fault) {
        return Err(fault);
    }
    let Drained {
        completions,
        receipts: held,
        ..
    } = drained;
    if !are_drained(alloc, plan, held.as_slice(), completions.as_slice())? {
        return Err(PlanFault::NotAsPlanned);
    }
    let receipts = lists(alloc, pumped.receipts, held)?;
    let (books, order) = site.into_books(alloc)?;
    Ok(FanRun {
        drained: completions,
        taken: out.taken,
        left: out.left,
        books,
        order,
        receipts,
    })
}
