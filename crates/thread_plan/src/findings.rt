//! What one pass over all receipts finds.

ghost use Rattle.std.specs.Prelude.{◌≤◌, ◌<◌, IfOk, IfSome, IsTrue};
ghost use Rattle.thread_plan.specs.Planned.{IsDone, IsPlan};
ghost use Rattle.thread_plan.specs.Seen.{AreAllSeen, AreSeen, HasAll, IsNothing, IsSeen};

use crate::adding::{adds_of, next_made};
use crate::completing::{Table, are_full, make_tables, note_polled};
use crate::plan::ThreadPlan;
use crate::tallies::Tallies;
use crate::working::is_asked;
use rdma_types::Items;
use shared_device::Receipt;
use std::alloc::{AllocError, Global};

/// What was found in the receipts that were gone through.
#[derive(Drop)]
struct Findings {
    tallies: Tallies,
    tables: Vec<Table>,
}

impl Findings {
    /// Nothing yet. Errors: out of memory.
    fn nothing(alloc: Global, plan: &ThreadPlan) -> Result<Findings, AllocError>
        ensures { IfOk result (IsNothing plan.now) }
    {
        let tables = make_tables(alloc, plan)?;
        Ok(Findings {
            tallies: Tallies::none(),
            tables,
        })
    }

    /// Goes on by one receipt of a worker of whom `made` additions are accepted before it, and tells how many are then;
    /// None where it is not of what was planned.
    fn see(&mut self, receipt: &Receipt, worker: u32, made: u32, adds: u32) -> Option<u32>
        requires worker { 0 < adds → (1 ≤ worker) × (worker ≤ 8) }
        requires made { made ≤ adds }
        ensures seen { IfSome result (λ next. IsSeen worker made receipt.now next self.old
            self.new) }
        ensures most { IfSome result (λ next. next ≤ adds) }
    {
        if !is_asked(receipt.device(), receipt.event()) {
            return None;
        }
        if !note_polled(&mut self.tables, &receipt.outcome().answer) {
            return None;
        }
        self.tallies = self.tallies.with_receipt(receipt)?;
        next_made(receipt, worker, made, adds)
    }

    /// Goes on by all receipts of a worker, and says whether they are of what was planned, with each addition of the worker.
    fn see_worker(&mut self, held: &[Receipt], worker: u32, adds: u32) -> bool
        requires { 0 < adds → (1 ≤ worker) × (worker ≤ 8) }
        ensures { IsTrue result → AreSeen worker adds held.now self.old self.new }
    {
        let mut made = 0;
        for receipt in held {
            let Some(next) = self.see(receipt, worker, made, adds) else {
                return false;
            };
            made = next;
        }
        made == adds
    }

    /// Goes on by all receipts of all workers, and says whether they are of what was planned, with each addition.
    fn see_all(&mut self, plan: &ThreadPlan, receipts: &[Items<Receipt>]) -> bool
        requires { IsPlan plan.now }
        ensures { IsTrue result → AreAllSeen plan.now receipts.now self.old self.new }
    {
        for i in 0..receipts.len() {
            let Ok(worker) = u32::try_from(i) else {
                return false;
            };
            if !self.see_worker(receipts[i].as_slice(), worker, adds_of(plan, worker)) {
                return false;
            }
        }
        true
    }

    /// Whether as much was found as was planned.
    fn has_all(&self, plan: &ThreadPlan) -> bool
        requires { IsPlan plan.now }
        ensures { IsTrue result → HasAll plan.now self.now }
    {
        self.tallies.are_as_many(plan) && are_full(self.tables.as_slice())
    }
}

/// Whether the receipts tell of what was planned.
pub fn are_done(
    alloc: Global,
    plan: &ThreadPlan,
    receipts: &[Items<Receipt>],
) -> Result<bool, AllocError>
    requires { IsPlan plan.now }
    ensures { IfOk result (λ b. IsTrue b → IsDone plan.now receipts.now) }
{
    let mut found = Findings::nothing(alloc, plan)?;
    if !found.see_all(plan, receipts) {
        return Ok(false);
    }
    Ok(found.has_all(plan))
}
