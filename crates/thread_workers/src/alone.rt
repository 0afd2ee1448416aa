//! A run by one caller.

ghost use Rattle.std.specs.Prelude.{◌≤◌, ◌<◌, IfOk, IfSome, length};
ghost use Rattle.std.specs.Arc.{arc_value};
ghost use Rattle.protocol.specs.Events.{IsLawfulEvent};
ghost use Rattle.protocol.specs.Lawful.{IsLawful};
ghost use Rattle.thread_plan.specs.Planned.{IsPlan, IsRunAlone};

use crate::events::{Side, arrives, polls, releases, restore_of, stops, transmits};
use protocol::Event;
use rdma_types::{Address, Items};
use run_check::Run;
use shared_device::{Book, OrderBook, Receipt, Step, open_books};
use std::alloc::{AllocError, Global};
use std::sync::Arc;
use thread_plan::{PlanFault, ThreadPlan, addition, planned_run};

/// Books, the order of their steps, and the receipts of each number.
#[derive(Drop)]
struct Alone {
    books: Vec<Book>,
    order: OrderBook,
    receipts: Vec<Items<Receipt>>,
}

/// The place of the book of the device with an id.
fn book_of(books: &[Book], id: u8) -> Option<usize>
    ensures { IfSome result (λ i. i < length books.now) }
{
    for i in 0..books.len() {
        if books[i].opening().id() == id {
            return Some(i);
        }
    }
    None
}

/// That of the device at an address.
fn book_at(books: &[Book], address: Address) -> Option<usize>
    ensures { IfSome result (λ i. i < length books.now) }
{
    for i in 0..books.len() {
        if books[i].opening().address() == address {
            return Some(i);
        }
    }
    None
}

/// So many empty lists.
fn empty_lists(alloc: Global, count: u32) -> Result<Vec<Items<Receipt>>, AllocError> {
    let mut receipts = Vec::with_capacity(alloc, count as usize)?;
    for _ in 0..count {
        receipts.push(Items::new(Vec::new(alloc)))?;
    }
    Ok(receipts)
}

impl Alone {
    /// The openings, with nothing told to the numbers from 0 to `last`.
    fn open(alloc: Global, workers: u32, last: u32) -> Result<Alone, AllocError>
        requires { (1 ≤ workers) × (workers ≤ 8) × (last ≤ 8) }
    {
        let books = open_books(alloc, workers)?;
        let order = OrderBook::make(alloc);
        let receipts = empty_lists(alloc, last + 1)?;
        Ok(Alone {
            books,
            order,
            receipts,
        })
    }

    /// A step of a book, entered and told to a number; the answer is the step.
    fn step(
        &mut self,
        alloc: Global,
        i: usize,
        worker: u32,
        event: Event,
    ) -> Result<Arc<Step>, PlanFault>
        requires there { i < length self.old.books.items }
        requires lawful { IsLawfulEvent event }
        ensures { IfOk result (λ s. IfSome (arc_value s).outcome.image (λ i. IsLawful i)) }
    {
        let book = &mut self.books[i];
        let device = book.opening().id();
        let place = book.step(alloc, event)?;
        let step = book.share(place)?;
        let own = book.share(place)?;
        self.order
            .enter(device, place, step.outcome.sent.len() as u64)?;
        let Some(held) = self.receipts.get_mut(worker as usize) else {
            return Err(PlanFault::NotAsPlanned);
        };
        held.push(Receipt::new(worker, device, place, own))?;
        Ok(step)
    }

    /// The same of the device with an id.
    fn call(
        &mut self,
        alloc: Global,
        id: u8,
        worker: u32,
        event: Event,
    ) -> Result<Arc<Step>, PlanFault>
        requires { IsLawfulEvent event }
        ensures { IfOk result (λ s. IfSome (arc_value s).outcome.image (λ i. IsLawful i)) }
    {
        let Some(i) = book_of(self.books.as_slice(), id) else {
            return Err(PlanFault::NotAsPlanned);
        };
        self.step(alloc, i, worker, event)
    }

    /// The first datagram that a step of the device with an id sent arrives; the answer is the device's id, and its step.
    fn deliver(
        &mut self,
        alloc: Global,
        id: u8,
        worker: u32,
        step: &Step,
    ) -> Result<Option<(u8, Arc<Step>)>, PlanFault> {
        let Some(sent) = step.outcome.sent.as_slice().first() else {
            return Ok(None);
        };
        let Some(from) = book_of(self.books.as_slice(), id) else {
            return Ok(None);
        };
        let from = self.books[from].opening().address();
        let Some(i) = book_at(self.books.as_slice(), sent.to) else {
            return Ok(None);
        };
        let to = self.books[i].opening().id();
        let event = arrives(alloc, from, sent.bytes.as_slice())?;
        let step = self.step(alloc, i, worker, event)?;
        Ok(Some((to, step)))
    }

    /// Addition j of a worker: it is posted and sent, arrives at b, is answered to a, and is polled by that number.
    fn add(&mut self, alloc: Global, worker: u32, j: u32, poller: u32) -> Result<(), PlanFault>
        requires { (1 ≤ worker) × (worker ≤ 8) }
    {
        self.call(alloc, 1, worker, addition(worker, j))?;
        let request = self.call(alloc, 1, worker, transmits(Side::A, worker))?;
        if let Some((id, answer)) = self.deliver(alloc, 1, worker, &request)? {
            self.deliver(alloc, id, worker, &answer)?;
        }
        self.call(alloc, 1, poller, polls())?;
        Ok(())
    }

    /// All additions, by one worker after the other.
    fn add_all(&mut self, alloc: Global, plan: &ThreadPlan, poller: u32) -> Result<(), PlanFault>
        requires { IsPlan plan.now }
    {
        for worker in 0..plan.workers {
            for j in 0..plan.adds {
                self.add(alloc, worker + 1, j + 1, poller)?;
            }
        }
        Ok(())
    }

    /// Moves b from one device to another; `has_husk` says that b was there before.
    fn move_to(
        &mut self,
        alloc: Global,
        from: u8,
        to: u8,
        has_husk: bool,
    ) -> Result<(), PlanFault> {
        let stopped = self.call(alloc, from, 0, stops())?;
        let Some(restore) = restore_of(alloc, &stopped.outcome)? else {
            return Err(PlanFault::NotAsPlanned);
        };
        if has_husk {
            self.call(alloc, to, 0, releases())?;
        }
        self.call(alloc, to, 0, restore)?;
        Ok(())
    }

    /// All moves, from device 2 to 3, back to 2 and so on.
    fn move_all(&mut self, alloc: Global, moves: u32) -> Result<(), PlanFault> {
        let (mut from, mut to) = (2, 3);
        for i in 0..moves {
            self.move_to(alloc, from, to, i > 0)?;
            (from, to) = (to, from);
        }
        Ok(())
    }
}

/// A run of the plan by one caller, which waits for nobody: each worker's additions, one after the other, with each of its
/// completions polled by the number `poller`, at most 8; and then the moves, by number 0.
///
/// # Errors
///
/// `PlanFault::OutOfMemory`, and `PlanFault::NotAsPlanned` where the check of the run finds that it is not as planned. No
/// proof says that it never is.
pub fn run_alone(alloc: Global, plan: &ThreadPlan, poller: u32) -> Result<Run, PlanFault>
    requires plan { IsPlan plan.now }
    requires poller { poller ≤ 8 }
    ensures { IfOk result (IsRunAlone plan.now poller) }
{
    let last = plan.workers.max(poller);
    let mut alone = Alone::open(alloc, plan.workers, last)?;
    alone.add_all(alloc, plan, poller)?;
    alone.move_all(alloc, plan.moves)?;
    let Alone {
        books,
        order,
        receipts,
    } = alone;
    planned_run(alloc, plan, last, true, books, order, receipts)
}
