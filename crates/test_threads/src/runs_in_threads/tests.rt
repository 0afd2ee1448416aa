//! Two polls of an empty queue at device 1, gathered as they were told and with a fault.

ghost use Rattle.std.specs.Prelude.{IfOk, IfSome};
ghost use Rattle.protocol.specs.Events.{IsLawfulEvent};
ghost use Rattle.shared_device.specs.Books.{AreApart};

use protocol::{Event, Outcome};
use rdma_types::{Address, Answer, Items, Name, ObjName, Sent};
use run_check::{Run, RunFault, gather};
use shared_device::{Book, OrderBook, Receipt, Step, open_books};
use std::alloc::{AllocError, Global};
use std::sync::Arc;
use thread_plan::{PlanFault, ThreadPlan, planned_run};

/// What is wrong with the first of two steps, or with what is told of both.
#[derive(Clone, Copy, PartialEq, Eq)]
enum Fault {
    None,
    /// Its receipt has a place more.
    Place,
    /// Its receipt has another event.
    Event,
    /// Its receipt has another answer.
    Answer,
    /// Its receipt has a datagram more.
    Count,
    /// Its receipt has another worker's number.
    Worker,
    /// It is not entered into the order.
    NotEntered,
    /// It has no receipt.
    NotTold,
    /// A third step stands in the journal alone.
    Journal,
}

/// A poll of a's queue, for so many completions.
fn poll_of(max: u32) -> Option<Event>
    ensures { IfSome result (λ e. IsLawfulEvent e) }
{
    let cq = ObjName {
        context: Name::read(b"a")?,
        name: Name::read(b"c")?,
    };
    Some(Event::Poll { cq, max })
}

/// A poll of a's queue.
pub(crate) fn poll() -> Option<Event>
    ensures { IfSome result (λ e. IsLawfulEvent e) }
{
    poll_of(256)
}

/// What a poll of nothing answers, as it is told.
fn answer_told(alloc: Global, fault: Fault) -> Answer {
    if fault == Fault::Answer {
        return Answer::Idle;
    }
    Answer::Polled(Items::new(Vec::new(alloc)))
}

/// One datagram without bytes.
fn one_sent(alloc: Global, to: Address) -> Option<Items<Sent>> {
    let bytes = Items::new(Vec::new(alloc));
    let number = None;
    let sent = vec![in alloc; Sent { to, number, bytes }].ok()?;
    Some(Items::new(sent))
}

/// What a poll sends, as it is told.
fn sent_told(alloc: Global, to: Address, fault: Fault) -> Option<Items<Sent>> {
    if fault == Fault::Count {
        return one_sent(alloc, to);
    }
    Some(Items::new(Vec::new(alloc)))
}

/// For how many completions a poll asks, as it is told.
fn max_told(fault: Fault) -> u32 {
    if fault == Fault::Event { 255 } else { 256 }
}

/// The outcome of a poll of nothing, as it is told.
fn outcome_told(alloc: Global, to: Address, fault: Fault) -> Option<Outcome> {
    let sent = sent_told(alloc, to, fault)?;
    Some(Outcome {
        answer: answer_told(alloc, fault),
        sent,
        image: None,
    })
}

/// A poll of nothing, as it is told.
fn step_told(alloc: Global, to: Address, fault: Fault) -> Option<Arc<Step>> {
    let event = poll_of(max_told(fault))?;
    let outcome = outcome_told(alloc, to, fault)?;
    Arc::new(alloc, Step { event, outcome }).ok()
}

/// The receipt of the poll at a place, as it is told to worker 0.
fn receipt_told(
    alloc: Global,
    device: u8,
    to: Address,
    place: u64,
    fault: Fault,
) -> Option<Receipt> {
    let worker = if fault == Fault::Worker { 1 } else { 0 };
    let place = place.checked_add(if fault == Fault::Place { 1 } else { 0 })?;
    let step = step_told(alloc, to, fault)?;
    Some(Receipt::new(worker, device, place, step))
}

/// A step of a book that worker 0 asks for, with its receipt.
fn asked(alloc: Global, book: &mut Book, order: &mut OrderBook, fault: Fault) -> Option<Receipt> {
    let place = book.step(alloc, poll()?).ok()?;
    let device = book.opening().id();
    if fault != Fault::NotEntered {
        order.enter(device, place, 0).ok()?;
    }
    receipt_told(alloc, device, book.opening().address(), place, fault)
}

/// One book.
#[tactic(auto, using(crate::proofs::Apart::are_apart))]
fn alone(alloc: Global, book: Book) -> Result<Vec<Book>, AllocError>
    ensures { IfOk result (λ books. AreApart books.items) }
{
    let mut books = Vec::new(alloc);
    books.push(book)?;
    Ok(books)
}

/// The number of entries, the word and the number of completions; or the place of the disagreement and its two values.
pub(crate) fn told(run: Result<Run, RunFault>) -> Option<[u64; 3]> {
    match run {
        Ok(run) => Some([run.order.len() as u64, run.word, run.completions]),
        Err(RunFault::Disagree { place, left, right }) => Some([place, left, right]),
        Err(RunFault::OutOfMemory) => None,
    }
}

/// The run of one book.
pub(crate) fn run_of(
    alloc: Global,
    book: Book,
    order: OrderBook,
    receipts: Vec<Items<Receipt>>,
) -> Result<Run, RunFault> {
    let books = alone(alloc, book)?;
    gather(alloc, books, order, receipts)
}

/// The receipts of two polls, without the first where it is not told.
fn both(alloc: Global, first: Receipt, second: Receipt, fault: Fault) -> Option<Items<Receipt>> {
    let mut held = Items::new(Vec::new(alloc));
    if fault != Fault::NotTold {
        held.push(first).ok()?;
    }
    held.push(second).ok()?;
    Some(held)
}

/// Two polls, the first of which has a fault.
fn polled_twice(
    alloc: Global,
    book: &mut Book,
    order: &mut OrderBook,
    fault: Fault,
) -> Option<Items<Receipt>> {
    let first = asked(alloc, book, order, fault)?;
    let second = asked(alloc, book, order, Fault::None)?;
    both(alloc, first, second, fault)
}

/// A third poll that stands in the journal alone, where that is the fault.
fn polled_alone(alloc: Global, book: &mut Book, fault: Fault) -> Option<()> {
    if fault == Fault::Journal {
        book.step(alloc, poll()?).ok()?;
    }
    Some(())
}

/// The receipts of a worker whose book is polled twice, with a fault.
fn polls(
    alloc: Global,
    book: &mut Book,
    order: &mut OrderBook,
    fault: Fault,
) -> Option<Vec<Items<Receipt>>> {
    let held = polled_twice(alloc, book, order, fault)?;
    polled_alone(alloc, book, fault)?;
    vec![in alloc; held].ok()
}

/// The book of device 1 as it opens for one worker.
fn first_book(alloc: Global) -> Option<Book> {
    open_books(alloc, 1).ok()?.into_iter().next()
}

/// The run of a book that is polled twice, with a fault.
fn faulty_run(
    alloc: Global,
    mut book: Book,
    mut order: OrderBook,
    fault: Fault,
) -> Option<Result<Run, RunFault>> {
    let receipts = polls(alloc, &mut book, &mut order, fault)?;
    Some(run_of(alloc, book, order, receipts))
}

/// What is gathered of two polls, the first of which has a fault.
fn gathered(alloc: Global, fault: Fault) -> Option<[u64; 3]> {
    let book = first_book(alloc)?;
    told(faulty_run(alloc, book, OrderBook::make(alloc), fault)?)
}

#[test]
fn two_polls_are_gathered(rt: HostRuntime) {
    assert_eq!(rt; gathered(rt.alloc(), Fault::None), Some([2, 0, 0]));
}

#[test]
fn a_changed_receipt_is_found(rt: HostRuntime) {
    assert_eq!(rt; gathered(rt.alloc(), Fault::Place), Some([0, 0, 1]));
    assert_eq!(rt; gathered(rt.alloc(), Fault::Event), Some([0, 0, 1]));
    assert_eq!(rt; gathered(rt.alloc(), Fault::Answer), Some([0, 5, 7]));
    assert_eq!(rt; gathered(rt.alloc(), Fault::Count), Some([0, 0, 1]));
    assert_eq!(rt; gathered(rt.alloc(), Fault::Worker), Some([0, 1, 0]));
}

#[test]
fn a_step_that_one_tells_of_alone_is_found(rt: HostRuntime) {
    assert_eq!(rt; gathered(rt.alloc(), Fault::NotEntered), Some([1, 1, 0]));
    assert_eq!(rt; gathered(rt.alloc(), Fault::NotTold), Some([0, 0, 1]));
    assert_eq!(rt; gathered(rt.alloc(), Fault::Journal), Some([2, 2, 3]));
}

/// Why a run of no step is no run of one addition.
fn idle(alloc: Global) -> Option<PlanFault> {
    let plan = ThreadPlan {
        workers: 1,
        adds: 1,
        moves: 0,
    };
    let books = open_books(alloc, 1).ok()?;
    let order = OrderBook::make(alloc);
    let mut receipts = Vec::new(alloc);
    receipts.push(Items::new(Vec::new(alloc))).ok()?;
    receipts.push(Items::new(Vec::new(alloc))).ok()?;
    planned_run(alloc, &plan, 1, true, books, order, receipts).err()
}

#[test]
fn a_missing_addition_is_found(rt: HostRuntime) {
    assert_eq!(rt; idle(rt.alloc()), Some(PlanFault::NotAsPlanned));
}
