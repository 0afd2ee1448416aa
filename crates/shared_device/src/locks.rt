//! Locks round the order and round devices.

ghost use Rattle.std.specs.Prelude.{◌≡◌, IfOk, IfSome, OnErr};
ghost use Rattle.std.specs.Arc.{arc_value};
ghost use Rattle.protocol.specs.Events.{IsLawfulEvent};
ghost use Rattle.protocol.specs.Lawful.{IsLawful};
ghost use Rattle.shared_device.specs.Books.{IsBookStep, IsOutcomeAfter, IsReceiptOf, IsReceiptOfStep, IsStepOf, MayHaveStepped};

use crate::{Book, OrderBook, Receipt, Step};
use protocol::{Event, Outcome};
use rdma_types::Address;
use std::alloc::{AllocError, Global};
use std::marker::Model;
use std::sync::{Arc, Condvar, Mutex, MutexGuard, Wait};

/// The order book, and what the threads that write into it tell one another.
#[derive(Drop)]
struct Desk {
    book: OrderBook,
    /// How many turns have ended with news.
    turns: u64,
    halted: bool,
}

/// A lock round an order book. A thread that waits at it sleeps until another one's turn has ended with news, or the orders
/// are halted.
#[derive(Drop)]
pub struct Orders {
    desk: Mutex<Desk>,
    changes: Condvar,
}

impl Orders {
    /// The lock, which is not halted.
    pub fn make(book: OrderBook) -> Orders {
        Orders {
            desk: Mutex::new(Desk {
                book,
                turns: 0,
                halted: false,
            }),
            changes: Condvar::new(),
        }
    }

    /// Enters a step.
    fn enter<R: Wait>(
        &self,
        rt: &R,
        device: u8,
        place: u64,
        outcome: &Outcome,
    ) -> Result<(), AllocError> {
        let count = outcome.sent.len() as u64;
        self.desk.lock(rt).book.enter(device, place, count)
    }

    /// How many turns have ended with news.
    pub fn turns<R: Wait>(&self, rt: &R) -> u64 {
        self.desk.lock(rt).turns
    }

    /// A turn has ended with news: all who wait are woken. The answer counts it too.
    pub fn end_turn<R: Wait>(&self, rt: &R) -> u64 {
        let mut desk = self.desk.lock(rt);
        desk.turns = desk.turns.saturating_add(1);
        self.changes.notify_all();
        desk.turns
    }

    /// From now on each wait ends.
    pub fn halt<R: Wait>(&self, rt: &R) {
        let mut desk = self.desk.lock(rt);
        desk.halted = true;
        self.changes.notify_all();
    }

    /// Whether each wait ends.
    pub fn is_halted<R: Wait>(&self, rt: &R) -> bool {
        self.desk.lock(rt).halted
    }

    /// Waits until more turns than `seen` have ended with news, or the orders are halted; and whether they are not halted.
    pub fn wait_past<R: Wait>(&self, rt: &R, seen: u64) -> bool {
        let desk = self.changes.wait_while(
            rt,
            self.desk.lock(rt),
            |desk| !desk.halted && desk.turns <= seen,
        );
        !desk.halted
    }

    /// The order book, without its lock.
    pub fn into_book(self) -> OrderBook {
        let Orders { desk, .. } = self;
        let Desk { book, .. } = desk.into_inner();
        book
    }
}

/// A lock round the book of a device. Contracts see the device's id.
#[derive(Drop)]
pub struct Station {
    id: u8,
    address: Address,
    book: Mutex<Book>,
}

impl Model for Station {
    ghost use Rattle.std.specs.Prelude.{ℕ};

    ghost Value = { ℕ };

    ghost view = { λ s. s.id };
}

impl Station {
    /// The lock round a book.
    pub fn make(book: Book) -> Station
        ensures { result ≡ book.opening.id }
    {
        let id = book.opening().id();
        let address = book.opening().address();
        Station {
            id,
            address,
            book: Mutex::new(book),
        }
    }

    /// The device's id.
    pub fn id(&self) -> u8
        ensures { result ≡ self.now }
    {
        self.id
    }

    /// The device's address.
    pub fn address(&self) -> Address {
        self.address
    }

    /// Takes the lock of the device, for several steps.
    pub fn lock<'a, R: Wait>(&'a self, rt: &R, orders: &'a Orders) -> StationGuard<'a>
        ensures { result.id ≡ self.now }
    {
        let book = self.book.lock(rt);
        StationGuard {
            id: self.id,
            address: self.address,
            orders,
            book,
        }
    }

    /// One step under the lock of the device, as `StationGuard::call` makes it.
    pub fn call<R: Wait>(
        &self,
        rt: &R,
        alloc: Global,
        orders: &Orders,
        worker: u32,
        event: Event,
    ) -> Result<Receipt, AllocError>
        requires { IsLawfulEvent event }
        ensures ok { IfOk result (λ r. IsReceiptOf self.now worker event r) }
        ensures outcome { IfOk result (λ r. IsOutcomeAfter r.place event r.outcome) }
        ensures image { IfOk result (λ r. IfSome r.outcome.image (λ i. IsLawful i)) }
    {
        self.lock(rt, orders).call(rt, alloc, worker, event)
    }

    /// The book, without its lock.
    pub fn into_book(self) -> Book {
        let Station { book, .. } = self;
        book.into_inner()
    }
}

/// The lock of a device, held for several steps. Contracts see the device's id, and the book under the lock.
#[derive(Drop)]
pub struct StationGuard<'a> {
    id: u8,
    address: Address,
    orders: &'a Orders,
    book: MutexGuard<'a, Book>,
}

impl<'a> Model for StationGuard<'a> {
    ghost use Rattle.std.specs.Sync.Mutex.{mutex_guard_value};
    ghost use Rattle.shared_device.specs.Books.{GuardView};

    ghost Value = { GuardView };

    ghost view = { λ s. record { id = s.id; book = mutex_guard_value s.book } };
}

impl<'a> StationGuard<'a> {
    /// The device's id.
    pub fn id(&self) -> u8
        ensures { result ≡ self.now.id }
    {
        self.id
    }

    /// The device's address.
    pub fn address(&self) -> Address {
        self.address
    }

    /// Steps the device on a lawful event, and enters the step into the orders. The receipt tells what was asked, by whom,
    /// the step's place in the book, and the outcome that the rules give, whose image keeps the rules. Errors: `AllocError`
    /// when out of memory; the orders are then halted, and the step may stand in the book alone.
    #[tactic(auto, using(crate::proofs::Held::event_is, crate::proofs::Held::receipt_of_step))]
    pub fn call<R: Wait>(
        &mut self,
        rt: &R,
        alloc: Global,
        worker: u32,
        event: Event,
    ) -> Result<Receipt, AllocError>
        requires { IsLawfulEvent event }
        ensures ok { IfOk result (λ r. IsReceiptOf self.old.id worker event r) }
        ensures step { IfOk result (λ r. IsReceiptOfStep self.old.book self.new.book event r) }
        ensures image { IfOk result (λ r. IfSome r.outcome.image (λ i. IsLawful i)) }
        ensures err { OnErr result (MayHaveStepped self.old.book self.new.book event) }
        ensures same { self.new.id ≡ self.old.id }
    {
        let made = self.make(rt, alloc, event);
        if made.is_err() {
            self.orders.halt(rt);
        }
        let (place, step) = made?;
        Ok(Receipt::new(worker, self.id, place, step))
    }

    /// Makes a step and enters it. The answer is its place in the book, and the step, which the book shares.
    fn make<R: Wait>(
        &mut self,
        rt: &R,
        alloc: Global,
        event: Event,
    ) -> Result<(u64, Arc<Step>), AllocError>
        requires { IsLawfulEvent event }
        ensures step { IfOk result (λ s. IsBookStep self.old.book self.new.book event s.0) }
        ensures made { IfOk result (λ s. IsStepOf self.new.book s.0 (arc_value s.1)) }
        ensures err { OnErr result (MayHaveStepped self.old.book self.new.book event) }
        ensures same { self.new.id ≡ self.old.id }
    {
        let place = self.book.step(alloc, event)?;
        let step = self.book.share(place)?;
        self.orders.enter(rt, self.id, place, &step.outcome)?;
        Ok((place, step))
    }
}
