//! The check of a run.

ghost use Rattle.std.specs.Prelude.{◌≡◌, ◌<◌, IfErr, IfOk, OnOk, length, slice_index_or};
ghost use Rattle.shared_device.specs.Books.{AreApart};
ghost use Rattle.run_check.specs.Checks.{IsAdvanced, IsDue};
ghost use Rattle.run_check.specs.Gathered.{IsDisagreement, IsGathered, IsGatheredRun, Tells};

use crate::checks::{all_told, find_head, next_head, no_head, zeros};
use crate::counts::{completions, word};
use crate::journals::{all_met, find_book, meet_at};
use crate::run::{Run, RunFault, missing, same};
use crate::sent::Flights;
use crate::stops::{StopAt, note_stop, take_stop};
use rdma_types::Items;
use shared_device::{Book, OrderBook, OrderEntry, Receipt};
use std::alloc::Global;

/// Checks the next entry: its device, its receipt, its numbers, what arrives, what is restored, and the step in the
/// journal.
fn advance<'a>(
    books: &[Book],
    receipts: &'a [Items<Receipt>],
    entry: &OrderEntry,
    places: &mut Vec<usize>,
    heads: &mut Vec<usize>,
    flights: &mut Flights<'a>,
    stops: &mut Vec<StopAt>,
) -> Result<(), RunFault>
    requires places { length places.old.items ≡ length books.now }
    requires heads { length heads.old.items ≡ length receipts.now }
    ensures ok { OnOk result (IsAdvanced books.now receipts.now entry.now places.old.items
        heads.old.items flights.old stops.old.items places.new.items heads.new.items flights.new
        stops.new.items) }
    ensures err { IfErr result (Tells (IsDue books.now receipts.now entry.now places.old.items
        heads.old.items flights.old stops.old.items → ⊥)) }
{
    let place = entry.place;
    let Some((i, address)) = find_book(books, entry.device) else {
        return Err(missing(place));
    };
    let Some((worker, head, receipt)) = find_head(receipts, heads.as_slice(), entry) else {
        return Err(no_head(receipts, heads.as_slice(), entry));
    };
    let outcome = receipt.outcome();
    let sent = outcome.sent.as_slice();
    same(place, u64::from(receipt.worker()), worker as u64)?;
    same(place, entry.first, flights.len() as u64 + 1)?;
    same(place, entry.count, sent.len() as u64)?;
    if !flights.has_arrived(address, receipt.event()) {
        return Err(missing(place));
    }
    if !take_stop(receipts, stops, receipt.event()) {
        return Err(missing(place));
    }
    note_stop(stops, worker, head, &outcome.image)?;
    next_head(heads, worker, head);
    meet_at(books, places, i, receipt)?;
    flights.put(address, sent)?;
    Ok(())
}

/// Entry k.
fn entry_at(entries: &[OrderEntry], k: usize) -> OrderEntry
    requires { k < length entries.now }
    ensures { result ≡ slice_index_or entries.now k result }
{
    entries[k]
}

/// Checks the entries, one after the other, and that no step and no receipt is left.
fn check(
    alloc: Global,
    books: &[Book],
    entries: &[OrderEntry],
    receipts: &[Items<Receipt>],
) -> Result<(), RunFault>
    requires { AreApart books.now }
    ensures ok { OnOk result (IsGathered books.now entries.now receipts.now) }
    ensures err { IfErr result (IsDisagreement books.now entries.now receipts.now) }
{
    let mut places = zeros(alloc, books.len())?;
    let mut heads = zeros(alloc, receipts.len())?;
    let mut flights = Flights::none(alloc);
    let mut stops = Vec::new(alloc);
    for k in 0..entries.len() {
        let entry = entry_at(entries, k);
        advance(
            books,
            receipts,
            &entry,
            &mut places,
            &mut heads,
            &mut flights,
            &mut stops,
        )?;
    }
    all_met(books, places.as_slice())?;
    all_told(receipts, heads.as_slice())?;
    Ok(())
}

/// The run that books of different devices, the order of their steps and the receipts of the workers 0, 1, 2 and so on
/// tell of: one world order of these books. Each entry of the order has one receipt, with the event of its device's
/// journal and the outcome that the rules give there; each worker's receipts stand in that worker's order; what arrives
/// was sent before; and each restore has the image of an earlier stop that no other restore took.
///
/// # Errors
///
/// `RunFault::Disagree` where they tell of no world order, with two values that differ, and `RunFault::OutOfMemory`.
pub fn gather(
    alloc: Global,
    books: Vec<Book>,
    order: OrderBook,
    receipts: Vec<Items<Receipt>>,
) -> Result<Run, RunFault>
    requires { AreApart books.items }
    ensures gathered { IfOk result (λ run. IsGatheredRun books.items order.entries receipts.items
        run) }
    ensures disagreement { IfErr result (IsDisagreement books.items order.entries receipts.items) }
{
    check(
        alloc,
        books.as_slice(),
        order.entries(),
        receipts.as_slice(),
    )?;
    let completions = completions(receipts.as_slice())?;
    let word = word(alloc, books)?;
    Ok(Run {
        order: Items::new(order.into_entries()),
        receipts: Items::new(receipts),
        word,
        completions,
        alone: false,
    })
}
