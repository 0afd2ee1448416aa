//! Books, and how many steps of each were met.

ghost use Rattle.std.specs.Prelude.{◌≡◌, ◌≢◌, ◌<◌, IfErr, IfSome, None, OnOk, length};
ghost use Rattle.run_check.specs.Checks.{AreMet, HasNoBook, IsMetAt, IsMetOne, IsNamed, IsNotMet, IsNotMetAt};
ghost use Rattle.run_check.specs.Gathered.{Tells};

use crate::run::{RunFault, missing, same};
use rdma_types::Address;
use shared_device::{Book, Receipt};
use step_differences::{event_difference, outcome_difference};

/// The address of a book's device, where it has this id.
fn address_of(book: &Book, id: u8) -> Option<Address>
    ensures some { IfSome result (λ address. (book.now.opening.id ≡ id)
        × (book.now.opening.address ≡ address)) }
    ensures none { result ≡ None → book.now.opening.id ≢ id }
{
    if book.opening().id() == id {
        Some(book.opening().address())
    } else {
        None
    }
}

/// The place of the book of the device with an id, and the device's address.
pub fn find_book(books: &[Book], id: u8) -> Option<(usize, Address)>
    ensures some { IfSome result (λ p. IsNamed books.now id p.0 p.1) }
    ensures none { result ≡ None → HasNoBook books.now id }
{
    for i in 0..books.len() {
        if let Some(address) = address_of(&books[i], id) {
            return Some((i, address));
        }
    }
    None
}

/// Compares the next step of a book with a receipt, and counts it. The outcome in the journal is what the rules give.
fn meet_one(book: &Book, met: &mut usize, receipt: &Receipt) -> Result<(), RunFault>
    ensures ok { OnOk result (IsMetOne book.now receipt.now met.old met.new) }
    ensures err { IfErr result (Tells (IsNotMet book.now receipt.now met.old)) }
{
    let place = receipt.place();
    same(place, place, *met as u64)?;
    if place >= book.len() {
        return Err(missing(place));
    }
    let step = book.step_at(place).unwrap();
    if let Some((left, right)) = event_difference(&step.event, receipt.event()) {
        return Err(RunFault::Disagree { place, left, right });
    }
    if let Some((left, right)) = outcome_difference(&step.outcome, receipt.outcome()) {
        return Err(RunFault::Disagree { place, left, right });
    }
    *met += 1;
    Ok(())
}

/// The same of book i.
pub fn meet_at(
    books: &[Book],
    places: &mut Vec<usize>,
    i: usize,
    receipt: &Receipt,
) -> Result<(), RunFault>
    requires book { i < length books.now }
    requires place { i < length places.old.items }
    ensures ok { OnOk result (IsMetAt books.now places.old.items places.new.items i receipt.now) }
    ensures err { IfErr result (Tells (IsNotMetAt books.now places.old.items i receipt.now)) }
{
    meet_one(&books[i], &mut places[i], receipt)
}

/// The steps of each book were met to the end.
pub fn all_met(books: &[Book], places: &[usize]) -> Result<(), RunFault>
    ensures ok { OnOk result (AreMet books.now places.now) }
    ensures err { IfErr result (Tells (AreMet books.now places.now → ⊥)) }
{
    for i in 0..books.len() {
        if let Some(met) = places.get(i) {
            let place = *met as u64;
            same(place, place, books[i].len())?;
        }
    }
    Ok(())
}
