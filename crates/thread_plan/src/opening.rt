//! Books that open as planned.

ghost use Rattle.std.specs.Prelude.{◌≡◌, ◌≤◌, IfOk, IsTrue};
ghost use Rattle.order_rules.specs.Openings.{openings};
ghost use Rattle.shared_device.specs.Books.{AreApart, openings_of};

use shared_device::{Book, open_books};
use std::alloc::{AllocError, Global};

/// Whether two books open with equal devices.
fn same_opening(a: &Book, b: &Book) -> bool
    ensures { IsTrue result → a.now.opening ≡ b.now.opening }
{
    a.opening().differs(b.opening()).is_none()
}

/// Whether books open with equal devices, one after the other.
#[tactic(auto, using(crate::proofs::SameBooks::same_all))]
fn same_openings(a: &[Book], b: &[Book]) -> bool
    ensures { IsTrue result → openings_of a.now ≡ openings_of b.now }
{
    if a.len() != b.len() {
        return false;
    }
    for i in 0..a.len() {
        if !same_opening(&a[i], &b[i]) {
            return false;
        }
    }
    true
}

/// Whether the ids of the devices rise, so that no two are of one device.
#[tactic(auto, using(crate::proofs::SameBooks::rising_apart))]
fn are_rising(books: &[Book]) -> bool
    ensures { IsTrue result → AreApart books.now }
{
    for k in 1..books.len() {
        if books[k - 1].opening().id() >= books[k].opening().id() {
            return false;
        }
    }
    true
}

/// Whether these are books of the devices with which that many workers open.
pub fn open_so(alloc: Global, workers: u32, books: &[Book]) -> Result<bool, AllocError>
    requires { (1 ≤ workers) × (workers ≤ 8) }
    ensures { IfOk result (λ b. IsTrue b → (openings_of books.now ≡ openings workers)
        × AreApart books.now) }
{
    let opened = open_books(alloc, workers)?;
    if !are_rising(books) {
        return Ok(false);
    }
    Ok(same_openings(books, opened.as_slice()))
}
