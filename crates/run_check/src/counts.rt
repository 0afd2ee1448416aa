//! What a run tells: its completions and its word.

ghost use Rattle.std.specs.Prelude.{◌≡◌, ◌≤◌, ◌∷◌, [], codes, length, map, slice_index, IfOk};
ghost use Rattle.rdma_types.specs.Memory.{word_of as spelled_word};
ghost use Rattle.protocol.specs.DeviceStep.{device_step};
ghost use Rattle.order_rules.specs.Openings.{in_b};
ghost use Rattle.shared_device.specs.Books.{device_of};
ghost use Rattle.run_check.specs.Gathered.{completions_in, drained_by, loads_word, polled, word_by, word_in, word_or};

use protocol::Event;
use rdma_types::{Answer, Items, Name, ObjName};
use shared_device::{Book, Receipt};
use std::alloc::{AllocError, Global};

/// How many completions a poll answers.
fn polled_count(answer: &Answer) -> usize
    ensures { result ≡ length (polled answer.now) }
{
    match answer {
        Answer::Polled(completions) => completions.len(),
        _ => 0,
    }
}

/// How many completions some receipts tell of. Errors: out of memory, where the number has more than 64 bits.
fn drained(receipts: &[Receipt]) -> Result<u64, AllocError>
    ensures { IfOk result (λ n. n ≡ length (drained_by receipts.now)) }
{
    let mut count = 0u64;
    for receipt in receipts {
        let Some(more) = count.checked_add(polled_count(&receipt.outcome().answer) as u64) else {
            return Err(AllocError);
        };
        count = more;
    }
    Ok(count)
}

/// How many completions all receipts tell of.
pub fn completions(receipts: &[Items<Receipt>]) -> Result<u64, AllocError>
    ensures { IfOk result (λ n. n ≡ completions_in receipts.now) }
{
    let mut count = 0u64;
    for held in receipts {
        let Some(more) = count.checked_add(drained(held.as_slice())?) else {
            return Err(AllocError);
        };
        count = more;
    }
    Ok(count)
}

/// A byte, or 0 past the end.
fn byte_at(bytes: &[u8], i: usize) -> u8
    ensures { result ≡ slice_index bytes.now i }
{
    bytes.get(i).copied().unwrap_or(0)
}

/// The big-endian word that eight bytes spell.
#[tactic(auto, unfolding(rdma_types::specs::Memory::word_of))]
fn word_of(bytes: &[u8]) -> u64
    ensures { result ≡ spelled_word bytes.now }
{
    u64::from_be_bytes([
        byte_at(bytes, 0),
        byte_at(bytes, 1),
        byte_at(bytes, 2),
        byte_at(bytes, 3),
        byte_at(bytes, 4),
        byte_at(bytes, 5),
        byte_at(bytes, 6),
        byte_at(bytes, 7),
    ])
}

/// The load of b's word.
fn load_of_word() -> Event
    ensures { result ≡ loads_word }
{
    Event::Load {
        region: ObjName {
            context: Name::read(b"b").unwrap(),
            name: Name::read(b"n").unwrap(),
        },
        at: 8192,
        length: 8,
    }
}

/// The number in the bytes that a load answers, and another one where it is refused.
fn word_or_other(answer: &Answer, other: u64) -> u64
    ensures { result ≡ word_by answer.now other }
{
    match answer {
        Answer::Bytes(bytes) => word_of(bytes.as_slice()),
        _ => other,
    }
}

/// The word on a book's device, and another one where its load is refused there.
fn word_at(alloc: Global, book: Book, other: u64) -> Result<u64, AllocError>
    ensures { IfOk result (λ n. n
        ≡ word_by (device_step (device_of book) loads_word).outcome.answer other) }
{
    let mut device = book.into_device();
    let outcome = device.step(alloc, &load_of_word())?;
    Ok(word_or_other(&outcome.answer, other))
}

/// The word on the device of the first of these books where its load is not refused, and 0 where it is refused on all.
pub fn word(alloc: Global, mut books: Vec<Book>) -> Result<u64, AllocError>
    ensures { IfOk result (λ n. n ≡ word_in (map device_of books.items)) }
{
    let mut word = 0;
    while let Some(book) = books.pop() {
        word = word_at(alloc, book, word)?;
    }
    Ok(word)
}
