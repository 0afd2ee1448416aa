//! Parts of sentences that are made of numbers and words.

ghost use Rattle.std.specs.Prelude.{◌≡◌, ◌+◌, ◌<◌, ◌^◌, IfOk, map, take};
ghost use Rattle.std.specs.String.{string_bytes};
ghost use Rattle.command_line.specs.Sentences as spec;

use crate::error_sentences::forms::{Form, Kind};
use crate::error_sentences::pieces::joined;
use itoa::Buffer;
use std::alloc::{AllocError, Global};

/// Bytes of a word that are shown at most.
const MOST_SHOWN: usize = 40;

/// A byte of a word as it is shown.
fn seen(b: u8) -> u8
    ensures { result ≡ spec.seen b }
{
    if (33..=126).contains(&b) { b } else { b'?' }
}

/// What stands behind what is shown of a word.
fn closing(word: &[u8]) -> &'static [u8]
    ensures { result.now ≡ spec.closing word.now }
{
    if word.len() > MOST_SHOWN {
        b"..\""
    } else {
        b"\""
    }
}

/// The first bytes of a word as they are shown. Errors: `AllocError` when out of memory.
fn front_of(alloc: Global, word: &[u8]) -> Result<Vec<u8>, AllocError>
    ensures { IfOk result (λ text. text.items ≡ map spec.seen (take 40 word.now)) }
{
    word.iter()
        .take(MOST_SHOWN)
        .map(|b| seen(*b))
        .collect(alloc)
}

/// A word as it is shown. Errors: `AllocError` when out of memory.
#[tactic(auto, unfolding(crate::specs::Sentences::shown))]
pub(crate) fn shown(alloc: Global, word: &[u8]) -> Result<Vec<u8>, AllocError>
    ensures { IfOk result (λ text. text.items ≡ spec.shown word.now) }
{
    let front = front_of(alloc, word)?;
    joined(alloc, &[b"\"", front.as_slice(), closing(word)])
}

/// The word of a number, counted from 1; no bytes where there is none.
pub(crate) fn word_at(words: &[String], number: usize) -> &[u8]
    ensures { result.now ≡ spec.word_at number (map string_bytes words.now) }
{
    match words {
        [] => b"",
        [word, ..] if number <= 1 => word.as_bytes(),
        [_, rest @ ..] => word_at(rest, number - 1),
    }
}

/// What a place takes. Errors: `AllocError` when out of memory.
#[tactic(auto, unfolding(crate::specs::Sentences::wanted))]
pub(crate) fn wanted(alloc: Global, kind: Kind) -> Result<Vec<u8>, AllocError>
    ensures { IfOk result (λ text. text.items ≡ spec.wanted kind) }
{
    match kind {
        Kind::Number { low, high } => {
            let mut low_digits = Buffer::new();
            let low = low_digits.format(low).as_bytes();
            let mut high_digits = Buffer::new();
            let high = high_digits.format(high).as_bytes();
            let form = b", in decimal digits without a sign or a leading zero";
            joined(alloc, &[b"a number from ", low, b" to ", high, form])
        }
        Kind::Name => joined(
            alloc,
            &[b"a name: a letter a to z, then up to 15 of a to z, 0 to 9 and _"],
        ),
        Kind::Address => joined(
            alloc,
            &[b"an IPv4 address, with or without a colon and a port from 1 to 65535"],
        ),
        Kind::Flag => joined(alloc, &[b"--depot, --timeout or --keep"]),
        Kind::Folder => joined(alloc, &[b"the path of a folder"]),
    }
}

/// A space and the command; nothing where the words name none. Errors: `AllocError` when out of memory.
#[tactic(auto, unfolding(crate::specs::Sentences::named))]
pub(crate) fn named(alloc: Global, words: &[String]) -> Result<Vec<u8>, AllocError>
    ensures { IfOk result (λ text. text.items ≡ spec.named (map string_bytes words.now)) }
{
    let word = word_at(words, 1);
    match Form::of(word) {
        Some(_) => joined(alloc, &[b" ", word]),
        None => Ok(Vec::new(alloc)),
    }
}
