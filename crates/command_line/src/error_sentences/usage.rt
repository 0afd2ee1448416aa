//! The sentence on words that are of no command.

ghost use Rattle.std.specs.Prelude.{◌≡◌, IfOk, map};
ghost use Rattle.std.specs.String.{string_bytes};
ghost use Rattle.command_line.specs.Sentences as spec;

use crate::error_sentences::forms::Place;
use crate::error_sentences::pieces::joined;
use crate::error_sentences::shown::{named, shown, wanted, word_at};
use crate::error_sentences::wrong::{Wrong, wrong_of};
use itoa::Buffer;
use std::alloc::{AllocError, Global};

/// A first word that cannot stand there, for a reason.
fn first_word(alloc: Global, words: &[String], why: &[u8]) -> Result<Vec<u8>, AllocError>
    ensures { IfOk result (λ text. text.items
        ≡ spec.on_the_first why.now (map string_bytes words.now)) }
{
    let word = shown(alloc, word_at(words, 1))?;
    joined(alloc, &[b"word 1 is ", word.as_slice(), why])
}

/// A word that cannot stand where it stands, for a reason.
fn word_alone(
    alloc: Global,
    number: usize,
    words: &[String],
    why: &[u8],
) -> Result<Vec<u8>, AllocError>
    ensures { IfOk result (λ text. text.items
        ≡ spec.on_a_word number why.now (map string_bytes words.now)) }
{
    let mut digits = Buffer::new();
    let digits = digits.format(number as u64).as_bytes();
    let word = shown(alloc, word_at(words, number))?;
    joined(alloc, &[b"word ", digits, b" is ", word.as_slice(), why])
}

/// A word that is missing.
fn missing(alloc: Global, number: usize, place: Place) -> Result<Vec<u8>, AllocError>
    ensures { IfOk result (λ text. text.items ≡ spec.on_a_gap number place) }
{
    let mut digits = Buffer::new();
    let digits = digits.format(number as u64).as_bytes();
    let wanted = wanted(alloc, place.kind())?;
    let is = b", is missing; it must be ";
    joined(
        alloc,
        &[
            b"word ",
            digits,
            b", ",
            place.title(),
            is,
            wanted.as_slice(),
        ],
    )
}

/// A word that does not suit its place.
fn unfit(
    alloc: Global,
    number: usize,
    place: Place,
    words: &[String],
) -> Result<Vec<u8>, AllocError>
    ensures { IfOk result (λ text. text.items
        ≡ spec.on_a_place number place (map string_bytes words.now)) }
{
    let mut digits = Buffer::new();
    let digits = digits.format(number as u64).as_bytes();
    let word = shown(alloc, word_at(words, number))?;
    let wanted = wanted(alloc, place.kind())?;
    let must = b"; it must be ";
    let title = place.title();
    joined(
        alloc,
        &[
            b"word ",
            digits,
            b", ",
            title,
            b", is ",
            word.as_slice(),
            must,
            wanted.as_slice(),
        ],
    )
}

/// What is wrong with the words.
#[tactic(auto, unfolding(crate::specs::Sentences::complaint))]
fn complaint(alloc: Global, wrong: Wrong, words: &[String]) -> Result<Vec<u8>, AllocError>
    ensures { IfOk result (λ text. text.items
        ≡ spec.complaint wrong (map string_bytes words.now)) }
{
    match wrong {
        Wrong::NoCommand => joined(alloc, &[b"word 1, the command, is missing"]),
        Wrong::Unknown => first_word(alloc, words, b", which is no command"),
        Wrong::Alone => first_word(alloc, words, b", which takes no word behind it"),
        Wrong::Missing { number, place } => missing(alloc, number, place),
        Wrong::Unfit { number, place } => unfit(alloc, number, place, words),
        Wrong::Extra { number } => word_alone(alloc, number, words, b", one word too many"),
        Wrong::Repeated { number } => {
            let why = b", and so is a later word; the ids must differ";
            word_alone(alloc, number, words, why)
        }
    }
}

/// The sentence on words that are of no command. Errors: `AllocError` when out of memory.
#[tactic(auto, unfolding(crate::specs::Sentences::usage_sentence))]
pub(crate) fn usage_sentence(alloc: Global, words: &[String]) -> Result<Vec<u8>, AllocError>
    ensures { IfOk result (λ text. text.items
        ≡ spec.usage_sentence (map string_bytes words.now)) }
{
    let Some(wrong) = wrong_of(words) else {
        return joined(
            alloc,
            &[b"jichurpa: the words are of no command; see jichurpa --help\n"],
        );
    };
    let named = named(alloc, words)?;
    let named = named.as_slice();
    let told = complaint(alloc, wrong, words)?;
    joined(
        alloc,
        &[
            b"jichurpa",
            named,
            b": ",
            told.as_slice(),
            b"; see jichurpa",
            named,
            b" --help\n",
        ],
    )
}
