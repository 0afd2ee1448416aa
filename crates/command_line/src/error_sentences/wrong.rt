//! Which word of a command line is wrong.

ghost use Rattle.std.specs.Prelude.{◌≡◌, ◌+◌, ◌<◌, ◌^◌, bytes_eq, false, is_some, length, map};
ghost use Rattle.std.specs.List.{list_any};
ghost use Rattle.std.specs.String.{string_bytes};
ghost use Rattle.script_lang.specs.Words.{is_space};
ghost use Rattle.command_line.specs.Wrong as spec;

use crate::error_sentences::forms::{Form, Kind, Place, is_word};
use rdma_types::Name;
use script_lang::Words;

/// What is wrong with the words of a command line. Words are counted from 1, which is the command.
#[derive(Clone, Copy, Debug, PartialEq, Eq)]
pub enum Wrong {
    /// There is no word.
    NoCommand,
    /// The first word is no command.
    Unknown,
    /// The first word asks something of the program, and takes no word behind it.
    Alone,
    /// The word of this number is missing.
    Missing { number: usize, place: Place },
    /// The word of this number may not stand at its place.
    Unfit { number: usize, place: Place },
    /// The word of this number has no place.
    Extra { number: usize },
    /// The word of this number stands once more behind, where all have to differ.
    Repeated { number: usize },
}

/// Whether a space is among bytes.
fn has_space(bytes: &[u8]) -> bool
    ensures { result ≡ list_any is_space bytes.now }
{
    bytes.iter().any(|b| *b == b' ')
}

/// Whether a text is a number in a range.
fn is_number(text: &[u8], low: u64, high: u64) -> bool
    requires { list_any is_space text.now ≡ false }
    ensures { result ≡ spec.spells (Kind.Number low high) text.now }
{
    Words::new(text).number(low, high).is_ok()
}

/// Whether a text is an address.
fn is_address(text: &[u8]) -> bool
    requires { list_any is_space text.now ≡ false }
    ensures { result ≡ spec.spells Kind.Address text.now }
{
    Words::new(text).address().is_ok()
}

/// Whether a text is a name.
#[tactic(auto, unfolding(script_lang::specs::Texts::name_of))]
fn is_name(text: &[u8]) -> bool
    ensures { result ≡ spec.spells Kind.Name text.now }
{
    Name::read(text).is_some()
}

/// Whether a text is the name of an option.
fn is_flag(text: &[u8]) -> bool
    ensures { result ≡ spec.spells Kind.Flag text.now }
{
    is_word(text, b"--depot") || is_word(text, b"--timeout") || is_word(text, b"--keep")
}

impl Kind {
    /// Whether a word may stand at such a place.
    fn suits(self, word: &[u8]) -> bool
        ensures { result ≡ spec.suits self word.now }
    {
        match self {
            Kind::Folder => !word.is_empty(),
            _ if has_space(word) => false,
            Kind::Number { low, high } => is_number(word, low, high),
            Kind::Name => is_name(word),
            Kind::Address => is_address(word),
            Kind::Flag => is_flag(word),
        }
    }
}

/// The first word that may not stand where it stands; the next word has this number.
fn wrong_from(places: &[Place], words: &[String], number: usize) -> Option<Wrong>
    requires { number + length words.now < 2 ^ 64 }
    ensures { result ≡ spec.wrong_from places.now (map string_bytes words.now) number }
{
    match (places, words) {
        ([], []) => None,
        ([], [_, ..]) => Some(Wrong::Extra { number }),
        ([place, ..], []) => {
            if place.is_needed() {
                Some(Wrong::Missing {
                    number,
                    place: *place,
                })
            } else {
                None
            }
        }
        ([place, more @ ..], [word, rest @ ..]) => {
            if place.kind().suits(word.as_bytes()) {
                wrong_from(place.behind(more, word.as_bytes()), rest, number + 1)
            } else {
                Some(Wrong::Unfit {
                    number,
                    place: *place,
                })
            }
        }
    }
}

/// Whether a word is among words.
fn is_among(words: &[String], word: &[u8]) -> bool
    ensures { result ≡ list_any (bytes_eq word.now) (map string_bytes words.now) }
{
    match words {
        [] => false,
        [other, rest @ ..] => is_word(word, other.as_bytes()) || is_among(rest, word),
    }
}

/// The first word that stands once more behind; the next word has this number.
fn repeated_from(words: &[String], number: usize) -> Option<Wrong>
    requires { number + length words.now < 2 ^ 64 }
    ensures { result ≡ spec.repeated_from (map string_bytes words.now) number }
{
    match words {
        [] => None,
        [word, rest @ ..] => {
            if is_among(rest, word.as_bytes()) {
                Some(Wrong::Repeated { number })
            } else {
                repeated_from(rest, number + 1)
            }
        }
    }
}

/// What is wrong behind a command.
fn wrong_behind(form: Form, words: &[String]) -> Option<Wrong>
    ensures { result ≡ spec.wrong_behind form (map string_bytes words.now) }
{
    if let Some(wrong) = wrong_from(form.places(), words, 2) {
        return Some(wrong);
    }
    if form.differs() {
        repeated_from(words, 2)
    } else {
        None
    }
}

/// Whether a word asks something of the program, and takes no word behind it.
#[tactic(auto, unfolding(crate::specs::Wrong::is_alone))]
fn is_alone(word: &[u8]) -> bool
    ensures { result ≡ spec.is_alone word.now }
{
    is_word(word, b"--help") || is_word(word, b"-h") || is_word(word, b"--version")
}

/// What is wrong with the words of a command line, without the program's name. None where no word is.
pub fn wrong_of(words: &[String]) -> Option<Wrong>
    ensures { result ≡ spec.wrong_of (map string_bytes words.now) }
{
    let [word, rest @ ..] = words else {
        return Some(Wrong::NoCommand);
    };
    match Form::of(word.as_bytes()) {
        Some(form) => wrong_behind(form, rest),
        None if is_alone(word.as_bytes()) => Some(Wrong::Alone),
        None => Some(Wrong::Unknown),
    }
}
