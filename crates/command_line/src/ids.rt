//! The words of `evacuate`: ids of devices.

ghost use Rattle.std.specs.Prelude.{◌≡◌, ◌==◌, ◌&&◌, not, nat_le, length, map, IfSome};
ghost use Rattle.std.specs.List.{list_any};
ghost use Rattle.std.specs.String.{string_bytes};
ghost use Rattle.script_lang.specs.Texts.{number_in};
ghost use Rattle.program_rules.specs.Commands as rules;
ghost use Rattle.command_line.specs.Commands.{IsInRange, known_if};
ghost use Rattle.command_line.specs.Ids.{few_ids, told_ids};

use crate::command::Command;
use crate::rule::small;
use arrayvec::ArrayVec;

/// A device and its targets at most.
const MOST_IDS: usize = 16;

/// The id of a word, from 1 to 255.
fn id_of(word: &str) -> Option<u8>
    ensures { result ≡ number_in 1 255 word.now }
{
    let id = small(word, 1, 255)?;
    Some(id as u8)
}

/// The ids of words, where there are few.
fn ids_of(words: &[String]) -> Option<ArrayVec<u8, 16>>
    ensures { told_ids result ≡ few_ids (map string_bytes words.now) }
{
    if words.len() > MOST_IDS {
        return None;
    }
    let mut ids = ArrayVec::new();
    for word in words {
        ids.push(id_of(word)?);
    }
    Some(ids)
}

/// Whether an id is among ids.
fn is_among(ids: &[u8], id: u8) -> bool
    ensures { result ≡ list_any (λ j. j == id) ids.now }
{
    ids.iter().any(|other| *other == id)
}

/// Whether one of ids stands twice.
fn repeats(ids: &[u8]) -> bool
    ensures { result ≡ rules.repeats ids.now }
{
    match ids {
        [] => false,
        [first, rest @ ..] => is_among(rest, *first) || repeats(rest),
    }
}

/// Whether ids are a device and targets, all different.
fn are_apart(ids: &[u8]) -> bool
    ensures { result ≡ (not (rules.repeats ids.now) && nat_le 2 (length ids.now)) }
{
    !repeats(ids) && ids.len() >= 2
}

/// `evacuate` with the ids of a device and of its targets.
pub(crate) fn evacuate_of(words: &[String]) -> Option<Command>
    ensures value { known_if result ≡ rules.evacuate_of (map string_bytes words.now) }
    ensures within { IfSome result IsInRange }
{
    let mut ids = ids_of(words)?;
    if !are_apart(ids.as_slice()) {
        return None;
    }
    let from = ids.remove(0);
    Some(Command::Evacuate { from, targets: ids })
}
