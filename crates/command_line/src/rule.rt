//! The rule of words: which are of a command, and what they say.

ghost use Rattle.std.specs.Prelude.{◌≡◌, ◌≤◌, ◌<◌, ◌^◌, [], ◌∷◌, bytes_eq, is_some, map, IfSome};
ghost use Rattle.std.specs.List.{list_all, list_any};
ghost use Rattle.std.specs.String.{string_bytes};
ghost use Rattle.script_lang.specs.Texts.{is_decimal, is_digit, number_in};
ghost use Rattle.script_lang.specs.Words.{is_space};
ghost use Rattle.program_rules.specs.Commands as rules;
ghost use Rattle.program_rules.specs.Commands.{placed_of};
ghost use Rattle.program_rules.specs.Mixes.{IsMix};
ghost use Rattle.command_line.specs.Commands.{IsInRange, known_if};

use crate::command::Command;
use rdma_types::{Address, Name};
use script_lang::Words;
use workload_gen::Mix;

fn all_digits(word: &[u8]) -> bool
    ensures { result ≡ list_all is_digit word.now }
{
    word.iter().all(|b| b.is_ascii_digit())
}

/// Whether a word is decimal digits without sign or leading zero.
fn is_spelled_out(word: &[u8]) -> bool
    ensures { result ≡ is_decimal word.now }
{
    match word {
        [] => false,
        [first, rest @ ..] => all_digits(word) && (*first != b'0' || rest.is_empty()),
    }
}

/// The number of a word, from `low` to `high`: decimal digits without a sign or a leading zero.
pub fn number(word: &str, low: u64, high: u64) -> Option<u64>
    ensures value { result ≡ number_in low high word.now }
    ensures within { IfSome result (λ n. (low ≤ n) × (n ≤ high)) }
{
    if !is_spelled_out(word.as_bytes()) {
        return None;
    }
    let n = word.parse::<u64>().ok()?;
    if low <= n && n <= high { Some(n) } else { None }
}

/// The same of a number that fits 32 bits.
pub fn small(word: &str, low: u32, high: u32) -> Option<u32>
    ensures value { result ≡ number_in low high word.now }
    ensures within { IfSome result (λ n. (low ≤ n) × (n ≤ high)) }
{
    let n = number(word, u64::from(low), u64::from(high))?;
    Some(n as u32)
}

/// 1 to 8 connections, 1 to 2,000 messages and at most 16 moves.
fn mix_of(connections: &str, messages: &str, moves: &str) -> Option<Mix>
    ensures value { result ≡ rules.mix_of connections.now messages.now moves.now }
    ensures within { IfSome result IsMix }
{
    Some(Mix {
        connections: small(connections, 1, 8)?,
        messages: small(messages, 1, 2000)?,
        moves: small(moves, 0, 16)?,
    })
}

/// `bulk` with its seed, connections, messages and moves.
pub(crate) fn bulk_of(seed: &str, connections: &str, messages: &str, moves: &str) -> Option<Command>
    ensures value { known_if result ≡ rules.bulk_of
        (seed.now ∷ connections.now ∷ messages.now ∷ moves.now ∷ []) }
    ensures within { IfSome result IsInRange }
{
    let seed = number(seed, 0, u64::MAX)?;
    let mix = mix_of(connections, messages, moves)?;
    Some(Command::Bulk { seed, mix })
}

/// `show-dump` with a name.
#[tactic(auto, unfolding(script_lang::specs::Texts::name_of))]
pub(crate) fn show_dump_of(name: &str) -> Option<Command>
    ensures value { known_if result ≡ rules.show_dump_of (name.now ∷ []) }
    ensures within { IfSome result IsInRange }
{
    let name = Name::read(name.as_bytes())?;
    Some(Command::ShowDump { name })
}

/// Whether a space is among bytes.
fn has_space(bytes: &[u8]) -> bool
    ensures { result ≡ list_any is_space bytes.now }
{
    bytes.iter().any(|b| *b == b' ')
}

/// The address of a word without spaces.
fn own_of(word: &str) -> Option<Address>
    ensures { result ≡ rules.own_of word.now }
{
    let text = word.as_bytes();
    if has_space(text) {
        return None;
    }
    Words::new(text).address().ok()
}

/// `node` with an id and an address.
pub(crate) fn node_of(id: &str, own: &str) -> Option<Command>
    ensures value { known_if result ≡ rules.node_of (id.now ∷ own.now ∷ []) }
    ensures within { IfSome result IsInRange }
{
    let id = small(id, 1, 255)?;
    let own = own_of(own)?;
    Some(Command::Node { id: id as u8, own })
}

/// Whether a word is that one.
pub(crate) fn spells(word: &[u8], text: &[u8]) -> bool
    ensures { result ≡ bytes_eq word.now text.now }
{
    word == text
}

/// Whether `bulk` takes the words.
fn takes_bulk(words: &[String]) -> bool
    ensures { result ≡ is_some (rules.bulk_of (map string_bytes words.now)) }
{
    match words {
        [seed, connections, messages, moves] => {
            bulk_of(seed, connections, messages, moves).is_some()
        }
        _ => false,
    }
}

/// Whether `show-dump` takes the words.
fn takes_show_dump(words: &[String]) -> bool
    ensures { result ≡ is_some (rules.show_dump_of (map string_bytes words.now)) }
{
    match words {
        [name] => show_dump_of(name).is_some(),
        _ => false,
    }
}

/// Whether `audit` takes the words.
fn takes_audit(words: &[String]) -> bool
    ensures { result ≡ is_some (rules.alone rules.Audit (map string_bytes words.now)) }
{
    words.is_empty()
}

/// Whether `record` takes the words.
fn takes_record(words: &[String]) -> bool
    ensures { result ≡ is_some (rules.alone rules.Record (map string_bytes words.now)) }
{
    words.is_empty()
}

/// Whether `node` takes the words.
fn takes_node(words: &[String]) -> bool
    ensures { result ≡ is_some (rules.node_of (map string_bytes words.now)) }
{
    match words {
        [id, own] => node_of(id, own).is_some(),
        _ => false,
    }
}

/// Whether the words, without the program's name, are of a command.
#[tactic(auto, unfolding(program_rules::specs::Commands::placed_of))]
pub(crate) fn is_lawful(words: &[String]) -> bool
    ensures { result ≡ is_some (placed_of (map string_bytes words.now)) }
{
    let [word, rest @ ..] = words else {
        return false;
    };
    match word.as_bytes() {
        word if spells(word, b"play") => rest.is_empty(),
        word if spells(word, b"bulk") => takes_bulk(rest),
        word if spells(word, b"show-dump") => takes_show_dump(rest),
        word if spells(word, b"audit") => takes_audit(rest),
        word if spells(word, b"record") => takes_record(rest),
        word if spells(word, b"node") => takes_node(rest),
        _ => false,
    }
}
