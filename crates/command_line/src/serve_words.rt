//! What the words of `serve` ask for.

ghost use Rattle.std.specs.Prelude.{◌≡◌, ◌≤◌, bytes_eq, map, IfSome};
ghost use Rattle.std.specs.List.{list_any};
ghost use Rattle.std.specs.String.{string_bytes};
ghost use Rattle.script_lang.specs.Words.{is_space};
ghost use Rattle.script_lang.specs.Texts.{address_of, number_in};
ghost use Rattle.command_line.specs.Asked as rules;
ghost use Rattle.command_line.specs.Asked.{plainly};
ghost use Rattle.command_line.specs.Told.{told, told_asked, told_if, told_options, told_reading};

use rdma_types::Address;
use script_lang::Words;

/// The base of the timers in milliseconds, where none is named.
const TIMEOUT: u64 = 100;

/// What stands behind the address.
#[derive(Clone, Copy)]
pub struct Options<'a> {
    /// The folder of the depot, where it is named.
    pub depot: Option<&'a str>,
    /// The base of the timers in milliseconds, 1 to 60,000.
    pub timeout: u64,
    /// Whether contexts are kept at the end.
    pub keep: bool,
}

/// What is asked for: a device with that id, 1 to 255, at that address.
#[derive(Clone, Copy)]
pub struct Asked<'a> {
    pub id: u8,
    pub own: Address,
    pub options: Options<'a>,
}

/// What the next word is.
#[derive(Clone, Copy)]
enum Awaited {
    /// The name of an option.
    Name,
    /// The folder of the depot.
    Folder,
    /// The base of the timers.
    Time,
}

/// What was read, and what the next word is.
#[derive(Clone, Copy)]
struct Reading<'a> {
    options: Options<'a>,
    awaited: Awaited,
}

/// Whether a word is that one.
fn spells(word: &[u8], text: &[u8]) -> bool
    ensures { result ≡ bytes_eq word.now text.now }
{
    word == text
}

/// Whether a space is among bytes.
fn has_space(bytes: &[u8]) -> bool
    ensures { result ≡ list_any is_space bytes.now }
{
    bytes.iter().any(|b| *b == b' ')
}

/// The address of a word without spaces.
fn own_of(word: &str) -> Option<Address>
    ensures { result ≡ plainly address_of word.now }
{
    let text = word.as_bytes();
    if has_space(text) {
        return None;
    }
    Words::new(text).address().ok()
}

/// The number of a word without spaces, from `low` to `high`.
fn number_of(word: &str, low: u64, high: u64) -> Option<u64>
    ensures value { result ≡ plainly (number_in low high) word.now }
    ensures within { IfSome result (λ n. (low ≤ n) × (n ≤ high)) }
{
    let text = word.as_bytes();
    if has_space(text) {
        return None;
    }
    Words::new(text).number(low, high).ok()
}

/// The options with that folder.
fn with_folder<'a>(options: Options<'a>, word: &'a str) -> Option<Reading<'a>>
    requires { 1 ≤ options.timeout }
    ensures value { told_if result ≡ rules.with_folder (told_options options.entry) word.entry.now }
    ensures within { IfSome result (λ r. 1 ≤ r.options.timeout) }
{
    if word.is_empty() {
        return None;
    }
    let options = Options {
        depot: Some(word),
        ..options
    };
    let awaited = Awaited::Name;
    Some(Reading { options, awaited })
}

/// The options with that base of the timers.
fn with_time<'a>(options: Options<'a>, word: &str) -> Option<Reading<'a>>
    ensures value { told_if result ≡ rules.with_time (told_options options.entry) word.now }
    ensures within { IfSome result (λ r. 1 ≤ r.options.timeout) }
{
    let timeout = number_of(word, 1, 60_000)?;
    let options = Options { timeout, ..options };
    let awaited = Awaited::Name;
    Some(Reading { options, awaited })
}

/// The options and one that a word names.
#[tactic(auto, unfolding(crate::specs::Asked::named))]
fn named<'a>(options: Options<'a>, word: &str) -> Option<Reading<'a>>
    requires { 1 ≤ options.timeout }
    ensures value { told_if result ≡ rules.named (told_options options.entry) word.now }
    ensures within { IfSome result (λ r. 1 ≤ r.options.timeout) }
{
    match word.as_bytes() {
        word if spells(word, b"--keep") => Some(Reading {
            options: Options {
                keep: true,
                ..options
            },
            awaited: Awaited::Name,
        }),
        word if spells(word, b"--depot") => Some(Reading {
            options,
            awaited: Awaited::Folder,
        }),
        word if spells(word, b"--timeout") => Some(Reading {
            options,
            awaited: Awaited::Time,
        }),
        _ => None,
    }
}

/// What was read, and one more word.
fn step<'a>(reading: Reading<'a>, word: &'a str) -> Option<Reading<'a>>
    requires { 1 ≤ reading.options.timeout }
    ensures value { told_if result ≡ rules.step_by reading.entry.awaited
        (told_options reading.entry.options) word.entry.now }
    ensures within { IfSome result (λ r. 1 ≤ r.options.timeout) }
{
    let Reading { options, awaited } = reading;
    match awaited {
        Awaited::Name => named(options, word),
        Awaited::Folder => with_folder(options, word),
        Awaited::Time => with_time(options, word),
    }
}

/// What was read, and the words behind it.
fn read_from<'a>(reading: Reading<'a>, words: &'a [String]) -> Option<Reading<'a>>
    requires { 1 ≤ reading.options.timeout }
    ensures value { told_if result ≡ rules.read_from (told_reading reading.entry)
        (map string_bytes words.entry.now) }
    ensures within { IfSome result (λ r. 1 ≤ r.options.timeout) }
{
    match words {
        [] => Some(reading),
        [word, rest @ ..] => read_from(step(reading, word)?, rest),
    }
}

/// What was read, where no value is missing.
fn finished(reading: Reading<'_>) -> Option<Options<'_>>
    requires { 1 ≤ reading.options.timeout }
    ensures value { told result ≡ rules.finished_by reading.entry.awaited
        (told_options reading.entry.options) }
    ensures within { IfSome result (λ o. 1 ≤ o.timeout) }
{
    match reading.awaited {
        Awaited::Name => Some(reading.options),
        Awaited::Folder | Awaited::Time => None,
    }
}

/// What the words behind `serve` ask for; None exactly where they ask for nothing: an id from 1 to 255, an address, and then
/// `--depot` with the path of a folder, `--timeout` with a number from 1 to 60,000, and `--keep`, in any order.
#[tactic(auto, unfolding(crate::specs::Asked::asked_of))]
pub fn asked_of(words: &[String]) -> Option<Asked<'_>>
    ensures value { told_asked result ≡ rules.asked_of (map string_bytes words.entry.now) }
    ensures within { IfSome result (λ a. (1 ≤ a.id) × (1 ≤ a.options.timeout)) }
{
    let [id, own, rest @ ..] = words else {
        return None;
    };
    let options = Options {
        depot: None,
        timeout: TIMEOUT,
        keep: false,
    };
    let awaited = Awaited::Name;
    let id = number_of(id, 1, 255)?;
    let own = own_of(own)?;
    let options = finished(read_from(Reading { options, awaited }, rest)?)?;
    Some(Asked {
        id: id as u8,
        own,
        options,
    })
}

#[cfg(test)]
mod tests {
    use super::*;
    use std::test::Fail;

    /// Whether words ask for something.
    fn asks(rt: &HostRuntime, line: &str) -> Result<bool, Fail> {
        let mut words = Vec::new(rt.alloc());
        for word in line.split(' ') {
            words.push(String::from_str(rt.alloc(), word)?)?;
        }
        Ok(asked_of(&words).is_some())
    }

    #[test]
    fn words_are_read(rt: HostRuntime) -> Result<(), Fail> {
        let mut words = Vec::new(rt.alloc());
        for word in [
            "7",
            "10.0.0.1:99",
            "--keep",
            "--timeout",
            "20",
            "--depot",
            "x",
        ] {
            words.push(String::from_str(rt.alloc(), word)?)?;
        }
        let Some(asked) = asked_of(&words) else {
            assert!(rt; false);
            return Ok(());
        };
        assert_eq!(rt;
            (asked.id, asked.own.ip, asked.own.port),
            (7, 0x0a00_0001, 99)
        );
        assert_eq!(rt; (asked.options.timeout, asked.options.keep), (20, true));
        assert_eq!(rt; asked.options.depot, Some("x"));
        Ok(())
    }

    #[test]
    fn other_words_ask_for_nothing(rt: HostRuntime) -> Result<(), Fail> {
        for line in [
            "1",
            "0 10.0.0.1",
            "256 10.0.0.1",
            "1 10.0.0.256",
            "1 10.0.0.1 --depot",
            "1 10.0.0.1 --timeout 0",
            "1 10.0.0.1 --timeout 60001",
            "1 10.0.0.1 x",
        ] {
            assert!(rt; !asks(&rt, line)?, "{line}");
        }
        assert!(rt; asks(&rt, "255 10.0.0.1")?);
        Ok(())
    }
}
