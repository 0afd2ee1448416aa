//! What one word spells.

ghost use Rattle.std.specs.Prelude.{◌≡◌, ◌==◌, ◌&&◌, ℕ, ◌+◌, ◌-◌, ◌*◌, ◌<◌, ◌≤◌, ◌^◌, true, length, nat_lt, [], ◌∷◌, Option, Some, None, IfSome, IfNone, IfOk, if◌then◌else◌, option_copied, option_map};
ghost use Rattle.std.specs.List.{list_all, position_or_len};
ghost use Rattle.rdma_types.specs.Limits.{is_mtu};
ghost use Rattle.script_lang.specs.Texts as texts;
ghost use Rattle.script_lang.specs.Texts.{is_digit, digits_after, is_decimal, number_in, mtu_of, hex_number, bytes_of, cut_at, Letters, with_letter};

use byteorder::{BigEndian, ByteOrder};
use rdma_types::{Address, Items, Name, ObjName, Rights};
use std::alloc::{AllocError, Global};

fn all_digits(text: &[u8]) -> bool
    ensures { result ≡ list_all is_digit text.now }
{
    text.iter().all(|b| b.is_ascii_digit())
}

/// The number that at most 19 digits spell, which has at most 64 bits.
fn short_value(text: &[u8]) -> Option<u64>
    requires { length text.now ≤ 19 }
    ensures value { result ≡ (if list_all is_digit text.now then Some (digits_after 0 text.now)
        else None) }
    ensures small { IfSome result (λ n. n < 2 ^ 64) }
{
    let mut n: u64 = 0;
    for b in text {
        if !b.is_ascii_digit() {
            return None;
        }
        n = n * 10 + u64::from(*b - b'0');
    }
    Some(n)
}

/// The number with one more digit behind it, where it has at most 64 bits.
fn with_digit(n: u64, digit: u8) -> Option<u64>
    requires { 48 ≤ digit }
    ensures value { IfSome result (λ m. m ≡ n * 10 + (digit - 48)) }
    ensures fits { IfSome result (λ m. m < 2 ^ 64) }
    ensures over { IfNone result (2 ^ 64 ≤ n * 10 + (digit - 48)) }
{
    n.checked_mul(10)?.checked_add(u64::from(digit - b'0'))
}

/// The number that digits spell, where it has at most 64 bits.
#[tactic(auto, using(crate::proofs::Digits::stays_over, crate::proofs::Digits::digit_passed, crate::proofs::Digits::refused_over, crate::proofs::Digits::told_below, crate::proofs::Digits::digits_done))]
fn digits_value(text: &[u8]) -> Option<u64>
    requires { list_all is_digit text.now ≡ true }
    ensures { result ≡ (if nat_lt (digits_after 0 text.now) (2 ^ 64)
        then Some (digits_after 0 text.now) else None) }
{
    let mut n: u64 = 0;
    for b in text {
        n = with_digit(n, *b)?;
    }
    Some(n)
}

/// The number that digits spell, where it has at most 64 bits; None too where a byte is no digit.
fn value(text: &[u8]) -> Option<u64>
    ensures { result ≡ (if list_all is_digit text.now
        && nat_lt (digits_after 0 text.now) (2 ^ 64) then Some (digits_after 0 text.now)
        else None) }
{
    if text.len() <= 19 {
        return short_value(text);
    }
    if !all_digits(text) {
        return None;
    }
    digits_value(text)
}

/// Whether a text starts as a number does: with a byte, and with no zero before others.
fn starts_number(text: &[u8]) -> bool
    ensures { is_decimal text.now ≡ (list_all is_digit text.now && result) }
{
    match text {
        [] => false,
        [first, rest @ ..] => *first != b'0' || rest.is_empty(),
    }
}

/// The number of a word, from `low` to `high`.
#[tactic(auto, unfolding(crate::specs::Texts::number_in))]
pub fn number(text: &[u8], low: u64, high: u64) -> Option<u64>
    ensures value { result ≡ number_in low high text.now }
    ensures within { IfSome result (λ n. (low ≤ n) × (n ≤ high)) }
{
    if !starts_number(text) {
        return None;
    }
    let n = value(text)?;
    if low <= n && n <= high { Some(n) } else { None }
}

/// The MTU of a word.
#[tactic(auto, unfolding(crate::specs::Texts::mtu_of))]
pub fn mtu(text: &[u8]) -> Option<u32>
    ensures value { result ≡ mtu_of text.now }
    ensures one { IfSome result (λ n. is_mtu n ≡ true) }
{
    let n = number(text, 256, 4096)? as u32;
    matches!(n, 256 | 512 | 1024 | 2048 | 4096).then_some(n)
}

/// The number of a word of eight hexadecimal digits.
#[tactic(auto, unfolding(crate::specs::Texts::hex_number))]
pub fn key(text: &[u8]) -> Option<u32>
    ensures { result ≡ hex_number 4 text.now }
{
    if text.len() != 8 {
        return None;
    }
    let mut bytes = [0; 4];
    hex::decode_to_slice(text, &mut bytes).ok()?;
    Some(BigEndian::read_u32(&bytes))
}

/// The number of a word of six hexadecimal digits.
#[tactic(auto, unfolding(crate::specs::Texts::hex_number))]
pub fn queue_pair(text: &[u8]) -> Option<u32>
    ensures value { result ≡ hex_number 3 text.now }
    ensures small { IfSome result (λ n. n < 2 ^ 24) }
{
    if text.len() != 6 {
        return None;
    }
    let mut bytes = [0; 3];
    hex::decode_to_slice(text, &mut bytes).ok()?;
    Some(BigEndian::read_u24(&bytes))
}

/// The bytes of a word of 2 to 8,192 hexadecimal digits. Errors: `AllocError` when out of memory.
#[tactic(auto, unfolding(crate::specs::Texts::bytes_of))]
pub fn bytes(alloc: Global, text: &[u8]) -> Result<Option<Items<u8>>, AllocError>
    ensures { IfOk result (λ bytes. bytes ≡ bytes_of text.now) }
{
    if text.len() < 2 || text.len() > 8192 {
        return Ok(None);
    }
    match hex::decode(alloc, text) {
        Ok(bytes) => Ok(Some(Items::new(bytes))),
        Err(hex::FromHexError::OutOfMemory) => Err(AllocError),
        Err(_) => Ok(None),
    }
}

/// How many bytes stand before the first one that is `end`.
fn length_before(bytes: &[u8], end: u8) -> usize
    ensures place { result ≡ position_or_len (λ b. b == end) bytes.now }
    ensures within { result ≤ length bytes.now }
{
    for (i, b) in bytes.iter().enumerate() {
        if *b == end {
            return i;
        }
    }
    bytes.len()
}

/// A text before the first byte that is `end`, and behind it where there is one.
#[tactic(auto, unfolding(crate::specs::Texts::cut_at))]
fn cut(text: &[u8], end: u8) -> (&[u8], Option<&[u8]>)
    ensures front { result.0.now ≡ (cut_at end text.now).front }
    ensures behind { option_map (λ t. t.now) result.1 ≡ (cut_at end text.now).behind }
{
    let place = length_before(text, end);
    if place == text.len() {
        return (text, None);
    }
    (&text[..place], Some(&text[place + 1..]))
}

/// The name of a word.
#[tactic(auto, unfolding(crate::specs::Texts::name_of))]
pub fn name(text: &[u8]) -> Option<Name>
    ensures { result ≡ texts.name_of text.now }
{
    Name::read(text)
}

/// The object of a word.
#[tactic(auto, unfolding(crate::specs::Texts::object_of))]
pub fn object(text: &[u8]) -> Option<ObjName>
    ensures { result ≡ texts.object_of text.now }
{
    let (front, behind) = cut(text, b'.');
    let context = name(front)?;
    let name = name(behind?)?;
    Some(ObjName { context, name })
}

/// The sum with one more right, and the text behind its letter, where that letter stands next.
#[tactic(auto, unfolding(crate::specs::Texts::with_letter))]
fn letter(letter: u8, right: u8, sum: u8, rest: &[u8]) -> (u8, &[u8])
    requires { sum + right < 256 }
    ensures rest { record { sum = result.0; rest = result.1.now }
        ≡ with_letter letter right (record { sum = sum; rest = rest.now }) }
    ensures most { result.0 ≤ sum + right }
{
    match rest {
        [first, behind @ ..] if *first == letter => (sum + right, behind),
        _ => (sum, rest),
    }
}

/// The rights of a word.
#[tactic(auto, unfolding(crate::specs::Texts::rights_of, crate::specs::Texts::letters_of))]
pub fn rights(text: &[u8]) -> Option<Rights>
    ensures value { result ≡ texts.rights_of text.now }
    ensures four { IfSome result (λ r. r.0 ≤ 15) }
{
    if text == b"-".as_slice() {
        return Some(Rights(0));
    }
    let (sum, rest) = letter(b'l', 1, 0, text);
    let (sum, rest) = letter(b'w', 2, sum, rest);
    let (sum, rest) = letter(b'r', 4, sum, rest);
    let (sum, rest) = letter(b'a', 8, sum, rest);
    rest.is_empty().then_some(Rights(sum))
}

/// A number from 0 to 255 at the start of a text, and the text behind the point after it.
#[tactic(auto, unfolding(crate::specs::Texts::part_of))]
fn part(text: &[u8]) -> Option<(u32, &[u8])>
    ensures value { option_map (λ p. record { number = p.0; rest = p.1.now }) result
        ≡ texts.part_of text.now }
    ensures small { IfSome result (λ p. p.0 ≤ 255) }
{
    let (front, behind) = cut(text, b'.');
    let n = number(front, 0, 255)? as u32;
    Some((n, behind?))
}

/// The IPv4 address of four numbers with points between them.
#[tactic(auto, unfolding(crate::specs::Texts::host_of))]
fn host(text: &[u8]) -> Option<u32>
    ensures { result ≡ texts.host_of text.now }
{
    let (a, rest) = part(text)?;
    let (b, rest) = part(rest)?;
    let (c, rest) = part(rest)?;
    let d = number(rest, 0, 255)? as u32;
    Some(a * 16_777_216 + b * 65_536 + c * 256 + d)
}

/// The port behind a colon, or that of RoCEv2.
fn port(text: Option<&[u8]>) -> Option<u16>
    ensures { result ≡ texts.port_of (option_map (λ t. t.now) text.entry) }
{
    match text {
        None => Some(4791),
        Some(text) => Some(number(text, 1, 65_535)? as u16),
    }
}

/// The address of a word: an IPv4 address, and perhaps a colon and a port.
#[tactic(auto, unfolding(crate::specs::Texts::address_of))]
pub fn address(text: &[u8]) -> Option<Address>
    ensures { result ≡ texts.address_of text.now }
{
    let (front, behind) = cut(text, b':');
    let ip = host(front)?;
    let port = port(behind)?;
    Some(Address { ip, port })
}
