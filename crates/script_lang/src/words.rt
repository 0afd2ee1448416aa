//! The words of a line with their columns, read one after the other.

ghost use Rattle.std.specs.Prelude.{◌≡◌, ℕ, ◌+◌, ◌^◌, ◌<◌, ◌≤◌, Bool, false, true, [], ◌∷◌, length, take, drop, slice_index, IfSome, IfNone, IfOk, IfErr};
ghost use Rattle.std.specs.List.{list_all, position_or_len};
ghost use Rattle.script_lang.specs.Fields as fields;
ghost use Rattle.script_lang.specs.Texts.{is_digit, digits_after};
ghost use Rattle.script_lang.specs.Words as words;
ghost use Rattle.script_lang.specs.Words.{Gives, IsNumberNext, IsObjectNext, words_from, is_space, input_of};

use crate::lines::{LineWhy, Offence};
use rdma_types::{Name, ObjName};
use std::marker::Model;

/// A word and its column in the line, from 1.
#[derive(Clone, Copy)]
pub struct Word<'a> {
    pub column: usize,
    pub text: &'a [u8],
}

/// The words of a line that are still to come.
#[derive(Drop)]
pub struct Words<'a> {
    line: &'a [u8],
    at: usize,
}

impl<'a> Model for Words<'a> {
    ghost use Rattle.std.specs.Prelude.{◌+◌, ◌≤◌, length, drop};
    ghost use Rattle.script_lang.specs.Words.{Input, words_from};

    ghost Value = { Input };

    ghost view = { λ w. record { words = words_from (w.at + 1) (drop w.at w.line.now); past = length w.line.now + 1 } };

    ghost invariant = { λ w. w.at ≤ length w.line.now };
}

/// Where the first byte stands that is no space, from a place of a line on.
fn past_spaces(line: &[u8], at: usize) -> usize
    requires { at ≤ length line.now }
    ensures words { words_from (result + 1) (drop result line.now)
        ≡ words_from (at + 1) (drop at line.now) }
    ensures within { result ≤ length line.now }
    ensures front { result < length line.now → is_space (slice_index line.now result) ≡ false }
{
    for i in at..line.len() {
        if line[i] != b' ' {
            return i;
        }
    }
    line.len()
}

/// Where the first space stands, from a place of a line on.
fn past_letters(line: &[u8], at: usize) -> usize
    requires { at ≤ length line.now }
    ensures place { result ≡ at + position_or_len is_space (drop at line.now) }
    ensures within { result ≤ length line.now }
{
    for i in at..line.len() {
        if line[i] == b' ' {
            return i;
        }
    }
    line.len()
}

/// The next word of a line from a place on, and where it ends.
fn word_after(line: &[u8], at: usize) -> Option<(Word<'_>, usize)>
    requires { at ≤ length line.now }
    ensures word { IfSome result (λ f. words_from (at + 1) (drop at line.now)
        ≡ record { column = f.0.column; text = f.0.text.now }
        ∷ words_from (f.1 + 1) (drop f.1 line.now)) }
    ensures within { IfSome result (λ f. f.1 ≤ length line.now) }
    ensures end { IfNone result (words_from (at + 1) (drop at line.now) ≡ []) }
{
    let start = past_spaces(line, at);
    if start == line.len() {
        return None;
    }
    let end = past_letters(line, start);
    let word = Word {
        column: start + 1,
        text: &line[start..end],
    };
    Some((word, end))
}

/// Digits of a number that is read with its word.
const FEW_DIGITS: usize = 18;

/// The number that the digits at the front of a text spell, and how many they are: at most 18.
#[inline(always)]
fn digits_front(text: &[u8]) -> (u64, usize)
    ensures digits { list_all is_digit (take result.1 text.now) ≡ true }
    ensures value { result.0 ≡ digits_after 0 (take result.1 text.now) }
    ensures fits { result.0 < 2 ^ 64 }
    ensures within { result.1 ≤ length text.now }
{
    let text = &text[..text.len().min(FEW_DIGITS)];
    let mut n = 0_u64;
    let mut count = 0;
    while count < text.len() && text[count].is_ascii_digit() {
        n = n * 10 + u64::from(text[count] - b'0');
        count += 1;
    }
    (n, count)
}

/// Whether a word that is read up to a place of a line ends there.
#[inline(always)]
fn ends_at(line: &[u8], end: usize) -> bool
    ensures { result ≡ true → end < length line.now → slice_index line.now end ≡ 32 }
{
    end >= line.len() || line[end] == b' '
}

/// The number that the next word of a line from a place on is, and where it ends. It has at most 18 digits, and no zero before
/// others. None where the next word is no such number, or there is none.
#[inline(always)]
fn number_after(line: &[u8], at: usize) -> Option<(u64, usize)>
    requires { at ≤ length line.now }
    ensures number { IfSome result (λ f. IsNumberNext line.now at f.0 f.1) }
    ensures within { IfSome result (λ f. f.1 ≤ length line.now) }
{
    let start = past_spaces(line, at);
    let (n, count) = digits_front(&line[start..]);
    if count == 0 || !ends_at(line, start + count) {
        return None;
    }
    if count > 1 && line[start] == b'0' {
        return None;
    }
    Some((n, start + count))
}

/// The object that the next word of a line from a place on names, `context.name`, and where it ends; None where the next word
/// names none, or there is none.
#[inline(always)]
fn object_after(line: &[u8], at: usize) -> Option<(ObjName, usize)>
    requires { at ≤ length line.now }
    ensures object { IfSome result (λ f. IsObjectNext line.now at f.0 f.1) }
    ensures within { IfSome result (λ f. f.1 ≤ length line.now) }
{
    let start = past_spaces(line, at);
    let (context, count) = Name::read_front(&line[start..])?;
    let dot = start + count;
    if dot >= line.len() || line[dot] != b'.' {
        return None;
    }
    let (name, count) = Name::read_front(&line[dot + 1..])?;
    let end = dot + 1 + count;
    if !ends_at(line, end) {
        return None;
    }
    Some((ObjName { context, name }, end))
}

impl<'a> Words<'a> {
    /// The next word, where it names an object; it is then passed.
    #[inline(always)]
    pub fn short_object(&mut self) -> Option<ObjName>
        ensures some { IfSome result (λ o. fields.an_object self.old ≡ Ok (o, self.new)) }
        ensures none { IfNone result (self.new ≡ self.old) }
    {
        let (object, end) = object_after(self.line, self.at)?;
        self.at = end;
        Some(object)
    }

    /// The next word, where it is a number of few digits from `low` to `high`; it is then passed.
    #[inline(always)]
    pub fn short_number(&mut self, low: u64, high: u64) -> Option<u64>
        ensures some { IfSome result (λ n. fields.a_number low high self.old ≡ Ok (n, self.new)) }
        ensures none { IfNone result (self.new ≡ self.old) }
        ensures within { IfSome result (λ n. (low ≤ n) × (n ≤ high)) }
    {
        let (n, end) = number_after(self.line, self.at)?;
        if n < low || high < n {
            return None;
        }
        self.at = end;
        Some(n)
    }

    /// The words of a line.
    pub fn new(line: &'a [u8]) -> Words<'a>
        ensures { result ≡ input_of line.now }
    {
        Words { line, at: 0 }
    }

    /// The next word, if there is one.
    pub fn next_word(&mut self) -> Option<Word<'a>>
        ensures word { IfSome result (λ w. self.old.words
            ≡ record { column = w.column; text = w.text.now } ∷ self.new.words) }
        ensures end { IfNone result (self.old.words ≡ []) }
        ensures past { self.new.past ≡ self.old.past }
    {
        let (word, end) = word_after(self.line, self.at)?;
        self.at = end;
        Some(word)
    }

    /// The next word. Errors: `Missing`, at the column past the line's end, where no word is left.
    #[tactic(auto, unfolding(crate::specs::Words::a_word))]
    pub fn word(&mut self) -> Result<Word<'a>, Offence>
        ensures word { IfOk result (λ w. words.a_word self.old
            ≡ Ok (record { column = w.column; text = w.text.now }, self.new)) }
        ensures missing { IfErr result (λ e. words.a_word self.old ≡ Err e) }
    {
        let past = self.line.len() + 1;
        self.next_word().ok_or(Offence {
            column: past,
            why: LineWhy::Missing,
        })
    }

    /// Whether this word stands next; it is then passed.
    #[tactic(auto, unfolding(crate::specs::Words::an_option))]
    pub fn option(&mut self, text: &[u8]) -> bool
        ensures { words.an_option text.now self.old ≡ Ok (result, self.new) }
    {
        match word_after(self.line, self.at) {
            Some((word, end)) if word.text == text => {
                self.at = end;
                true
            }
            _ => false,
        }
    }

    /// No more words are left. Errors: `Extra` at the first word that is.
    #[tactic(auto, unfolding(crate::specs::Words::the_end))]
    pub fn end(&mut self) -> Result<(), Offence>
        ensures { Gives result self.new (words.the_end self.old) }
    {
        match word_after(self.line, self.at) {
            None => Ok(()),
            Some((word, _)) => Err(word.bad(LineWhy::Extra)),
        }
    }
}

impl Word<'_> {
    /// This word is wrong.
    pub fn bad(&self, why: LineWhy) -> Offence
        ensures { result ≡ words.offence self.now.column why }
    {
        Offence {
            column: self.column,
            why,
        }
    }
}
