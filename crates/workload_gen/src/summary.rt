//! The line that sums up a run.

ghost use Rattle.std.specs.Prelude.{◌≡◌, IsTrue, ◌++◌, ◌+◌, ◌<◌, ◌≤◌, ◌^◌, MatchOption, OnOk, IfOk, length, drop, count_by, codes, if◌then◌else◌, ◌==◌};
ghost use Rattle.std.specs.List.{position_or_len, before_first, after_first, position};
ghost use Rattle.std.specs.Fmt.{decimal};
ghost use Rattle.workload_gen.specs.Summary as spec;

use crate::writing::{put, put_number};
use std::alloc::{AllocError, Global};

/// The place of the first byte of this value.
fn place_of(text: &[u8], byte: u8) -> Option<usize>
    ensures { result ≡ position (λ b. b == byte) text.now }
{
    text.iter().position(|b| *b == byte)
}

/// What stands before the first byte of this value and after it; None where there is none.
#[tactic(auto, using(crate::proofs::Lines::found_at, crate::proofs::Lines::not_found))]
fn cut_at(text: &[u8], byte: u8) -> Option<(&[u8], &[u8])>
    ensures { MatchOption result (position_or_len (λ b. b == byte) text.now ≡ length text.now)
        (λ x. (position_or_len (λ b. b == byte) text.now < length text.now)
        × (x.0.now ≡ before_first (λ b. b == byte) text.now)
        × (x.1.now ≡ after_first (λ b. b == byte) text.now)) }
{
    match place_of(text, byte) {
        None => None,
        Some(at) => Some((&text[..at], &text[at + 1..])),
    }
}

/// What follows the first word of a line.
fn after_word(line: &[u8]) -> &[u8]
    ensures { result.now ≡ spec.after_word line.now }
{
    match cut_at(line, b' ') {
        Some((_, rest)) => rest,
        None => &[],
    }
}

#[tactic(auto, unfolding(crate::specs::Summary::is_completion))]
fn is_completion(line: &[u8]) -> bool
    ensures { result ≡ spec.is_completion line.now }
{
    line.starts_with(b"wc ")
}

#[tactic(auto, unfolding(crate::specs::Summary::is_success))]
fn is_success(line: &[u8]) -> bool
    ensures { result ≡ spec.is_success line.now }
{
    is_completion(line) && after_word(after_word(after_word(after_word(line)))).starts_with(b"0 ")
}

#[tactic(auto, unfolding(crate::specs::Summary::is_quiet))]
fn is_quiet(line: &[u8]) -> bool
    ensures value { result ≡ spec.is_quiet line.now }
    ensures long { IsTrue result → 6 ≤ length line.now }
{
    line.starts_with(b"quiet ")
}

/// One more, where something holds.
fn counted(n: usize, holds: bool) -> usize
    requires { n + 1 < 2 ^ 64 }
    ensures { result ≡ (if holds then n + 1 else n) }
{
    if holds { n + 1 } else { n }
}

/// The number of a line on what a settling left; for another line the one before.
fn newer<'a>(before: &'a [u8], line: &'a [u8]) -> &'a [u8]
    ensures { result.now ≡ (if spec.is_quiet line.now then drop 6 line.now else before.now) }
{
    if is_quiet(line) { &line[6..] } else { before }
}

/// What the lines of a text tell: how many completions and successes, and what the last settling left.
#[derive(Clone, Copy)]
struct Tally<'a> {
    completions: usize,
    success: usize,
    left: &'a [u8],
}

#[tactic(auto, using(crate::proofs::Lines::count_more, crate::proofs::Lines::left_more, crate::proofs::Lines::lines_none))]
fn told_by(text: &[u8]) -> Tally<'_>
    ensures completions { result.completions ≡ count_by spec.is_completion
        (spec.lines_of text.now) }
    ensures success { result.success ≡ count_by spec.is_success (spec.lines_of text.now) }
    ensures left { result.left.now ≡ spec.left_in (codes "0") (spec.lines_of text.now) }
{
    let mut tally = Tally {
        completions: 0,
        success: 0,
        left: b"0",
    };
    let mut rest = text;
    'lines: while let Some((line, more)) = cut_at(rest, b'\n') {
        tally.completions = counted(tally.completions, is_completion(line));
        tally.success = counted(tally.success, is_success(line));
        tally.left = newer(tally.left, line);
        rest = more;
    }
    tally
}

fn line_count(text: &[u8]) -> usize
    ensures { result ≡ spec.line_count text.now }
{
    text.iter().filter(|b| **b == b'\n').count()
}

/// The line `bulk lines N completions N success N left N` of a script and of the text of its answers: the lines of the
/// script, the completions told, those of them with status 0, and the number that the last `quiet` told (this project's
/// choice). One pass over each.
///
/// # Errors
///
/// `AllocError` when out of memory.
#[tactic(auto, using(std::proofs::lemmas::List::append_assoc), unfolding(crate::specs::Summary::summary))]
pub fn summary_of(alloc: Global, script: &[u8], text: &[u8]) -> Result<Vec<u8>, AllocError>
    ensures { IfOk result (λ l. l.items ≡ spec.summary script.now text.now) }
{
    let told = told_by(text);
    let mut out = Vec::new(alloc);
    put_number(&mut out, b"bulk lines ", line_count(script) as u64)?;
    put_number(&mut out, b" completions ", told.completions as u64)?;
    put_number(&mut out, b" success ", told.success as u64)?;
    put(&mut out, b" left ")?;
    put(&mut out, told.left)?;
    put(&mut out, b"\n")?;
    Ok(out)
}
